// One step of the reader at each token.
ghost use Rattle.std.specs.Prelude.{◌≡◌, ℕ, List, reverse, length, if◌then◌else◌, nat_lt, slice_set};
ghost use Rattle.tables.specs.Lists.{contents, room};
ghost use Rattle.tables.specs.Modules.{node_at};
ghost use Rattle.lex.specs.Texts.{tokens};
ghost use Rattle.lex.specs.Tokens.{view as shown};
ghost use Rattle.grammar.specs.Rests.{may_dash};
ghost use Rattle.reader.specs.Machine.{step_by, step, sized, called_in, with_word, kept_bytes, kept_text, advance, said, closed_by, worded, framed, opened, to, go, later, goes};
ghost use Rattle.reader.specs.Steps.{view, wants, came, Same, Held};

use crate::fields::{fill, keep, next_field};
use crate::loader::Loader;
use crate::mode::{Field, Frame, Mode};
use grammar::{Rest, after, closes, goes_on, group_of, inside, kind_of, label_of, may_dash};
use lex::{Reader, Token};
use tables::{Fault, Kind, Node, Word, narrow, node_at, same};

// Puts a node at a place of the table, if it has room.
fn put(nodes: &mut [Node], at: usize, node: Node)
    ensures { nodes.new ≡ slice_set nodes.old at node }
{
    // not `get_mut`, whose contract does not say what the slice ends as
    if at < nodes.len() {
        nodes[at] = node;
    }
}

// Notes how many nodes a form has, now that it has been read.
fn set_size(nodes: &mut [Node], at: usize, count: usize)
    ensures { nodes.new ≡ sized nodes.old at count }
{
    let size = narrow(count.saturating_sub(at));
    let node = node_at(nodes, at);
    put(nodes, at, Node { size, ..node });
}

// Notes that a function has a name.
fn set_named(nodes: &mut [Node], at: usize)
    ensures { nodes.new ≡ slice_set nodes.old at (with_word (node_at nodes.old at) Word.Named) }
{
    let word = Word::Named;
    let node = node_at(nodes, at);
    put(nodes, at, Node { word, ..node });
}

// Each step answers what is wanted after it, or nothing where the text is over.
// A token comes with its place as two parameters: a step matches on the one and names the other in a refusal alone.
// `Same` stands in the contracts since it tells the state after a call by the one before, which no invariant of the type can.
impl Loader<'_> {
    // One bracket more, up to the stack's room; then something is wanted.
    fn open_form(&self, place: usize, mode: Mode) -> Result<Option<Mode>, Fault>
        ensures { (ns : List Node) (xs : List ℕ) → wants result (view self.now ns xs) ≡ opened (room self.now.frames) place (view self.now ns xs) (go (to (view self.now ns xs) mode)) }
    {
        if self.frames.len() < self.frames.room() {
            Ok(Some(mode))
        } else {
            Err(Fault::TooDeep(place))
        }
    }

    // A form of a kind begins.
    fn begin(
        &mut self,
        place: usize,
        kind: Kind,
        rest: Rest,
        later: Rest,
    ) -> Result<Option<Mode>, Fault>
        ensures does { (ns : List Node) (xs : List ℕ) → wants result (view self.new ns xs) ≡ opened (room self.old.frames) place (view self.old ns xs) (go (framed (view self.old ns xs) kind rest later)) }
        ensures same { Same self.old self.new }
    {
        let frame = Frame {
            at: self.count,
            later,
        };
        self.frames.push(frame).or(Err(Fault::TooDeep(place)))?;
        self.node = Node::made(kind);
        Ok(Some(Mode::Gap(Field::Lo, rest)))
    }

    // A word that names a kind, where something is wanted.
    fn kind(&mut self, place: usize, run: &[u8], rest: Rest) -> Result<Option<Mode>, Fault>
        ensures does { (ns : List Node) (xs : List ℕ) → wants result (view self.new ns xs) ≡ worded (room self.old.frames) (view self.old ns xs) place rest run.now }
        ensures same { Same self.old self.new }
    {
        let kind = kind_of(run).ok_or(Fault::Misplaced(place))?;
        let later = after(rest, group_of(kind)).ok_or(Fault::Misplaced(place))?;
        self.begin(place, kind, inside(rest, kind), later)
    }

    // A name enters the text table.
    fn store(&mut self, field: Field, run: &[u8], text: &mut [u8])
        ensures text { text.new ≡ kept_text text.old self.old.bytes field run.now }
        ensures bytes { self.new.bytes ≡ kept_bytes self.old.bytes field run.now }
        ensures rest { Held self.old self.new }
    {
        if matches!(field, Field::Name) {
            keep(text, self.bytes, run);
            self.bytes = self.bytes.saturating_add(run.len());
        }
    }

    // The next field; after the last the node enters the table.
    fn advance(&mut self, field: Field, rest: Rest, nodes: &mut [Node]) -> Mode
        ensures does { (xs : List ℕ) → to (view self.new nodes.new xs) result ≡ advance field rest (view self.old nodes.old xs) }
        ensures same { Same self.old self.new }
    {
        match field {
            Field::End => {
                put(nodes, self.count, self.node);
                self.count = self.count.saturating_add(1);
                Mode::Parts(rest)
            }
            _ => Mode::Gap(field, rest),
        }
    }

    // What a form says.
    fn say(
        &mut self,
        place: usize,
        run: &[u8],
        field: Field,
        rest: Rest,
        nodes: &mut [Node],
        text: &mut [u8],
    ) -> Result<Option<Mode>, Fault>
        ensures does { wants result (view self.new nodes.new text.new) ≡ said self.old.limit (view self.old nodes.old text.old) place field rest run.now }
        ensures same { Same self.old self.new }
    {
        self.node = fill(self.node, field, run, self.limit, self.bytes).ok_or(Fault::Misplaced(
            place,
        ))?;
        self.store(field, run, text);
        let next = next_field(label_of(self.node.kind), field);
        Ok(Some(self.advance(next, rest, nodes)))
    }

    // What is wanted after a form that has ended.
    fn later(&self, frame: Frame) -> Mode
        ensures { result ≡ later frame (reverse (contents self.now.frames)) }
    {
        if self.frames.len() == 0 {
            Mode::Line
        } else {
            Mode::Parts(frame.later)
        }
    }

    // The innermost form ends.
    fn close_form(&mut self, place: usize, nodes: &mut [Node]) -> Result<Option<Mode>, Fault>
        ensures does { (xs : List ℕ) → wants result (view self.new nodes.new xs) ≡ closed_by (view self.old nodes.old xs) place (reverse (contents self.old.frames)) }
        ensures same { Same self.old self.new }
    {
        let frame = self.frames.pop().ok_or(Fault::Misplaced(place))?;
        set_size(nodes, frame.at, self.count);
        Ok(Some(self.later(frame)))
    }

    // The innermost form is a function with a name, where one may have none.
    fn name_function(&self, rest: Rest, nodes: &mut [Node])
        ensures { nodes.new ≡ (if may_dash rest then called_in nodes.old (reverse (contents self.now.frames)) else nodes.old) }
    {
        if !may_dash(rest) {
            return;
        }
        if let Some(frame) = self.frames.last() {
            set_named(nodes, frame.at);
        }
    }

    fn at_first(&self, place: usize, token: Token) -> Result<Option<Mode>, Fault>
        ensures { (ns : List Node) (xs : List ℕ) → wants result (view self.now ns xs) ≡ step_by (room self.now.frames) self.now.limit Mode.First (view self.now ns xs) place (shown token.entry) }
    {
        match token {
            Token::Open => self.open_form(place, Mode::Word(Rest::Top)),
            _ => Err(Fault::Misplaced(place)),
        }
    }

    fn at_word(&mut self, place: usize, token: Token, rest: Rest) -> Result<Option<Mode>, Fault>
        ensures does { (ns : List Node) (xs : List ℕ) → wants result (view self.new ns xs) ≡ step_by (room self.old.frames) self.old.limit (Mode.Word rest) (view self.old ns xs) place (shown token.entry) }
        ensures same { Same self.old self.new }
    {
        match token {
            Token::Run(run) => self.kind(place, run, rest),
            _ => Err(Fault::Misplaced(place)),
        }
    }

    fn at_gap(
        &self,
        place: usize,
        token: Token,
        field: Field,
        rest: Rest,
    ) -> Result<Option<Mode>, Fault>
        ensures { (ns : List Node) (xs : List ℕ) → wants result (view self.now ns xs) ≡ step_by (room self.now.frames) self.now.limit (Mode.Gap field rest) (view self.now ns xs) place (shown token.entry) }
    {
        match token {
            Token::Blank => Ok(Some(Mode::Said(field, rest))),
            _ => Err(Fault::Misplaced(place)),
        }
    }

    fn at_said(
        &mut self,
        place: usize,
        token: Token,
        field: Field,
        rest: Rest,
        nodes: &mut [Node],
        text: &mut [u8],
    ) -> Result<Option<Mode>, Fault>
        ensures does { wants result (view self.new nodes.new text.new) ≡ step_by (room self.old.frames) self.old.limit (Mode.Said field rest) (view self.old nodes.old text.old) place (shown token.entry) }
        ensures same { Same self.old self.new }
    {
        match token {
            Token::Run(run) => self.say(place, run, field, rest, nodes, text),
            _ => Err(Fault::Misplaced(place)),
        }
    }

    fn at_parts(
        &mut self,
        place: usize,
        token: Token,
        rest: Rest,
        nodes: &mut [Node],
    ) -> Result<Option<Mode>, Fault>
        ensures does { (xs : List ℕ) → wants result (view self.new nodes.new xs) ≡ step_by (room self.old.frames) self.old.limit (Mode.Parts rest) (view self.old nodes.old xs) place (shown token.entry) }
        ensures same { Same self.old self.new }
    {
        match token {
            Token::Close if closes(rest) => self.close_form(place, nodes),
            Token::Blank if goes_on(rest) => Ok(Some(Mode::Part(rest))),
            _ => Err(Fault::Misplaced(place)),
        }
    }

    fn at_part(
        &self,
        place: usize,
        token: Token,
        rest: Rest,
        nodes: &mut [Node],
    ) -> Result<Option<Mode>, Fault>
        ensures { (xs : List ℕ) → wants result (view self.now nodes.new xs) ≡ step_by (room self.now.frames) self.now.limit (Mode.Part rest) (view self.now nodes.old xs) place (shown token.entry) }
    {
        match token {
            Token::Open => {
                let mode = self.open_form(place, Mode::Word(rest))?;
                self.name_function(rest, nodes);
                Ok(mode)
            }
            Token::Run(run) if may_dash(rest) && same(run, b"-") => {
                Ok(Some(Mode::Parts(Rest::Params)))
            }
            _ => Err(Fault::Misplaced(place)),
        }
    }

    fn at_line(&self, place: usize, token: Token) -> Result<Option<Mode>, Fault>
        ensures { (ns : List Node) (xs : List ℕ) → wants result (view self.now ns xs) ≡ step_by (room self.now.frames) self.now.limit Mode.Line (view self.now ns xs) place (shown token.entry) }
    {
        match token {
            Token::LineFeed => Ok(Some(Mode::Items)),
            _ => Err(Fault::Misplaced(place)),
        }
    }

    fn at_items(
        &self,
        place: usize,
        token: Token,
        nodes: &mut [Node],
    ) -> Result<Option<Mode>, Fault>
        ensures { (xs : List ℕ) → wants result (view self.now nodes.new xs) ≡ step_by (room self.now.frames) self.now.limit Mode.Items (view self.now nodes.old xs) place (shown token.entry) }
    {
        match token {
            Token::Open => self.open_form(place, Mode::Word(Rest::Item)),
            Token::End => {
                set_size(nodes, 0, self.count);
                Ok(None)
            }
            _ => Err(Fault::Misplaced(place)),
        }
    }

    // One token.
    fn step(
        &mut self,
        place: usize,
        token: Token,
        nodes: &mut [Node],
        text: &mut [u8],
    ) -> Result<Option<Mode>, Fault>
        ensures does { wants result (view self.new nodes.new text.new) ≡ step (room self.old.frames) self.old.limit (view self.old nodes.old text.old) place (shown token.entry) }
        ensures same { Same self.old self.new }
    {
        match self.mode {
            Mode::First => self.at_first(place, token),
            Mode::Word(rest) => self.at_word(place, token, rest),
            Mode::Gap(field, rest) => self.at_gap(place, token, field, rest),
            Mode::Said(field, rest) => self.at_said(place, token, field, rest, nodes, text),
            Mode::Parts(rest) => self.at_parts(place, token, rest, nodes),
            Mode::Part(rest) => self.at_part(place, token, rest, nodes),
            Mode::Line => self.at_line(place, token),
            Mode::Items => self.at_items(place, token, nodes),
        }
    }

    // All tokens of a text.
    pub(crate) fn read(
        &mut self,
        form: &[u8],
        nodes: &mut [Node],
        text: &mut [u8],
    ) -> Result<(), Fault>
        ensures { came result (view self.new nodes.new text.new) ≡ goes (room self.old.frames) self.old.limit (view self.old nodes.old text.old) (tokens 0 form.now) }
    {
        let mut reader = Reader::new(form);
        loop {
            let (place, token) = reader.next()?;
            let Some(mode) = self.step(place, token, nodes, text)? else {
                return Ok(());
            };
            self.mode = mode;
        }
    }
}
