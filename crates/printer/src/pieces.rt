// What a form says, piece by piece. Each piece is written behind what was written before, as far as it fits, and counted.
ghost use Rattle.std.specs.Prelude.{◌≡◌, [], ◌∷◌, ◌++◌, length, decimal};
ghost use Rattle.lex.specs.Written.{over};
ghost use Rattle.grammar.specs.Forms.{escape, escaped, dash, label};
ghost use Rattle.grammar.specs.Labels.{label_of};
ghost use Rattle.printer.specs.Held.{saying};
ghost use Rattle.printer.specs.Writes.{Behind};
ghost use Rattle.printer.specs.Output.{Writes};

use grammar::{Label, label_of, word_text};
use lex::{put_byte, put_bytes, put_number};
use tables::{Node, Word};

// A buffer, and how many bytes were written: what does not fit is only counted.
#[derive(Drop)]
pub(crate) struct Output<'o> {
    pub(crate) out: &'o mut [u8],
    pub(crate) n: usize,
}

impl Output<'_> {
    // Has `put` write into the rest of the buffer, and counts the bytes that it answers. An `FnOnce` would do, but in a cycle of calls a proof learns nothing of what it left.
    pub(crate) fn put<F: Fn(&mut [u8]) -> usize>(&mut self, put: F)
        requires { F.IsAlwaysCallable put }
        ensures behind { Behind F.Fn put self.old.out.now self.old.n self.new.out.now self.new.n }
        ensures memory { self.new.out.ghost_name ≡ self.old.out.ghost_name }
    {
        let from = self.n.min(self.out.len());
        self.n = self.n.saturating_add(put(&mut self.out[from..]));
    }

    pub(crate) fn bytes(&mut self, bytes: &[u8])
        ensures { Writes bytes.now self.old self.new }
    {
        self.put(|rest| put_bytes(rest, bytes));
    }

    // A number after a blank.
    pub(crate) fn number(&mut self, n: u32)
        ensures { Writes (32 ∷ decimal n) self.old self.new }
    {
        self.bytes(b" ");
        self.put(|rest| put_number(rest, n));
    }

    // A word after a blank.
    fn word(&mut self, word: &[u8])
        ensures { Writes (32 ∷ word.now) self.old self.new }
    {
        self.bytes(b" ");
        self.bytes(word);
    }

    // The bytes of a text in quotes.
    fn escaped(&mut self, text: &[u8])
        ensures { Writes (escaped text.now) self.old self.new }
    {
        for b in text {
            self.put(|rest| put_escaped(rest, *b));
        }
    }

    // A text in quotes, after a blank.
    fn text(&mut self, text: &[u8])
        ensures { Writes (32 ∷ 34 ∷ (escaped text.now ++ (34 ∷ []))) self.old self.new }
    {
        self.bytes(b" \"");
        self.escaped(text);
        self.bytes(b"\"");
    }

    // `-` for a function without a name.
    fn dash(&mut self, word: Word)
        ensures { Writes (dash word) self.old self.new }
    {
        if word == Word::Bare {
            self.bytes(b" -");
        }
    }

    // What a form says besides its span and its parts.
    pub(crate) fn label(&mut self, node: Node, name: &[u8])
        ensures { Writes (label (label_of node.kind) (saying node name.now)) self.old self.new }
    {
        match label_of(node.kind) {
            Label::None => {}
            Label::Ident => {
                self.word(name);
                self.number(u32::from(node.scope));
            }
            Label::Name => self.word(name),
            Label::Scope => self.number(u32::from(node.scope)),
            Label::Variables | Label::Truth => self.word(word_text(node.word)),
            Label::Function => self.dash(node.word),
            Label::Handle => {
                self.word(word_text(node.word));
                self.number(u32::from(node.number));
            }
            Label::Text => self.text(name),
        }
    }
}

// One byte of a text in quotes.
fn put_escaped(out: &mut [u8], b: u8) -> usize
    ensures size { result ≡ length (escape b) }
    ensures holds { out.new ≡ over out.old (escape b) }
{
    match b {
        b'"' => put_bytes(out, b"\\\""),
        b'\\' => put_bytes(out, b"\\\\"),
        b'\n' => put_bytes(out, b"\\n"),
        _ => put_byte(out, b),
    }
}
