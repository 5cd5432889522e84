// What the reader wants next, and which forms are open.
use grammar::Rest;

// What a form says right after its kind, one after another.
#[derive(Clone, Copy, Debug, PartialEq, Eq)]
pub enum Field {
    Lo,
    Hi,
    Name,
    Scope,
    Variables,
    // nothing more; a field as the others and no missing one, as the automaton goes from field to field and writes the node at the last
    End,
}

#[derive(Clone, Copy, Debug, PartialEq, Eq)]
pub enum Mode {
    // the bracket of `module`
    First,
    // a kind, where something is wanted
    Word(Rest),
    // a blank before what a form says; the form will want these parts
    Gap(Field, Rest),
    // what the form says
    Said(Field, Rest),
    // a part's blank, or the closing bracket
    Parts(Rest),
    // a part
    Part(Rest),
    // a line feed
    Line,
    // an item, or the end
    Items,
}

// An open form: its node, and what is wanted after it.
#[derive(Clone, Copy, Debug, PartialEq, Eq)]
pub struct Frame {
    pub at: usize,
    pub later: Rest,
}

impl Frame {
    // What a stack holds where nothing is open.
    pub const NONE: Frame = Frame {
        at: 0,
        later: Rest::Top,
    };
}
