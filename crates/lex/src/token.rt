// Tokens: brackets, blanks, line feeds, the longest runs of other bytes, and the end.
ghost use Rattle.std.specs.Prelude.{◌≤◌, length};

#[derive(Clone, Copy, Debug, PartialEq, Eq)]
pub enum Token<'a> {
    Open,
    Close,
    Blank,
    LineFeed,
    Run(&'a [u8]),
    End,
}

// A place in a text, from which tokens are read.
#[derive(Drop)]
pub struct Reader<'a> {
    pub(crate) text: &'a [u8],
    pub(crate) at: usize,
    ghost inside: { at ≤ length text.now },
}
