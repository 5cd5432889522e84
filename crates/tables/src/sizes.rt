// The sizes that tables and source may have.
ghost use Rattle.std.specs.Prelude.{◌≡◌};
ghost use Rattle.tables.specs.Sizes.{sizes_fit};

// How many nodes and bytes of text a module has in its tables.
#[derive(Clone, Copy, Debug, PartialEq, Eq)]
pub struct Sizes {
    pub nodes: usize,
    pub text: usize,
}

// Whether the tables are as N asks, which is the number of node entries, and the source is short enough.
pub fn fits(nodes: usize, text: usize, source: usize) -> bool
    ensures { result ≡ sizes_fit nodes text source }
{
    nodes >= 16 && nodes <= 8192 && text == 6 * nodes && source <= 65535
}
