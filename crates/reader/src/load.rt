// Reads the text form of a module into tables.
ghost use Rattle.reader.specs.Loads.{Read};

use crate::loader::Loader;
use crate::mode::{Frame, Mode};
use tables::{Fault, Kind, List, Node, Sizes, fits};

// The brackets that may be open at the same time, in a fixed array as there is no heap.
const NESTING: usize = 64;

// Reads the module whose text form is `form`, over `source`, and answers what it takes of the tables.
pub fn read(form: &[u8], source: &[u8], nodes: &mut [Node], text: &mut [u8]) -> Result<Sizes, Fault>
    ensures { Read form.now source.now nodes.old text.old result nodes.new text.new }
{
    if !fits(nodes.len(), text.len(), source.len()) {
        return Err(Fault::TooLarge);
    }
    let mut frames = [Frame::NONE; NESTING];
    let mut loader = Loader {
        // no bit is lost: a source that fits is short
        limit: source.len() as u32 + 1,
        mode: Mode::First,
        node: Node::made(Kind::Module),
        frames: List::over(&mut frames),
        count: 0,
        bytes: 0,
    };
    loader.read(form, nodes, text)?;
    if loader.count > nodes.len() || loader.bytes > text.len() {
        return Err(Fault::TooLarge);
    }
    Ok(Sizes {
        nodes: loader.count,
        text: loader.bytes,
    })
}
