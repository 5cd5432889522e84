// Loads a module from its text form.
ghost use Rattle.std.specs.Prelude.{◌≤◌, length, IfOk};
ghost use Rattle.reader.specs.Loads.{Read};

use reader::read;
use tables::{Fault, Node, Sizes};

// The reader's call, with what its promise says of the sizes alone.
// Loads the module whose text form is `form`, over `source`.
pub fn load(form: &[u8], source: &[u8], nodes: &mut [Node], text: &mut [u8]) -> Result<Sizes, Fault>
    ensures reads { Read form.now source.now nodes.old text.old result nodes.new text.new }
    ensures within { IfOk result (λ l. (l.nodes ≤ length nodes.old) × (l.text ≤ length text.old)) }
{
    read(form, source, nodes, text)
}
