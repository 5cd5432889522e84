// Prints a module in the text form.
ghost use Rattle.std.specs.Prelude.{◌≡◌};
ghost use Rattle.walk.specs.Trees.{Tree, flat};
ghost use Rattle.grammar.specs.Forms.{printed};
ghost use Rattle.printer.specs.Held.{held};
ghost use Rattle.printer.specs.Printing.{answer, after};
ghost use Rattle.form.specs.Printing.{Printed};

use tables::{Fault, Module};

// The printer's call, under the name that the programs use.
// Prints the module from the buffer's start, and answers the bytes written; refuses with the bytes needed, the buffer unaltered, where it is shorter.
pub fn print(m: &Module, out: &mut [u8]) -> Result<usize, Fault>
    ensures answer { (t : Tree) → m.now.nodes.now ≡ flat t → result ≡ answer (printed (held m.now.text.now t)) out.old }
    ensures after { (t : Tree) → m.now.nodes.now ≡ flat t → out.new ≡ after (printed (held m.now.text.now t)) out.old }
    ensures kept { Printed out.old result out.new }
{
    printer::print(m, out)
}
