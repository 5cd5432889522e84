// Tables of a program for one module, and the steps in them, each with the promise of the call that it makes.
ghost use Rattle.std.specs.Prelude.{◌≡◌, ◌≤◌, length, take, IfOk};
ghost use Rattle.walk.specs.Trees.{Tree, flat};
ghost use Rattle.grammar.specs.Forms.{printed};
ghost use Rattle.reader.specs.Loads.{Read};
ghost use Rattle.printer.specs.Held.{held};
ghost use Rattle.printer.specs.Printing.{answer, after};
ghost use Rattle.refresh.specs.Runs.{Leaves, Settled, Unchanged};
ghost use Rattle.form.specs.Printing.{Printed};
ghost use Rattle.driver.specs.Asked.{asked};

use crate::steps::{Files, instrument, print_module, run_module};
use crate::stop::{Done, Stop};
use comments::Comments;
use form::load;
use input::Settings;
use refresh::HookRegister;
use tables::{Fault, Node, Sizes};

// Tables for one module, and the pass in its own.
#[derive(Drop)]
pub struct Lent<'t> {
    pub(crate) nodes: &'t mut [Node],
    pub(crate) text: &'t mut [u8],
    pub(crate) stack: &'t mut [u16],
    pub(crate) pass: HookRegister<'t>,
}

impl Lent<'_> {
    // Loads the module whose text form is `form`, over `source`.
    pub fn load(&mut self, form: &[u8], source: &[u8]) -> Result<Sizes, Fault>
        ensures reads { Read form.now source.now self.old.nodes.now self.old.text.now result self.new.nodes.now self.new.text.now }
        ensures within { IfOk result (λ l. (l.nodes ≤ length self.old.nodes.now) × (l.text ≤ length self.old.text.now)) }
    {
        load(form, source, self.nodes, self.text)
    }

    // Runs over the loaded module.
    pub fn run<C: Comments>(
        &mut self,
        loaded: Sizes,
        source: &[u8],
        settings: &Settings,
        comments: &C,
    ) -> Result<Sizes, Fault>
        ensures leaves { Leaves self.old.nodes.now self.old.text.now loaded.text result self.new.nodes.now self.new.text.now }
        ensures settled { Settled settings.now.dev (asked settings.now) loaded result (Unchanged self.old.nodes.now self.old.text.now self.new.nodes.now self.new.text.now) }
    {
        run_module(
            &mut self.pass,
            self.nodes,
            self.text,
            loaded,
            source,
            self.stack,
            settings,
            comments,
        )
    }

    // Prints the module of some sizes.
    pub fn print(&self, sizes: Sizes, source: &[u8], out: &mut [u8]) -> Result<usize, Fault>
        ensures answer { (t : Tree) → take sizes.nodes self.now.nodes.now ≡ flat t → result ≡ answer (printed (held self.now.text.now t)) out.old }
        ensures after { (t : Tree) → take sizes.nodes self.now.nodes.now ≡ flat t → out.new ≡ after (printed (held self.now.text.now t)) out.old }
        ensures kept { Printed out.old result out.new }
    {
        print_module(self.nodes, self.text, source, sizes, out)
    }

    // Loads, notes, runs and prints. `scratch` has room for the longest text of a note.
    pub fn instrument<C: Comments>(
        &mut self,
        files: &Files,
        comments: &mut C,
        scratch: &mut [u8],
        out: &mut [u8],
    ) -> Result<Done, Stop>
        ensures { IfOk result (λ d. d.printed ≤ length out.old) }
    {
        instrument(
            files,
            &mut self.pass,
            self.nodes,
            self.text,
            self.stack,
            comments,
            scratch,
            out,
        )
    }
}
