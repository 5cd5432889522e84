// The steps from a module's files to its instrumented text, in tables that a caller has. They are handed one by one: the pass may work for several
// modules, and what each call leaves is told of each table by its name.
ghost use Rattle.std.specs.Prelude.{◌≡◌, ◌≤◌, length, take, IfOk};
ghost use Rattle.walk.specs.Trees.{Tree, flat};
ghost use Rattle.grammar.specs.Forms.{printed};
ghost use Rattle.printer.specs.Held.{held};
ghost use Rattle.printer.specs.Printing.{answer, after};
ghost use Rattle.refresh.specs.Runs.{Leaves, Settled, Unchanged};
ghost use Rattle.form.specs.Printing.{Printed};
ghost use Rattle.driver.specs.Asked.{asked};

use crate::notes::take_notes;
use crate::stop::{Call, Done, Stop};
use comments::Comments;
use form::{load, print};
use input::Settings;
use refresh::{HookRegister, RefreshOptions};
use tables::{Fault, Module, Node, Sizes};

// What the files of a module hold.
#[derive(Clone, Copy, Debug, PartialEq, Eq)]
pub struct Files<'a> {
    pub form: &'a [u8],
    pub source: &'a [u8],
    pub notes: &'a [u8],
    pub settings: Settings<'a>,
}

fn options<'a>(settings: &Settings<'a>) -> Option<RefreshOptions<'a>>
    ensures { result ≡ asked settings.now }
{
    settings.given.then_some(RefreshOptions {
        refresh_reg: settings.reg,
        refresh_sig: settings.sig,
        emit_full_signatures: settings.full,
    })
}

// Runs over a loaded module.
pub fn run_module<C: Comments>(
    pass: &mut HookRegister,
    nodes: &mut [Node],
    text: &mut [u8],
    loaded: Sizes,
    source: &[u8],
    stack: &mut [u16],
    settings: &Settings,
    comments: &C,
) -> Result<Sizes, Fault>
    ensures leaves { Leaves nodes.old text.old loaded.text result nodes.new text.new }
    ensures settled { Settled settings.now.dev (asked settings.now) loaded result (Unchanged nodes.old text.old nodes.new text.new) }
{
    pass.run(
        nodes,
        text,
        loaded,
        source,
        stack,
        settings.dev,
        options(settings),
        comments,
    )
}

// Prints the module of some sizes in its tables.
pub fn print_module(
    nodes: &[Node],
    text: &[u8],
    source: &[u8],
    sizes: Sizes,
    out: &mut [u8],
) -> Result<usize, Fault>
    ensures answer { (t : Tree) → take sizes.nodes nodes.now ≡ flat t → result ≡ answer (printed (held text.now t)) out.old }
    ensures after { (t : Tree) → take sizes.nodes nodes.now ≡ flat t → out.new ≡ after (printed (held text.now t)) out.old }
    ensures kept { Printed out.old result out.new }
{
    let nodes = nodes.get(..sizes.nodes).unwrap_or(nodes);
    let m = Module {
        nodes,
        text,
        source,
    };
    print(&m, out)
}

// Loads, notes, runs and prints. `scratch` has room for the longest text of a note.
pub fn instrument<C: Comments>(
    files: &Files,
    pass: &mut HookRegister,
    nodes: &mut [Node],
    text: &mut [u8],
    stack: &mut [u16],
    comments: &mut C,
    scratch: &mut [u8],
    out: &mut [u8],
) -> Result<Done, Stop>
    ensures { IfOk result (λ d. d.printed ≤ length out.old) }
{
    let Files {
        form,
        source,
        notes,
        settings,
    } = *files;
    let loaded = load(form, source, nodes, text).map_err(|fault| Stop::Refused(Call::Load, fault))?;
    let notes = take_notes(comments, source, notes, scratch)?;
    let ran = run_module(
        pass, nodes, text, loaded, source, stack, &settings, comments,
    )
    .map_err(|fault| Stop::Refused(Call::Run, fault))?;
    let printed = print_module(nodes, text, source, ran, out).map_err(|fault| Stop::Refused(
        Call::Print,
        fault,
    ))?;
    Ok(Done {
        loaded: loaded.nodes,
        notes,
        added: ran.nodes.saturating_sub(loaded.nodes),
        printed,
    })
}
