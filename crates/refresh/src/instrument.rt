// A run over a loaded module.
ghost use Rattle.std.specs.Prelude.{◌≡◌, ◌≤◌, length};
ghost use Rattle.refresh.specs.Appended.{Extends};
ghost use Rattle.refresh.specs.Runs.{Leaves, Settled, Unchanged};

use crate::options::{RefreshOptions, is_refused};
use crate::pass::HookRegister;
use crate::plan::Signature;
use crate::signature::Loaded;
use comments::Comments;
use names::is_hook_like;
use reset::is_forced;
use tables::{Fault, List, Node, Place, Sizes, fits, narrow};

impl<'w> HookRegister<'w> {
    // Appends the signature of the function at `at`, if it has a handle, and notes its place.
    fn sign_function(
        &mut self,
        loaded: &Loaded,
        at: usize,
        text: &mut List<u8>,
    ) -> Result<(), Fault>
        ensures { Extends text.old text.new }
    {
        if self.plan(at).signature.is_none() {
            return Ok(());
        }
        self.list_hooks(&loaded.module(text), at)?;
        let from = text.len();
        loaded.append_signature(&self.hooks, self.sign, text)?;
        let place = Place {
            at: narrow(from),
            len: narrow(text.len().saturating_sub(from)),
        };
        self.place_signature(at, place);
        Ok(())
    }

    fn place_signature(&mut self, at: usize, text: Place) {
        self.replan(at, |plan| {
            plan.signature = plan
                .signature
                .map(|signature| Signature { text, ..signature });
        });
    }

    // Appends the signatures of all functions with handles.
    #[tactic(auto, using(crate::proofs::Extending::still, crate::proofs::Extending::further))]
    fn sign_functions(&mut self, loaded: &Loaded, text: &mut List<u8>) -> Result<(), Fault>
        ensures { Extends text.old text.new }
    {
        // the plans are changed while they are gone through, so they are named by their places
        for at in 0..loaded.nodes.len() {
            self.sign_function(loaded, at, text)?;
        }
        Ok(())
    }

    // Appends the names that the run uses, and notes their places.
    #[tactic(auto, using(crate::proofs::Extending::still, crate::proofs::Extending::further))]
    fn append_names(&mut self, options: &RefreshOptions, text: &mut List<u8>) -> Result<(), Fault>
        ensures { Extends text.old text.new }
    {
        if self.signatures > 0 {
            self.sign = append_name(text, options.refresh_sig)?;
        }
        if self.components > 0 {
            self.register = append_name(text, options.refresh_reg)?;
        }
        Ok(())
    }

    // Makes the instrumented module in the list of nodes, its texts behind those of the loaded one.
    #[tactic(auto, using(crate::proofs::Extending::still, crate::proofs::Extending::further))]
    fn transform(
        &mut self,
        loaded: &Loaded,
        options: &RefreshOptions,
        stack: &mut List<u16>,
        text: &mut List<u8>,
    ) -> Result<(), Fault>
        ensures { Extends text.old text.new }
    {
        self.sign_is_hook = is_hook_like(options.refresh_sig);
        self.plan_module(&loaded.module(text), stack)?;
        self.append_names(options, text)?;
        self.sign_functions(loaded, text)?;
        self.module(&loaded.module(text))
    }
}

// Appends a name, and says where it stands.
fn append_name(text: &mut List<u8>, name: &[u8]) -> Result<Place, Fault>
    ensures { Extends text.old text.new }
{
    let place = Place {
        at: narrow(text.len()),
        len: narrow(name.len()),
    };
    text.extend_from_slice(name)?;
    Ok(place)
}

impl<'w> HookRegister<'w> {
    // Instruments the module of some sizes in its tables, which come one by one as in `run`.
    fn instrument<C: Comments>(
        &mut self,
        nodes: &mut [Node],
        text: &mut [u8],
        loaded: Sizes,
        source: &[u8],
        options: &RefreshOptions,
        stack: &mut List<u16>,
        comments: &C,
    ) -> Result<Sizes, Fault>
        ensures { Leaves nodes.old text.old loaded.text result nodes.new text.new }
    {
        if loaded.nodes > nodes.len() || loaded.text > text.len() {
            return Err(Fault::TooLarge);
        }
        self.should_reset = is_forced(comments, &nodes[..loaded.nodes], stack)?;
        let mut text = List::holding(text, loaded.text);
        let module = Loaded {
            nodes: &nodes[..loaded.nodes],
            source,
        };
        self.transform(&module, options, stack, &mut text)?;
        let made = self.out.nodes.as_slice();
        if made.len() > nodes.len() {
            return Err(Fault::TooLarge);
        }
        nodes[..made.len()].copy_from_slice(made);
        Ok(Sizes {
            nodes: made.len(),
            text: text.len(),
        })
    }

    // Runs over a loaded module of some sizes in its tables, over its source. Without options, or with `dev` off, the module stays as it is. The tables
    // are handed one by one: what a run leaves in them is told of each, and a struct of references would only be taken apart here.
    pub fn run<C: Comments>(
        &mut self,
        nodes: &mut [Node],
        text: &mut [u8],
        loaded: Sizes,
        source: &[u8],
        stack: &mut [u16],
        dev: bool,
        options: Option<RefreshOptions>,
        comments: &C,
    ) -> Result<Sizes, Fault>
        ensures leaves { Leaves nodes.old text.old loaded.text result nodes.new text.new }
        ensures settled { Settled dev options.entry loaded result (Unchanged nodes.old text.old nodes.new text.new) }
    {
        if is_refused(&options) {
            return Err(Fault::BadOption);
        }
        let n = nodes.len();
        if !fits(n, text.len(), source.len())
            || !self.has_room(n)
            || stack.len() != n
            || loaded.nodes > n
            || loaded.text > text.len()
        {
            return Err(Fault::TooLarge);
        }
        let Some(options) = options else {
            return Ok(loaded);
        };
        if !dev {
            return Ok(loaded);
        }
        self.clear(text.len());
        let mut stack = List::over(stack);
        self.instrument(nodes, text, loaded, source, &options, &mut stack, comments)
    }
}
