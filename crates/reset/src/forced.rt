// Whether a comment in the module asks for a reset.
ghost use Rattle.std.specs.Prelude.{◌≡◌, ◌||◌, Ok};
ghost use Rattle.walk.specs.declared.visit.Step.TheVariants.{Into};
ghost use Rattle.tables.specs.Lists.{room};
ghost use Rattle.tables.specs.Modules.{node_at};
ghost use Rattle.reset.specs.Resets.{asked, Forced};

use comments::{Comments, Side};
use tables::{Fault, List, Node, Span, node_at};
use walk::{Step, Visitor, walk};

#[derive(Drop)]
struct Reset<'c, C: Comments> {
    comments: &'c C,
    forced: bool,
}

// A leading note at hi - 1 or lo, or a trailing note at lo or hi; a dummy span asks nothing.
fn asks<C: Comments>(comments: &C, span: Span) -> bool
    ensures { result ≡ asked (C.notes comments.now) span }
{
    let needle = b"@refresh reset";
    span.hi != 0
        && (comments.ask(Side::Leading, span.hi - 1, needle)
            || comments.ask(Side::Leading, span.lo, needle)
            || comments.ask(Side::Trailing, span.lo, needle)
            || comments.ask(Side::Trailing, span.hi, needle))
}

impl<C: Comments> Visitor for Reset<'_, C> {
    ghost entering = { λ s nodes at above r s'. (r ≡ Ok Into) × (s'.comments.now ≡ s.comments.now) × (s'.forced ≡ (s.forced || asked (C.notes s.comments.now) (node_at nodes at).span)) };

    ghost leaving = { λ s nodes at r s'. (r ≡ Ok tt) × (s' ≡ s) };

    fn enter(&mut self, nodes: &[Node], at: usize, _above: Option<u16>) -> Result<Step, Fault> {
        if !self.forced {
            self.forced = asks(self.comments, node_at(nodes, at).span);
        }
        Ok(Step::Into)
    }

    fn leave(&mut self, _nodes: &[Node], _at: usize) -> Result<(), Fault> {
        Ok(())
    }
}

// Whether some node has `@refresh reset` in a comment at its edge.
pub fn is_forced<C: Comments>(
    comments: &C,
    nodes: &[Node],
    open: &mut List<u16>,
) -> Result<bool, Fault>
    ensures { Forced (C.notes comments.now) nodes.now (room «open».old) result }
{
    let mut visitor = Reset {
        comments,
        forced: false,
    };
    walk(nodes, 0, nodes.len(), open, &mut visitor)?;
    Ok(visitor.forced)
}
