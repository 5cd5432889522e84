// The walk over the nodes of a table, for any visitor, with its stack handed in.
ghost use Rattle.std.specs.Prelude.{◌≡◌, ◌-◌, ◌^◌, ◌<◌, nat_le};
ghost use Rattle.walk.specs.Calls.{Enters, Leaves};
ghost use Rattle.tables.specs.Lists.{contents, room};
ghost use Rattle.tables.specs.Modules.{next_at};
ghost use Rattle.walk.specs.Shown.{Walked, Went};
ghost use Rattle.walk.specs.Turns.{Closed, Entered, onward};

use tables::{Fault, List, Node, narrow, next_at};

// What a visitor wants of a node that it has entered: to be shown what is below it, or to go past that.
#[derive(Clone, Copy, Debug, PartialEq, Eq)]
pub enum Step {
    Into,
    Past,
}

// A visitor is shown each node when the walk comes to it, with the node that it stands right below, if the walk has entered one, and again when
// all that is inside has been shown. A refusal ends the walk.
pub trait Visitor {
    // What it does when it enters a node: the state before, the table, the node, the one above it, the answer, the state after.
    ghost entering: { Enters Self } = { λ _ _ _ _ _ _. Unit {0} };

    // What it does when it leaves one.
    ghost leaving: { Leaves Self } = { λ _ _ _ _ _. Unit {0} };

    fn enter(&mut self, nodes: &[Node], at: usize, above: Option<u16>) -> Result<Step, Fault>
        ensures { entering self.old nodes.now at above result self.new };

    fn leave(&mut self, nodes: &[Node], at: usize) -> Result<(), Fault>
        ensures { leaving self.old nodes.now at result self.new };
}

// Whether the node at `top`, with all that is below it, ends before `at`.
fn ended(nodes: &[Node], top: u16, at: usize) -> bool
    ensures { result ≡ nat_le (next_at nodes.now top) at }
{
    next_at(nodes, top as usize) <= at
}

// The table, the stack and the visitor are handed one by one: a struct of references would have to say of two of them, in each contract, that they
// stay the same references. The list keeps its room in each call, which relates before and after.

// Leaves the open nodes that end before `at`, and says which one stays open last.
fn close<V: Visitor>(
    nodes: &[Node],
    at: usize,
    open: &mut List<u16>,
    visitor: &mut V,
) -> Result<Option<u16>, Fault>
    ensures does { Closed V.Visitor.leaving nodes.now at (contents «open».old) visitor.old result (contents «open».new) visitor.new }
    ensures room { room «open».new ≡ room «open».old }
{
    // takes from the stack, so there is nothing to iterate over
    while let Some(top) = open.last() {
        if !ended(nodes, top, at) {
            return Ok(Some(top));
        }
        open.pop();
        visitor.leave(nodes, top as usize)?;
    }
    Ok(None)
}

// Where the walk goes on from the node at `at`.
fn onward(nodes: &[Node], at: usize, step: Step) -> usize
    requires { at < 2 ^ 64 - 1 }
    ensures { result ≡ onward nodes.now at step }
{
    match step {
        Step::Into => at + 1,
        Step::Past => next_at(nodes, at),
    }
}

// Enters the node at `at`, and says where the walk goes on.
fn enter<V: Visitor>(
    nodes: &[Node],
    at: usize,
    above: Option<u16>,
    open: &mut List<u16>,
    visitor: &mut V,
) -> Result<usize, Fault>
    requires { at < 2 ^ 64 - 1 }
    ensures does { Entered V.Visitor.entering nodes.now (room «open».old) at above (contents «open».old) visitor.old result (contents «open».new) visitor.new }
    ensures room { room «open».new ≡ room «open».old }
{
    let step = visitor.enter(nodes, at, above)?;
    match step {
        Step::Into => open.push(narrow(at))?,
        Step::Past => {}
    }
    Ok(onward(nodes, at, step))
}

// Shows the nodes from `from` to before `end` in order.
pub fn walk<V: Visitor>(
    nodes: &[Node],
    from: usize,
    end: usize,
    open: &mut List<u16>,
    visitor: &mut V,
) -> Result<(), Fault>
    ensures shown { Walked V.Visitor.entering V.Visitor.leaving nodes.now (room «open».old) from end visitor.old result visitor.new }
    ensures went { Went V.Visitor.entering V.Visitor.leaving nodes.now visitor.old visitor.new }
    ensures room { room «open».new ≡ room «open».old }
{
    let mut at = from;
    open.clear();
    // the visitor says how far each turn goes, so no iterator knows the places before
    while at < end {
        let above = close(nodes, at, open, visitor)?;
        at = enter(nodes, at, above, open, visitor)?;
    }
    close(nodes, end, open, visitor)?;
    Ok(())
}
