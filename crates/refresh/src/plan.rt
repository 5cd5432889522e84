// The plan of a run: which functions collect hooks, which items are components, and the number that each handle gets, from the inside out and
// item by item.
use crate::pass::HookRegister;
use hooks::{Persist, collect_hooks, collect_ident_in_jsx, last_part, persistent};
use tables::{Fault, Kind, List, Module, Node, Place, Word, narrow};
use walk::{Step, Visitor, walk};

// The `_c` handle of an item that is a component, and the identifier that names it.
#[derive(Clone, Copy, Debug, PartialEq, Eq)]
pub struct Component {
    pub handle: u16,
    pub ident: u16,
}

// The `_s` handle of a function with hooks, and its signature's place in the text table: no bytes until all functions are planned, and nothing asks for
// them before.
#[derive(Clone, Copy, Debug, PartialEq, Eq)]
pub struct Signature {
    pub handle: u16,
    pub text: Place,
}

// What is planned for a node.
#[derive(Clone, Copy, Debug, PartialEq, Eq)]
pub struct Plan {
    pub signature: Option<Signature>,
    // a `fn` or `arrow` that initialises a plain identifier
    pub initialiser: bool,
    // a block that declares handles
    pub declares: bool,
    pub component: Option<Component>,
}

impl Plan {
    pub const NONE: Plan = Plan {
        signature: None,
        initialiser: false,
        declares: false,
        component: None,
    };
}

// What is planned for the node at a place; nothing past the table's end.
pub(crate) fn plan_at(plans: &List<Plan>, at: usize) -> Plan {
    plans.get(at).unwrap_or(Plan::NONE)
}

// Whether a function is one that the pass collects the hooks of.
fn collects(node: Node) -> bool {
    matches!(
        (node.kind, node.word),
        (Kind::Func | Kind::Fn | Kind::Arrow, _) | (Kind::Deffn, Word::Named)
    )
}

// Whether a node is a `fn` or `arrow` that initialises the plain identifier of the declarator right above it.
fn initialises(m: &Module, at: usize, above: Option<u16>) -> bool {
    let Some(above) = above else {
        return false;
    };
    let pattern = (above as usize).saturating_add(1);
    match (
        m.node(at).kind,
        m.node(above as usize).kind,
        m.node(pattern).kind,
    ) {
        (Kind::Fn | Kind::Arrow, Kind::Decl, Kind::Id) => at == m.next(pattern),
        _ => false,
    }
}

impl<'w> HookRegister<'w> {
    fn next_handle(&self) -> u16 {
        self.signatures.saturating_add(self.components)
    }

    // Whether the parts of a function that stand before its body are passed over: those of an initialiser.
    fn is_passed(&self, m: &Module, at: usize, above: Option<u16>) -> bool {
        above.is_some_and(|above| {
            self.plan(above as usize).initialiser && m.next(at) != m.next(above as usize)
        })
    }

    // Whether a function has hooks.
    fn has_hooks(&mut self, m: &Module, at: usize) -> Result<bool, Fault> {
        self.hooks.clear();
        collect_hooks(m, at, &mut self.hooks, &mut self.open)?;
        Ok(self.hooks.len() > 0 || (self.sign_is_hook && self.plan(last_part(m, at)).declares))
    }

    // Notes that the block right around declares a handle.
    fn declare(&mut self) {
        if let Some(block) = self.blocks.last() {
            self.replan(block as usize, |plan| plan.declares = true);
        }
    }

    fn leave_function(&mut self, m: &Module, at: usize) -> Result<(), Fault> {
        if self.has_hooks(m, at)? {
            let handle = self.next_handle();
            self.replan(at, |plan| {
                plan.signature = Some(Signature {
                    handle,
                    text: Place::NONE,
                });
            });
            self.signatures = self.signatures.saturating_add(1);
            self.declare();
        }
        Ok(())
    }

    fn leave_item(&mut self, m: &Module, at: usize) {
        if let Persist::Component(ident) = persistent(m, at, &self.used) {
            let handle = self.next_handle();
            self.replan(
                at,
                |plan| plan.component = Some(Component { handle, ident }),
            );
            self.components = self.components.saturating_add(1);
        }
    }

    fn enter(&mut self, m: &Module, at: usize, above: Option<u16>) -> Result<Step, Fault> {
        if self.is_passed(m, at, above) {
            return Ok(Step::Past);
        }
        if m.node(at).kind == Kind::Block {
            self.blocks.push(narrow(at))?;
        }
        if initialises(m, at, above) {
            self.replan(at, |plan| plan.initialiser = true);
        }
        Ok(Step::Into)
    }

    fn leave(&mut self, m: &Module, at: usize) -> Result<(), Fault> {
        let node = m.node(at);
        if node.kind == Kind::Block {
            self.blocks.pop();
        }
        if collects(node) {
            self.leave_function(m, at)?;
        }
        Ok(())
    }

    // Nothing is planned for any node yet.
    fn blank_plans(&mut self, nodes: usize) -> Result<(), Fault> {
        for _ in 0..nodes {
            self.plans.push(Plan::NONE)?;
        }
        Ok(())
    }

    // Plans the items one by one.
    fn plan_items(&mut self, m: &Module, stack: &mut List<u16>) -> Result<(), Fault> {
        for item in m.siblings(1, m.nodes.len()) {
            plan_item(self, m, item, stack)?;
            self.leave_item(m, item);
        }
        Ok(())
    }

    // Plans a module. The walk over it has a stack of its own.
    pub(crate) fn plan_module(&mut self, m: &Module, stack: &mut List<u16>) -> Result<(), Fault> {
        collect_ident_in_jsx(m, &mut self.used, stack)?;
        self.blank_plans(m.nodes.len())?;
        self.plan_items(m, stack)
    }
}

// Plans from the inside out.
#[derive(Drop)]
struct Planner<'n, 't, 's, 'p, 'w> {
    module: Module<'n, 't, 's>,
    pass: &'p mut HookRegister<'w>,
}

impl Visitor for Planner<'_, '_, '_, '_, '_> {
    fn enter(&mut self, _nodes: &[Node], at: usize, above: Option<u16>) -> Result<Step, Fault> {
        let m = self.module;
        self.pass.enter(&m, at, above)
    }

    fn leave(&mut self, _nodes: &[Node], at: usize) -> Result<(), Fault> {
        let m = self.module;
        self.pass.leave(&m, at)
    }
}

fn plan_item(
    pass: &mut HookRegister,
    m: &Module,
    item: usize,
    stack: &mut List<u16>,
) -> Result<(), Fault> {
    let mut planner = Planner { module: *m, pass };
    walk(m.nodes, item, m.next(item), stack, &mut planner)
}
