// The functions whose handles a block declares.
use crate::pass::HookRegister;
use crate::plan::{Plan, plan_at};
use hooks::{Hook, HookCall, collect_hooks, last_part};
use tables::{Fault, Kind, List, Module, Node, narrow, node_at};
use walk::{Step, Visitor, walk};

#[derive(Drop)]
struct Pending<'p, 'l, 'f, 'g> {
    plans: &'p List<'l, Plan>,
    functions: &'f mut List<'g, u16>,
}

impl Visitor for Pending<'_, '_, '_, '_> {
    fn enter(&mut self, nodes: &[Node], at: usize, _above: Option<u16>) -> Result<Step, Fault> {
        match node_at(nodes, at).kind {
            Kind::Block => Ok(Step::Past),
            _ => Ok(Step::Into),
        }
    }

    fn leave(&mut self, _nodes: &[Node], at: usize) -> Result<(), Fault> {
        if plan_at(self.plans, at).signature.is_some() {
            self.functions.push(narrow(at))?;
        }
        Ok(())
    }
}

impl<'w> HookRegister<'w> {
    // Lists the functions with handles from `from` to before `end` that stand in no block there, from the inside out.
    pub(crate) fn list_pending(
        &mut self,
        m: &Module,
        from: usize,
        end: usize,
    ) -> Result<(), Fault> {
        self.functions.clear();
        let mut visitor = Pending {
            plans: &self.plans,
            functions: &mut self.functions,
        };
        walk(m.nodes, from, end, &mut self.open, &mut visitor)
    }

    // Lists the hooks of a function with a handle. A signature name that is itself that of a hook is called for each handle that the body declares.
    pub(crate) fn list_hooks(&mut self, m: &Module, function: usize) -> Result<(), Fault> {
        self.hooks.clear();
        let body = last_part(m, function);
        if self.sign_is_hook && m.node(body).kind == Kind::Block {
            self.list_pending(m, body.saturating_add(1), m.next(body))?;
            self.list_handles()?;
        }
        collect_hooks(m, function, &mut self.hooks, &mut self.open)
    }

    fn list_handles(&mut self) -> Result<(), Fault> {
        for &function in self.functions.as_slice() {
            self.hooks.push(Hook {
                callee: HookCall::Handle(function),
                left: None,
                argument: None,
            })?;
        }
        Ok(())
    }
}
