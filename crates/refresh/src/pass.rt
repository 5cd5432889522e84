// The tables that a run works in, and what it knows.
use crate::output::Output;
use crate::plan::{Plan, plan_at};
use hooks::Hook;
use tables::{List, Node, Place};

// A component's handle and the name that it is registered under.
#[derive(Clone, Copy, Debug, PartialEq, Eq)]
pub struct Registration {
    pub handle: u16,
    pub name: Place,
}

impl Registration {
    // What a table may hold before a run.
    pub const NONE: Registration = Registration {
        handle: 0,
        name: Place::NONE,
    };
}

// The tables that a caller lends for runs, each with as many entries as the node table. What they hold does not matter. Plans stand in a table beside
// the nodes, by the same places, as all memory is lent before it is known how many there are.
#[derive(Drop)]
pub struct WorkTables<'w> {
    pub nodes: &'w mut [Node],
    pub plans: &'w mut [Plan],
    pub hooks: &'w mut [Hook],
    pub registrations: &'w mut [Registration],
    pub idents: &'w mut [u16],
    pub functions: &'w mut [u16],
    pub scopes: &'w mut [u16],
    pub blocks: &'w mut [u16],
    pub open: &'w mut [u16],
}

// Goes through a module: plans the handles, signs the functions, writes the instrumented module.
#[derive(Drop)]
pub struct HookRegister<'w> {
    pub(crate) plans: List<'w, Plan>,
    // identifiers used in JSX
    pub(crate) used: List<'w, u16>,
    // the blocks that are open
    pub(crate) blocks: List<'w, u16>,
    // functions whose handles are pending
    pub(crate) functions: List<'w, u16>,
    pub(crate) hooks: List<'w, Hook>,
    // the stack of a walk
    pub(crate) open: List<'w, u16>,
    // the scopes that are known: the module's top scope and those of the blocks around
    pub(crate) current_scope: List<'w, u16>,
    pub(crate) registrations: List<'w, Registration>,
    pub(crate) out: Output<'w>,
    // the names of the functions that make a signature handle and register a component; nothing asks for one before it is appended
    pub(crate) sign: Place,
    pub(crate) register: Place,
    // whether the signature name is itself that of a hook
    pub(crate) sign_is_hook: bool,
    pub(crate) should_reset: bool,
    // how many handles there are of each kind
    pub(crate) signatures: u16,
    pub(crate) components: u16,
}

impl<'w> HookRegister<'w> {
    // A pass that works in tables which the caller lends.
    pub fn over(tables: WorkTables<'w>) -> HookRegister<'w> {
        HookRegister {
            plans: List::over(tables.plans),
            used: List::over(tables.idents),
            blocks: List::over(tables.blocks),
            functions: List::over(tables.functions),
            hooks: List::over(tables.hooks),
            open: List::over(tables.open),
            current_scope: List::over(tables.scopes),
            registrations: List::over(tables.registrations),
            out: Output {
                nodes: List::over(tables.nodes),
                size: 0,
                limit: 0,
            },
            sign: Place::NONE,
            register: Place::NONE,
            sign_is_hook: false,
            should_reset: false,
            signatures: 0,
            components: 0,
        }
    }

    // Whether each work table has `n` entries.
    pub(crate) fn has_room(&self, n: usize) -> bool {
        [
            self.out.nodes.room(),
            self.plans.room(),
            self.hooks.room(),
            self.registrations.room(),
            self.used.room(),
            self.functions.room(),
            self.current_scope.room(),
            self.blocks.room(),
            self.open.room(),
        ]
        .iter()
        .all(|&room| room == n)
    }

    // Forgets an earlier run.
    pub(crate) fn clear(&mut self, limit: usize) {
        self.plans.clear();
        self.used.clear();
        self.blocks.clear();
        self.current_scope.clear();
        self.registrations.clear();
        self.out.nodes.clear();
        self.out.size = 0;
        self.out.limit = limit;
        self.sign = Place::NONE;
        self.register = Place::NONE;
        self.signatures = 0;
        self.components = 0;
    }

    pub(crate) fn plan(&self, at: usize) -> Plan {
        plan_at(&self.plans, at)
    }

    // Changes what is planned for a node.
    pub(crate) fn replan<F: FnOnce(&mut Plan)>(&mut self, at: usize, change: F)
        requires { F.IsAlwaysCallable change }
    {
        let mut plan = self.plan(at);
        change(&mut plan);
        self.plans.put(at, plan);
    }
}
