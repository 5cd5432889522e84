// Hook calls, and how a function's hooks are collected.
use crate::util::last_part;
use names::is_hook_like;
use tables::{Fault, Kind, List, Module, Node, narrow};
use walk::{Step, Visitor, walk};

// The callee of a hook call, by node numbers: an identifier, or a member by its object and its property. `Handle` is the call of a hook-like
// signature name that declares the handle of the function with that number.
#[derive(Clone, Copy, Debug, PartialEq, Eq)]
pub enum HookCall {
    Ident(u16),
    Member(u16, u16),
    Handle(u16),
}

// A hook, by node numbers: its callee, and what its key is made of, the pattern on the left and the argument that counts.
#[derive(Clone, Copy, Debug, PartialEq, Eq)]
pub struct Hook {
    pub callee: HookCall,
    pub left: Option<u16>,
    pub argument: Option<u16>,
}

impl Hook {
    // What a table may hold before a run.
    pub const NONE: Hook = Hook {
        callee: HookCall::Ident(0),
        left: None,
        argument: None,
    };
}

fn present(at: usize, end: usize) -> Option<u16> {
    (at < end).then_some(narrow(at))
}

// The argument that the key of a hook has: the first of useState, the second of useReducer. The arguments stand from `first` to before `end`.
fn key_argument(m: &Module, name: &[u8], first: usize, end: usize) -> Option<u16> {
    match name {
        b"useState" => present(first, end),
        b"useReducer" => present(m.next(first), end),
        _ => None,
    }
}

// A hook by its callee's node and the name that decides.
fn named_hook(
    m: &Module,
    call: usize,
    callee: HookCall,
    name: usize,
    left: Option<u16>,
) -> Option<Hook> {
    let text = m.name(name);
    if !is_hook_like(text) {
        return None;
    }
    let first = m.next(call.saturating_add(1));
    let argument = key_argument(m, text, first, m.next(call));
    Some(Hook {
        callee,
        left,
        argument,
    })
}

// The hook that a call is, if it is one.
pub fn get_hook_from_expr(m: &Module, call: usize, left: Option<u16>) -> Option<Hook> {
    if m.node(call).kind != Kind::Call {
        return None;
    }
    let callee = call.saturating_add(1);
    match m.node(callee).kind {
        Kind::Id => named_hook(m, call, HookCall::Ident(narrow(callee)), callee, left),
        Kind::Member => {
            let object = callee.saturating_add(1);
            let prop = m.next(object);
            named_hook(
                m,
                call,
                HookCall::Member(narrow(object), narrow(prop)),
                prop,
                left,
            )
        }
        _ => None,
    }
}

// The hook that a declarator's initialiser is, with the pattern on its left.
fn declared_hook(m: &Module, decl: usize) -> Option<Hook> {
    let pattern = decl.saturating_add(1);
    let init = m.next(pattern);
    if init < m.next(decl) {
        get_hook_from_expr(m, init, Some(narrow(pattern)))
    } else {
        None
    }
}

// Whether a node is the body of the arrow right above it.
fn is_arrow_body(m: &Module, at: usize, above: Option<u16>) -> bool {
    above.is_some_and(|above| {
        m.node(above as usize).kind == Kind::Arrow && m.next(at) == m.next(above as usize)
    })
}

// A search: takes each hook call after those inside it. Blocks and the bodies of arrows are not entered.
#[derive(Drop)]
struct Search<'n, 't, 's, 'h, 'l> {
    module: Module<'n, 't, 's>,
    hooks: &'h mut List<'l, Hook>,
}

impl Visitor for Search<'_, '_, '_, '_, '_> {
    fn enter(&mut self, _nodes: &[Node], at: usize, above: Option<u16>) -> Result<Step, Fault> {
        let m = self.module;
        if m.node(at).kind == Kind::Block || is_arrow_body(&m, at, above) {
            Ok(Step::Past)
        } else {
            Ok(Step::Into)
        }
    }

    fn leave(&mut self, _nodes: &[Node], at: usize) -> Result<(), Fault> {
        let m = self.module;
        if let Some(hook) = get_hook_from_expr(&m, at, None) {
            self.hooks.push(hook)?;
        }
        Ok(())
    }
}

// The collection of a function's hooks, with the stack of its searches.
#[derive(Drop)]
struct HookCollector<'n, 't, 's, 'h, 'l, 'o, 'p> {
    module: Module<'n, 't, 's>,
    hooks: &'h mut List<'l, Hook>,
    open: &'o mut List<'p, u16>,
}

impl HookCollector<'_, '_, '_, '_, '_, '_, '_> {
    fn search(&mut self, at: usize) -> Result<(), Fault> {
        let m = self.module;
        let mut search = Search {
            module: m,
            hooks: &mut *self.hooks,
        };
        walk(m.nodes, at, m.next(at), &mut *self.open, &mut search)
    }

    // An `expr` or `return` that is a hook call gives it; any other is searched.
    fn simple(&mut self, at: usize) -> Result<(), Fault> {
        let m = self.module;
        let expr = at.saturating_add(1);
        if expr >= m.next(at) {
            return Ok(());
        }
        match get_hook_from_expr(&m, expr, None) {
            Some(hook) => Ok(self.hooks.push(hook)?),
            None => self.search(at),
        }
    }

    // Lists hooks once more, as many as there is room for; refuses where that is not all of them.
    fn repeat(&mut self, from: usize, count: usize) -> Result<(), Fault> {
        let free = self.hooks.room().saturating_sub(self.hooks.len());
        self.hooks.extend_from_within(from, count.min(free))?;
        if count > free {
            return Err(Fault::TooLarge);
        }
        Ok(())
    }

    // A `var` takes its declarators in turn: each that is no hook call has the whole statement searched. Another search would find what the first
    // found, so that is listed once more.
    fn declarators(&mut self, at: usize) -> Result<(), Fault> {
        let m = self.module;
        let mut searched: Option<(usize, usize)> = None;
        for decl in m.parts(at) {
            match (declared_hook(&m, decl), searched) {
                (Some(hook), _) => self.hooks.push(hook)?,
                (None, Some((from, found))) => self.repeat(from, found)?,
                (None, None) => {
                    let from = self.hooks.len();
                    self.search(at)?;
                    searched = Some((from, self.hooks.len().saturating_sub(from)));
                }
            }
        }
        Ok(())
    }

    // The statements from `from` to before `end`. Those inside an `if` follow its test, so it is entered and they are no siblings of it.
    fn statements(&mut self, from: usize, end: usize) -> Result<(), Fault> {
        let m = self.module;
        let mut at = from;
        while at < end {
            match m.node(at).kind {
                Kind::If => {
                    at = at.saturating_add(1);
                    self.search(at)?;
                }
                Kind::Expr | Kind::Return => self.simple(at)?,
                Kind::Var => self.declarators(at)?,
                _ => self.search(at)?,
            }
            at = m.next(at);
        }
        Ok(())
    }
}

// Adds the hooks of a function's body to a list.
pub fn collect_hooks(
    m: &Module,
    function: usize,
    hooks: &mut List<Hook>,
    open: &mut List<u16>,
) -> Result<(), Fault> {
    let body = last_part(m, function);
    let mut collector = HookCollector {
        module: *m,
        hooks,
        open,
    };
    match m.node(body).kind {
        Kind::Block => collector.statements(body.saturating_add(1), m.next(body)),
        _ => collector.search(body),
    }
}
