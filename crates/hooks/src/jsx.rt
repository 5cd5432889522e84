// Which identifiers a module uses in JSX.
use tables::{Fault, Kind, List, Module, Node, narrow, same_ident};
use walk::{Step, Visitor, walk};

// Lists the node numbers of identifiers that are used in JSX.
#[derive(Drop)]
struct UsedInJsx<'n, 't, 's, 'i, 'l> {
    module: Module<'n, 't, 's>,
    idents: &'i mut List<'l, u16>,
}

fn makes_element(name: &[u8]) -> bool {
    matches!(name, b"createElement" | b"jsx" | b"jsxDEV" | b"jsxs")
}

// Whether a call makes an element, by the `id` or `prop` that it calls.
fn is_element_call(m: &Module, callee: usize) -> bool {
    match m.node(callee).kind {
        Kind::Id => makes_element(m.name(callee)),
        Kind::Member => makes_element(m.name(m.next(callee.saturating_add(1)))),
        _ => false,
    }
}

fn ident_at(m: &Module, at: usize, end: usize) -> Option<usize> {
    (at < end && m.node(at).kind == Kind::Id).then_some(at)
}

// The identifier that a node uses in JSX, if it does: the name of a `jsx`, or the first argument of a call that makes an element.
fn used_by(m: &Module, at: usize) -> Option<usize> {
    let first = at.saturating_add(1);
    let end = m.next(at);
    match m.node(at).kind {
        Kind::Jsx => ident_at(m, first, end),
        Kind::Call if is_element_call(m, first) => ident_at(m, m.next(first), end),
        _ => None,
    }
}

impl Visitor for UsedInJsx<'_, '_, '_, '_, '_> {
    fn enter(&mut self, _nodes: &[Node], at: usize, _above: Option<u16>) -> Result<Step, Fault> {
        let m = self.module;
        if let Some(ident) = used_by(&m, at) {
            self.idents.push(narrow(ident))?;
        }
        Ok(Step::Into)
    }

    fn leave(&mut self, _nodes: &[Node], _at: usize) -> Result<(), Fault> {
        Ok(())
    }
}

pub fn collect_ident_in_jsx(
    m: &Module,
    idents: &mut List<u16>,
    open: &mut List<u16>,
) -> Result<(), Fault> {
    let mut visitor = UsedInJsx { module: *m, idents };
    walk(m.nodes, 0, m.nodes.len(), open, &mut visitor)
}

// Whether an identifier is among those listed.
pub fn is_used(m: &Module, ident: usize, idents: &List<u16>) -> bool {
    let node = m.node(ident);
    idents
        .as_slice()
        .iter()
        .any(|&at| same_ident(m.text, node, m.node(at as usize)))
}
