// Which items are components.
use crate::jsx::is_used;
use crate::util::{is_body_arrow_fn, is_import_or_require};
use names::begins_upper;
use tables::{Kind, List, Module, Word, narrow};

// Whether an item's state lasts: a component, by the node number of its identifier, or nothing of the kind. An own enum and no Option, as the
// published pass has it, where a wrapped component is a third case.
#[derive(Clone, Copy, Debug, PartialEq, Eq)]
pub enum Persist {
    Component(u16),
    None,
}

fn get_persistent_id(m: &Module, ident: usize) -> Persist {
    if begins_upper(m.name(ident)) {
        Persist::Component(narrow(ident))
    } else {
        Persist::None
    }
}

// A value that makes a component of a name that is used in JSX.
fn is_component_value(m: &Module, init: usize) -> bool {
    matches!(
        m.node(init).kind,
        Kind::Arrow | Kind::Fn | Kind::Tagged | Kind::Call
    ) && !is_import_or_require(m, init)
}

fn get_persistent_id_from_init(m: &Module, ident: usize, init: usize, used: &List<u16>) -> Persist {
    if is_component_value(m, init) && is_used(m, ident, used) {
        return Persist::Component(narrow(ident));
    }
    match m.node(init).kind {
        Kind::Fn => get_persistent_id(m, ident),
        Kind::Arrow if !is_body_arrow_fn(m, init) => get_persistent_id(m, ident),
        _ => Persist::None,
    }
}

// A `var` of one declarator, with a plain identifier and an initialiser.
fn get_persistent_id_from_var_decl(m: &Module, var: usize, used: &List<u16>) -> Persist {
    let decl = var.saturating_add(1);
    let ident = decl.saturating_add(1);
    let init = m.next(ident);
    let end = m.next(decl);
    match m.node(ident).kind {
        Kind::Id if end == m.next(var) && init < end => get_persistent_id_from_init(
            m, ident, init, used,
        ),
        _ => Persist::None,
    }
}

// What an item is, by the module as it was loaded.
pub fn persistent(m: &Module, item: usize, used: &List<u16>) -> Persist {
    let first = item.saturating_add(1);
    let node = m.node(item);
    match (node.kind, node.word, m.node(first).kind) {
        (Kind::Func, _, _) | (Kind::Deffn, Word::Named, _) => get_persistent_id(m, first),
        (Kind::Export, _, Kind::Func) => get_persistent_id(m, first.saturating_add(1)),
        (Kind::Export, _, Kind::Var) => get_persistent_id_from_var_decl(m, first, used),
        (Kind::Var, _, _) => get_persistent_id_from_var_decl(m, item, used),
        _ => Persist::None,
    }
}
