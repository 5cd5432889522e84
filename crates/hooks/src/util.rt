// Small questions about nodes.
use tables::{Kind, Module};

// The last part of a node that has one.
pub fn last_part(m: &Module, at: usize) -> usize {
    m.parts(at).last().unwrap_or(at.saturating_add(1))
}

// Whether an arrow's body is an arrow.
pub fn is_body_arrow_fn(m: &Module, arrow: usize) -> bool {
    m.node(last_part(m, arrow)).kind == Kind::Arrow
}

// Whether a name has `require` in it.
fn has_require(name: &[u8]) -> bool {
    name.windows(7).any(|part| matches!(part, b"require"))
}

// Whether an expression is a call of `import`, or of an identifier with `require` in its name.
pub fn is_import_or_require(m: &Module, expr: usize) -> bool {
    let callee = expr.saturating_add(1);
    match (m.node(expr).kind, m.node(callee).kind) {
        (Kind::Call, Kind::Kwimport) => true,
        (Kind::Call, Kind::Id) => has_require(m.name(callee)),
        _ => false,
    }
}
