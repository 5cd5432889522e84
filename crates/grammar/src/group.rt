// Where forms of a kind may stand.
ghost use Rattle.std.specs.Prelude.{◌≡◌};
ghost use Rattle.grammar.specs.Groups.{group, groups, belongs};

use tables::Kind;

// Kinds that may stand at the same places.
#[derive(Clone, Copy, Debug, PartialEq, Eq)]
pub enum Group {
    Module,
    // only an item
    Item,
    // a statement that declares nothing to the outside, and no block
    Statement,
    // `func` and `var`, which may be exported
    Declaration,
    Block,
    Ident,
    Member,
    // any other expression
    Expression,
    // any other pattern
    Pattern,
    Decl,
    Prop,
    Attr,
    Kwimport,
    // made by a run only
    Made,
}

// What is wanted at a place.
#[derive(Clone, Copy, Debug, PartialEq, Eq)]
pub enum Sort {
    Module,
    Item,
    Statement,
    Expression,
    Pattern,
    Ident,
    Exported,
    Block,
    Decl,
    Prop,
    Attr,
    // an expression or `kwimport`
    Callee,
    // `id` or `member`
    Target,
    // an expression or a block
    Body,
    // `id`, or `member` over a jsx name
    JsxName,
}

pub fn group_of(kind: Kind) -> Group
    ensures { result ≡ group kind }
{
    match kind {
        Kind::Module => Group::Module,
        Kind::Import | Kind::Export | Kind::Deffn | Kind::Defexpr => Group::Item,
        Kind::Expr | Kind::Return | Kind::If => Group::Statement,
        Kind::Var | Kind::Func => Group::Declaration,
        Kind::Block => Group::Block,
        Kind::Id => Group::Ident,
        Kind::Member => Group::Member,
        Kind::Lit
        | Kind::Call
        | Kind::Array
        | Kind::Op
        | Kind::Assign
        | Kind::Arrow
        | Kind::Fn
        | Kind::Tagged
        | Kind::Jsx => Group::Expression,
        Kind::Pat | Kind::Dflt => Group::Pattern,
        Kind::Decl => Group::Decl,
        Kind::Prop => Group::Prop,
        Kind::Attr => Group::Attr,
        Kind::Kwimport => Group::Kwimport,
        Kind::Hand | Kind::Str | Kind::Bool => Group::Made,
    }
}

fn groups_of(sort: Sort) -> &'static [Group]
    ensures { result.now ≡ groups sort }
{
    match sort {
        Sort::Module => &[Group::Module],
        Sort::Item => &[
            Group::Item,
            Group::Statement,
            Group::Declaration,
            Group::Block,
        ],
        Sort::Statement => &[Group::Statement, Group::Declaration, Group::Block],
        Sort::Expression => &[Group::Ident, Group::Member, Group::Expression],
        Sort::Pattern => &[Group::Ident, Group::Pattern],
        Sort::Ident => &[Group::Ident],
        Sort::Exported => &[Group::Declaration],
        Sort::Block => &[Group::Block],
        Sort::Decl => &[Group::Decl],
        Sort::Prop => &[Group::Prop],
        Sort::Attr => &[Group::Attr],
        Sort::Callee => &[
            Group::Ident,
            Group::Member,
            Group::Expression,
            Group::Kwimport,
        ],
        Sort::Target | Sort::JsxName => &[Group::Ident, Group::Member],
        Sort::Body => &[Group::Ident, Group::Member, Group::Expression, Group::Block],
    }
}

// Whether a form of a group may stand where a sort is wanted.
pub fn belongs(sort: Sort, group: Group) -> bool
    ensures { result ≡ belongs sort group }
{
    groups_of(sort).contains(&group)
}
