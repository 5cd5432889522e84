// What a form that is being read may still have: one state for each place in the parts of a kind.
ghost use Rattle.std.specs.Prelude.{◌≡◌};
ghost use Rattle.grammar.specs.Rests.{params_part, arrow_part, attrs_part, after, inside, member_object, closes, goes_on, may_dash};

use crate::group::{Group, Sort, belongs};
use tables::Kind;

// What a form that is being read may still have.
#[derive(Clone, Copy, Debug, PartialEq, Eq)]
pub enum Rest {
    // `module`
    Top,
    // nothing
    Done,
    // an item
    Item,
    // any number of `id`
    Idents,
    // `func` or `var`
    Exported,
    // `id` or `-`, then what a function has
    NameOrNone,
    // `id`, then what a function has
    Name,
    // patterns, then a block
    Params,
    // an expression
    Expr,
    // an expression or nothing
    MaybeExpr,
    // at least one `decl`
    FirstDecl,
    // any number of `decl`
    Decls,
    // an expression, then one or two statements
    Test,
    Then,
    Else,
    // any number of statements
    Statements,
    // any number of expressions
    Exprs,
    // an expression or `kwimport`, then any number of expressions
    Callee,
    // an expression, then any number of expressions
    Tag,
    // an expression, then `prop`
    Object,
    // `id` or `member` of a jsx name, then `prop`
    NameObject,
    Property,
    // one to three expressions
    Operand,
    Second,
    // `id` or `member`, then an expression
    Target,
    // patterns, then an expression or a block; an `id` may be either, so it may be the last
    Arrow,
    ArrowOrBody,
    // a jsx name, then attributes, then expressions
    Element,
    Attrs,
    // any number of patterns
    Patterns,
    // a pattern, then an expression
    Defaulted,
    // a pattern, then an expression or nothing
    Declared,
}

// Patterns, then a block.
fn params_part(group: Group) -> Option<Rest>
    ensures { result ≡ params_part group }
{
    if belongs(Sort::Block, group) {
        Some(Rest::Done)
    } else {
        belongs(Sort::Pattern, group).then_some(Rest::Params)
    }
}

// Patterns, and last an expression or a block.
fn arrow_part(group: Group) -> Option<Rest>
    ensures { result ≡ arrow_part group }
{
    if belongs(Sort::Ident, group) {
        Some(Rest::ArrowOrBody)
    } else if belongs(Sort::Pattern, group) {
        Some(Rest::Arrow)
    } else {
        belongs(Sort::Body, group).then_some(Rest::Done)
    }
}

// Attributes, then expressions.
fn attrs_part(group: Group) -> Option<Rest>
    ensures { result ≡ attrs_part group }
{
    if belongs(Sort::Attr, group) {
        Some(Rest::Attrs)
    } else {
        belongs(Sort::Expression, group).then_some(Rest::Exprs)
    }
}

// What a form may still have after a part of a group, if the part may stand there.
pub fn after(rest: Rest, group: Group) -> Option<Rest>
    ensures { result ≡ after rest group }
{
    match rest {
        Rest::Top => belongs(Sort::Module, group).then_some(Rest::Done),
        Rest::Done => None,
        Rest::Item => belongs(Sort::Item, group).then_some(Rest::Item),
        Rest::Idents => belongs(Sort::Ident, group).then_some(Rest::Idents),
        Rest::Exported => belongs(Sort::Exported, group).then_some(Rest::Done),
        Rest::NameOrNone | Rest::Name => belongs(Sort::Ident, group).then_some(Rest::Params),
        Rest::Params => params_part(group),
        Rest::Expr | Rest::MaybeExpr => belongs(Sort::Expression, group).then_some(Rest::Done),
        Rest::FirstDecl | Rest::Decls => belongs(Sort::Decl, group).then_some(Rest::Decls),
        Rest::Test => belongs(Sort::Expression, group).then_some(Rest::Then),
        Rest::Then => belongs(Sort::Statement, group).then_some(Rest::Else),
        Rest::Else => belongs(Sort::Statement, group).then_some(Rest::Done),
        Rest::Statements => belongs(Sort::Statement, group).then_some(Rest::Statements),
        Rest::Exprs | Rest::Tag => belongs(Sort::Expression, group).then_some(Rest::Exprs),
        Rest::Callee => belongs(Sort::Callee, group).then_some(Rest::Exprs),
        Rest::Object => belongs(Sort::Expression, group).then_some(Rest::Property),
        Rest::NameObject => belongs(Sort::JsxName, group).then_some(Rest::Property),
        Rest::Property => belongs(Sort::Prop, group).then_some(Rest::Done),
        Rest::Operand => belongs(Sort::Expression, group).then_some(Rest::Second),
        Rest::Second => belongs(Sort::Expression, group).then_some(Rest::MaybeExpr),
        Rest::Target => belongs(Sort::Target, group).then_some(Rest::Expr),
        Rest::Arrow | Rest::ArrowOrBody => arrow_part(group),
        Rest::Element => belongs(Sort::JsxName, group).then_some(Rest::Attrs),
        Rest::Attrs => attrs_part(group),
        Rest::Patterns => belongs(Sort::Pattern, group).then_some(Rest::Patterns),
        Rest::Defaulted => belongs(Sort::Pattern, group).then_some(Rest::Expr),
        Rest::Declared => belongs(Sort::Pattern, group).then_some(Rest::MaybeExpr),
    }
}

// A jsx name is an `id`, or a `member` over a jsx name.
fn member_object(around: Rest) -> Rest
    ensures { result ≡ member_object around }
{
    match around {
        Rest::Element | Rest::NameObject => Rest::NameObject,
        _ => Rest::Object,
    }
}

// What a form of a kind may have that stands where `around` is wanted.
pub fn inside(around: Rest, kind: Kind) -> Rest
    ensures { result ≡ inside around kind }
{
    match kind {
        Kind::Import => Rest::Idents,
        Kind::Export => Rest::Exported,
        Kind::Deffn | Kind::Fn => Rest::NameOrNone,
        Kind::Defexpr | Kind::Expr | Kind::Attr => Rest::Expr,
        Kind::Var => Rest::FirstDecl,
        Kind::Func => Rest::Name,
        Kind::Return => Rest::MaybeExpr,
        Kind::If => Rest::Test,
        Kind::Block => Rest::Statements,
        Kind::Call => Rest::Callee,
        Kind::Member => member_object(around),
        Kind::Array => Rest::Exprs,
        Kind::Op => Rest::Operand,
        Kind::Assign => Rest::Target,
        Kind::Arrow => Rest::Arrow,
        Kind::Tagged => Rest::Tag,
        Kind::Jsx => Rest::Element,
        Kind::Pat => Rest::Patterns,
        Kind::Dflt => Rest::Defaulted,
        Kind::Decl => Rest::Declared,
        Kind::Module
        | Kind::Id
        | Kind::Lit
        | Kind::Prop
        | Kind::Kwimport
        | Kind::Hand
        | Kind::Str
        | Kind::Bool => Rest::Done,
    }
}

// Whether a form may end here.
pub fn closes(rest: Rest) -> bool
    ensures { result ≡ closes rest }
{
    matches!(
        rest,
        Rest::Done
            | Rest::Idents
            | Rest::MaybeExpr
            | Rest::Decls
            | Rest::Else
            | Rest::Statements
            | Rest::Exprs
            | Rest::Second
            | Rest::ArrowOrBody
            | Rest::Attrs
            | Rest::Patterns
    )
}

// Whether a part may follow.
pub fn goes_on(rest: Rest) -> bool
    ensures { result ≡ goes_on rest }
{
    !matches!(rest, Rest::Done)
}

// Whether `-` may stand here in the place of an `id`.
pub fn may_dash(rest: Rest) -> bool
    ensures { result ≡ may_dash rest }
{
    matches!(rest, Rest::NameOrNone)
}
