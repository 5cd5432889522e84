// What a form says besides its span and its parts.
ghost use Rattle.std.specs.Prelude.{◌≡◌};
ghost use Rattle.grammar.specs.Labels.{label_of};

use tables::Kind;

#[derive(Clone, Copy, Debug, PartialEq, Eq)]
pub enum Label {
    // nothing: a kind with this label is as any other
    None,
    // a name and a scope
    Ident,
    // a name
    Name,
    // a scope
    Scope,
    // `var`, `let` or `const`
    Variables,
    // `-` if there is no `id`
    Function,
    // a letter and a number
    Handle,
    // a text in quotes
    Text,
    // `true` or `false`
    Truth,
}

pub fn label_of(kind: Kind) -> Label
    ensures { result ≡ label_of kind }
{
    match kind {
        Kind::Deffn | Kind::Fn => Label::Function,
        Kind::Var => Label::Variables,
        Kind::Block => Label::Scope,
        Kind::Id => Label::Ident,
        Kind::Prop => Label::Name,
        Kind::Hand => Label::Handle,
        Kind::Str => Label::Text,
        Kind::Bool => Label::Truth,
        _ => Label::None,
    }
}
