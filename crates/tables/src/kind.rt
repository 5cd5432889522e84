// The kinds of forms and the words that they say.
ghost use Rattle.std.specs.Prelude.{◌≡◌, cond};
ghost use Rattle.tables.specs.declared.kind.Word.TheVariants.{True, False};

// The kinds of forms, named after the words that begin them.
#[derive(Clone, Copy, Debug, PartialEq, Eq)]
pub enum Kind {
    Module,
    Import,
    Export,
    Deffn,
    Defexpr,
    Expr,
    Var,
    Func,
    Return,
    If,
    Block,
    Id,
    Lit,
    Call,
    Member,
    Array,
    Op,
    Assign,
    Arrow,
    Fn,
    Tagged,
    Jsx,
    Pat,
    Dflt,
    Decl,
    Prop,
    Attr,
    Kwimport,
    Hand,
    Str,
    Bool,
}

// What a form says by a word, one enum for all kinds as all nodes are one record: how a `var` declares, whether a `deffn` or `fn` has a name or `-`, the letter of a `hand`, the value of a `bool`.
#[derive(Clone, Copy, Debug, PartialEq, Eq)]
pub enum Word {
    Bare,
    Named,
    Var,
    Let,
    Const,
    S,
    C,
    False,
    True,
}

impl From<bool> for Word {
    ghost from_gives = { λ b w. w ≡ cond b True False };

    fn from(value: bool) -> Word {
        if value { Word::True } else { Word::False }
    }
}
