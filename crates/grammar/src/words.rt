// The words of the text form. Functions and no `TryFrom`: the kinds are of another crate, and which words name them is for the grammar to say.
ghost use Rattle.std.specs.Prelude.{◌≡◌};
ghost use Rattle.grammar.specs.Words.{word_of, text_of, kind_of, variables_of};

use tables::{Kind, Word};

// The kind that a word names, for the kinds that a text to be loaded may have. Those that come often stand first.
#[tactic(auto, unfolding(crate::specs::Words::kind_of))]
pub fn kind_of(run: &[u8]) -> Option<Kind>
    ensures { result ≡ kind_of run.now }
{
    match run {
        b"id" => Some(Kind::Id),
        b"call" => Some(Kind::Call),
        b"member" => Some(Kind::Member),
        b"prop" => Some(Kind::Prop),
        b"lit" => Some(Kind::Lit),
        b"expr" => Some(Kind::Expr),
        b"decl" => Some(Kind::Decl),
        b"var" => Some(Kind::Var),
        b"block" => Some(Kind::Block),
        b"func" => Some(Kind::Func),
        b"arrow" => Some(Kind::Arrow),
        b"jsx" => Some(Kind::Jsx),
        b"attr" => Some(Kind::Attr),
        b"return" => Some(Kind::Return),
        b"fn" => Some(Kind::Fn),
        b"op" => Some(Kind::Op),
        b"assign" => Some(Kind::Assign),
        b"array" => Some(Kind::Array),
        b"if" => Some(Kind::If),
        b"pat" => Some(Kind::Pat),
        b"dflt" => Some(Kind::Dflt),
        b"import" => Some(Kind::Import),
        b"export" => Some(Kind::Export),
        b"deffn" => Some(Kind::Deffn),
        b"defexpr" => Some(Kind::Defexpr),
        b"tagged" => Some(Kind::Tagged),
        b"kwimport" => Some(Kind::Kwimport),
        b"module" => Some(Kind::Module),
        _ => None,
    }
}

// The word that a `var` has.
pub fn variables_of(run: &[u8]) -> Option<Word>
    ensures { result ≡ variables_of run.now }
{
    match run {
        b"const" => Some(Word::Const),
        b"let" => Some(Word::Let),
        b"var" => Some(Word::Var),
        _ => None,
    }
}

pub fn kind_word(kind: Kind) -> &'static [u8]
    ensures { result.now ≡ word_of kind }
{
    match kind {
        Kind::Module => b"module",
        Kind::Import => b"import",
        Kind::Export => b"export",
        Kind::Deffn => b"deffn",
        Kind::Defexpr => b"defexpr",
        Kind::Expr => b"expr",
        Kind::Var => b"var",
        Kind::Func => b"func",
        Kind::Return => b"return",
        Kind::If => b"if",
        Kind::Block => b"block",
        Kind::Id => b"id",
        Kind::Lit => b"lit",
        Kind::Call => b"call",
        Kind::Member => b"member",
        Kind::Array => b"array",
        Kind::Op => b"op",
        Kind::Assign => b"assign",
        Kind::Arrow => b"arrow",
        Kind::Fn => b"fn",
        Kind::Tagged => b"tagged",
        Kind::Jsx => b"jsx",
        Kind::Pat => b"pat",
        Kind::Dflt => b"dflt",
        Kind::Decl => b"decl",
        Kind::Prop => b"prop",
        Kind::Attr => b"attr",
        Kind::Kwimport => b"kwimport",
        Kind::Hand => b"hand",
        Kind::Str => b"str",
        Kind::Bool => b"bool",
    }
}

pub fn word_text(word: Word) -> &'static [u8]
    ensures { result.now ≡ text_of word }
{
    match word {
        Word::Bare => b"-",
        Word::Named => b"",
        Word::Var => b"var",
        Word::Let => b"let",
        Word::Const => b"const",
        Word::S => b"_s",
        Word::C => b"_c",
        Word::False => b"false",
        Word::True => b"true",
    }
}
