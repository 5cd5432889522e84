// Reads one token after another.
ghost use Rattle.std.specs.Prelude.{◌≡◌, ◌+◌, length};
ghost use Rattle.std.specs.List.{prefix_len};
ghost use Rattle.lex.specs.Tokens.{solid, lawful, first, size, token_at, view, viewed, Reads};

use crate::token::{Reader, Token};
use tables::{Class, Fault, all_name_chars, class_of, same};

// Whether a character belongs to a run.
fn is_solid(c: char) -> bool
    ensures { result ≡ solid c }
{
    matches!(class_of(c), Class::Letter | Class::Digit | Class::Other)
}

// How many bytes at the front are of a run.
fn run_len(rest: &[u8]) -> usize
    ensures { result ≡ prefix_len solid rest.now }
{
    rest.iter()
        .take_while(|&&b| is_solid(char::from(b)))
        .count()
}

// Whether a run has lawful bytes: those of names, or a lone `-`.
fn is_lawful(run: &[u8]) -> bool
    ensures { result ≡ lawful run.now }
{
    same(run, b"-") || all_name_chars(run)
}

// The first token of what is left of a text, unless it has unlawful bytes.
fn token_of(rest: &[u8]) -> Option<Token<'_>>
    ensures { viewed result ≡ first rest.now }
{
    let [first, ..] = rest else {
        return Some(Token::End);
    };
    match class_of(char::from(*first)) {
        Class::Open => Some(Token::Open),
        Class::Close => Some(Token::Close),
        Class::Blank => Some(Token::Blank),
        Class::LineFeed => Some(Token::LineFeed),
        Class::Letter | Class::Digit | Class::Other => {
            let run = &rest[..run_len(rest)];
            is_lawful(run).then_some(Token::Run(run))
        }
    }
}

impl Token<'_> {
    // How many bytes it takes.
    fn size(self) -> usize
        ensures { result ≡ size (view self.entry) }
    {
        match self {
            Token::Open | Token::Close | Token::Blank | Token::LineFeed => 1,
            Token::Run(run) => run.len(),
            Token::End => 0,
        }
    }
}

impl<'a> Reader<'a> {
    pub fn new(text: &'a [u8]) -> Self
        ensures text { result.text.now ≡ text.now }
        ensures start { result.at ≡ 0 }
    {
        Reader { text, at: 0 }
    }

    // The next token with its offset; a refusal where the token has unlawful bytes.
    pub fn next(&mut self) -> Result<(usize, Token<'a>), Fault>
        ensures reads { Reads self.old.text.now self.old.at result }
        ensures text { self.new.text.now ≡ self.old.text.now }
        ensures at { self.new.at ≡ self.old.at + size (token_at self.old.text.now self.old.at) }
    {
        let start = self.at;
        let token = token_of(&self.text[start..]).ok_or(Fault::Unlawful(start))?;
        self.at = start + token.size();
        Ok((start, token))
    }
}
