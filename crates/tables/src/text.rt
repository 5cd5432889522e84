// What a byte is in a text, and the name rule.
ghost use Rattle.std.specs.Prelude.{◌≡◌};
ghost use Rattle.std.specs.Str.{bytes_eq};
ghost use Rattle.tables.specs.Text.{class, letter, in_name, every, starts_name, name};

#[derive(Clone, Copy, Debug, PartialEq, Eq)]
pub enum Class {
    Open,
    Close,
    Blank,
    LineFeed,
    Letter,
    Digit,
    Other,
}

pub fn class_of(c: char) -> Class
    ensures { result ≡ class c }
{
    match c {
        '(' => Class::Open,
        ')' => Class::Close,
        ' ' => Class::Blank,
        '\n' => Class::LineFeed,
        'A'..='Z' | 'a'..='z' | '_' | '$' => Class::Letter,
        '0'..='9' => Class::Digit,
        _ => Class::Other,
    }
}

// Whether a name may have the character.
pub fn is_name_char(c: char) -> bool
    ensures { result ≡ in_name c }
{
    matches!(class_of(c), Class::Letter | Class::Digit)
}

fn starts_name(run: &[u8]) -> bool
    ensures { result ≡ starts_name run.now }
{
    run.first().is_some_and(|&b| is_letter(char::from(b)))
}

fn is_letter(c: char) -> bool
    ensures { result ≡ letter c }
{
    matches!(class_of(c), Class::Letter)
}

// Whether every byte may stand in a name.
pub fn all_name_chars(run: &[u8]) -> bool
    ensures { result ≡ every in_name run.now }
{
    run.iter().all(|&b| is_name_char(char::from(b)))
}

// The name rule: 1 to 64 letters, digits, `_` and `$`, no digit first.
pub fn is_name(run: &[u8]) -> bool
    ensures { result ≡ name run.now }
{
    starts_name(run) && run.len() <= 64 && all_name_chars(run)
}

// Whether two texts have the same bytes, told by the definition that sameness of names is written with.
pub fn same(a: &[u8], b: &[u8]) -> bool
    ensures { result ≡ bytes_eq a.now b.now }
{
    a == b
}
