// Lines cut at a byte, and texts in quotes.
ghost use Rattle.std.specs.Prelude.{◌++◌, ◌∷◌, ◌≡◌, MatchOption};
ghost use Rattle.std.specs.List.{Contains};

use tables::List;

// What stands before the first byte `b`, and what stands behind it.
pub fn split_once(text: &[u8], b: u8) -> Option<(&[u8], &[u8])>
    ensures { MatchOption result (¬ (Contains text.now b)) (λ p. (text.now ≡ p.0.now ++ b ∷ p.1.now) × ¬ (Contains p.0.now b)) }
{
    let at = text.iter().position(|x| *x == b)?;
    Some((&text[..at], &text[at + 1..]))
}

// The byte that an escape stands for.
fn escaped(b: u8) -> Option<u8> {
    match b {
        b'"' | b'\\' => Some(b),
        b'n' => Some(b'\n'),
        _ => None,
    }
}

// Writes what stands between the quotes, escapes undone, and answers what was written. None if the text is not one in quotes, or `out` is too short
// for it.
pub fn unquote<'o>(quoted: &[u8], out: &'o mut [u8]) -> Option<&'o [u8]> {
    let mut bytes = quoted.strip_prefix(b"\"")?.strip_suffix(b"\"")?.iter();
    let mut plain = List::over(&mut *out);
    // no `for`: after a backslash one byte more is taken
    while let Some(b) = bytes.next() {
        let byte = match *b {
            b'"' => return None,
            b'\\' => escaped(*bytes.next()?)?,
            other => other,
        };
        plain.push(byte).ok()?;
    }
    let n = plain.len();
    out.get(..n)
}
