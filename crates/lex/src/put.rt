// Writes over the front of a buffer. What does not fit is only counted.
// Each form is handed the rest of the buffer and answers how many bytes it has: so nothing is allocated, and what is needed is known where it does not fit.
ghost use Rattle.std.specs.Prelude.{◌≡◌, [], ◌∷◌, length};
ghost use Rattle.lex.specs.Written.{over};

// Writes one byte if there is room.
pub fn put_byte(out: &mut [u8], b: u8) -> usize
    ensures size { result ≡ 1 }
    ensures holds { out.new ≡ over out.old (b ∷ []) }
{
    if let Some(first) = out.first_mut() {
        *first = b;
    }
    1
}

// Writes bytes as far as they fit, and answers how many they are.
pub fn put_bytes(out: &mut [u8], bytes: &[u8]) -> usize
    ensures size { result ≡ length bytes.now }
    ensures holds { out.new ≡ over out.old bytes.now }
{
    let n = bytes.len().min(out.len());
    out[..n].copy_from_slice(&bytes[..n]);
    bytes.len()
}
