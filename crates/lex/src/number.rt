// Numbers in base ten.
ghost use Rattle.std.specs.Prelude.{◌≡◌, ◌≤◌, length, decimal};
ghost use Rattle.lex.specs.Numbers.{number_of, plain, read_on};
ghost use Rattle.lex.specs.Written.{over};

use crate::put::put_byte;

// Some byte, and no zero before others.
fn is_plain(run: &[u8]) -> bool
    ensures { result ≡ plain run.now }
{
    !matches!(run, [] | [b'0', _, ..])
}

// A loop: `try_fold` would hold the same two tests in its closure, and is no plainer.
fn read_on(run: &[u8], limit: u32) -> Option<u32>
    ensures { result ≡ read_on limit 0 run.now }
{
    let mut n: u64 = 0;
    for b in run {
        if !b.is_ascii_digit() {
            return None;
        }
        n = n * 10 + u64::from(b - b'0');
        if n > u64::from(limit) {
            return None;
        }
    }
    // no bit is lost, as the check proves: a conversion that can fail would have an arm that cannot come
    Some(n as u32)
}

// The number that a run writes, if it writes one of at most `limit`.
pub fn read_number(run: &[u8], limit: u32) -> Option<u32>
    ensures { result ≡ number_of limit run.now }
{
    if is_plain(run) {
        read_on(run, limit)
    } else {
        None
    }
}

// Writes a number over the front of a buffer, as far as it fits, and answers how many bytes it has.
pub fn put_number(out: &mut [u8], n: u32) -> usize
    ensures size { result ≡ length (decimal n) }
    ensures few { result ≤ 10 }
    ensures holds { out.new ≡ over out.old (decimal n) }
{
    // no bit is lost here either
    let digit = b'0' + (n % 10) as u8;
    if n < 10 {
        return put_byte(out, digit);
    }
    let k = put_number(out, n / 10);
    let from = k.min(out.len());
    k + put_byte(&mut out[from..], digit)
}
