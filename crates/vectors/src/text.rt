// The texts of a command file: lines and their parts, numbers, and bytes that are written as marks.
ghost use Rattle.std.specs.Prelude.{◌≤◌, length};

use decimal::read::byte_at;

// What stands before the first byte c: all, if there is none.
pub fn before(s: &[u8], c: u8) -> &[u8] {
    s.splitn(2, |b| *b == c).next().unwrap_or(s)
}

// What stands behind the first byte c: nothing, if there is none.
pub fn behind(s: &[u8], c: u8) -> &[u8] {
    s.splitn(2, |b| *b == c).nth(1).unwrap_or(b"")
}

// The k-th part of a command, k from 0; empty, if there is none.
pub fn part(s: &[u8], k: usize) -> &[u8] {
    s.split(|b| *b == b';').nth(k).unwrap_or(b"")
}

// How many marks `;` there are.
pub fn marks(s: &[u8]) -> usize {
    s.iter().filter(|b| **b == b';').count()
}

// A number with one digit more, or the largest there is, if that is too large; what is no digit is passed over.
fn with_digit(n: u64, c: u8) -> u64 {
    match c {
        b'0'..=b'9' => n.saturating_mul(10).saturating_add(u64::from(c - b'0')),
        _ => n,
    }
}

// The number that digits say.
pub fn number(s: &[u8]) -> u64 {
    s.iter().fold(0, |n, c| with_digit(n, *c))
}

// The number as a count of bytes, and `most` if it is larger.
pub fn at_most(n: u64, most: usize) -> usize
    ensures { result ≤ most }
{
    n.min(most as u64) as usize
}

// The value of a hex digit, and 0 for what is none.
fn hex_value(b: u8) -> u8
    ensures { result ≤ 15 }
{
    match b {
        b'0'..=b'9' => b - b'0',
        b'a'..=b'f' => b - b'a' + 10,
        _ => 0,
    }
}

// The byte that is written from place i on: `|` is SOH, `\xHH` is any byte, else a byte is itself.
fn byte_from(s: &[u8], i: usize) -> u8
    requires { i ≤ length s.now }
{
    match byte_at(s, i) {
        b'|' => 1,
        b'\\' => hex_value(byte_at(s, i + 2)) * 16 + hex_value(byte_at(s, i + 3)),
        b => b,
    }
}

// How many characters that byte takes.
fn width_at(s: &[u8], i: usize) -> usize
    ensures { (1 ≤ result) × (result ≤ 4) }
{
    if byte_at(s, i) == b'\\' { 4 } else { 1 }
}

// Writes the bytes that a text says into out, as many as it has room for, and gives their number.
pub fn bytes_of(s: &[u8], out: &mut [u8]) -> usize {
    let mut i = 0;
    for (n, place) in out.iter_mut().enumerate() {
        if s.len() <= i {
            return n;
        }
        *place = byte_from(s, i);
        i += width_at(s, i);
    }
    out.len()
}
