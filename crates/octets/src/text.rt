// Texts: a length byte, the bytes, and zeros up to the room that is kept for them.
ghost use Rattle.std.specs.Prelude.{◌≡◌, ◌+◌, ◌≤◌, ◌<◌, length};
ghost use Rattle.octets.specs.Octets.{text_at, put_text, same_bytes};

use crate::part::{copy_into, part_at, same};
use crate::zero::put_zeros;

// The text at place p, as a part of the slice.
pub fn text_at(t: &[u8], p: usize) -> &[u8]
    ensures { result.now ≡ text_at t.now p }
{
    if t.len() <= p {
        return part_at(t, p, 0);
    }
    let n = t[p] as usize;
    part_at(t, p + 1, n)
}

// Whether the text at place p is m.
pub fn text_is(t: &[u8], p: usize, m: &[u8]) -> bool
    ensures { result ≡ same_bytes (text_at t.now p) m.now }
{
    same(text_at(t, p), m)
}

// Writes m as the text at place p, where there is room for so many bytes, and zeros behind it.
pub fn put_text(t: &mut [u8], p: usize, room: usize, m: &[u8])
    requires { (p + 1 + room ≤ length t.old) × (length m.now ≤ room) × (length m.now < 256) }
    ensures { t.new ≡ put_text room t.old p m.now }
{
    let n = m.len();
    t[p] = n as u8;
    let q = copy_into(t, p + 1, m);
    put_zeros(t, q, room - n);
}
