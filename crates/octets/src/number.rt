// Numbers of any width up to eight bytes, the least byte first.
ghost use Rattle.std.specs.Prelude.{◌≡◌, ◌+◌, ◌^◌, ◌≤◌, ◌<◌, length};
ghost use Rattle.octets.specs.Octets.{le_at, bytes_of, put};

// A byte as a wider number. `u64::from` promises the value alone, and callers use the bound too.
pub fn wide(x: u8) -> u64
    ensures { (result ≡ x) × (result < 256) }
{
    u64::from(x)
}

// The number whose n bytes start at place p.
pub fn le_at(t: &[u8], p: usize, n: usize) -> u64
    requires { (p + n ≤ length t.now) × (n ≤ 8) }
    ensures { (result ≡ le_at n t.now p) × (result < 256 ^ n) }
{
    let mut r = 0;
    for k in (0..n).rev() {
        r = u64::from(t[p + k]) + 256 * r;
    }
    r
}

// Writes the n low bytes of v from place p on.
pub fn put_le(t: &mut [u8], p: usize, n: usize, v: u64)
    requires { p + n ≤ length t.old }
    ensures { t.new ≡ put t.old p (bytes_of n v) }
{
    let mut w = v;
    for k in 0..n {
        t[p + k] = (w % 256) as u8;
        w /= 256;
    }
}
