// Parts of a slice: lent on, copied, compared.
ghost use Rattle.std.specs.Prelude.{◌≡◌};
ghost use Rattle.octets.specs.Octets.{part_at, same_bytes};
ghost use Rattle.octets.specs.Written.{Room, Wrote};

// The n bytes from place p on, or as many as there are.
pub fn part_at(t: &[u8], p: usize, n: usize) -> &[u8]
    ensures { result.now ≡ part_at t.now p n }
{
    let end = t.len();
    if end <= p {
        return &t[end..];
    }
    if end - p <= n {
        return &t[p..];
    }
    let e = p + n;
    &t[p..e]
}

// Copies a slice into out from place at on, and gives the place behind it. Byte by byte: copy_from_slice would bring memmove into the
// library for C, which asks a host for memcpy and memset alone.
pub fn copy_into(out: &mut [u8], at: usize, from: &[u8]) -> usize
    requires { Room out.old at from.now }
    ensures { Wrote out.old at from.now result out.new }
{
    for (j, x) in from.iter().enumerate() {
        out[at + j] = *x;
    }
    at + from.len()
}

// Whether two slices hold the same bytes. A loop, which loads each byte once; `==` on slices loads some of them again.
pub fn same(a: &[u8], b: &[u8]) -> bool
    ensures { result ≡ same_bytes a.now b.now }
{
    if a.len() != b.len() {
        return false;
    }
    for i in 0..a.len() {
        if a[i] != b[i] {
            return false;
        }
    }
    true
}
