// Zero bytes: whether there is nothing else, and writing them.
ghost use Rattle.std.specs.Prelude.{◌≡◌, ◌&&◌, ◌+◌, ◌≤◌, eqb, length, drop, replicate};
ghost use Rattle.octets.specs.Octets.{all_zero, put};

// Whether every byte is zero. There is no way out of the loop but its end, so that the compiler takes 32 bytes a turn.
pub fn all_zero(t: &[u8]) -> bool
    ensures { result ≡ all_zero t.now }
{
    let mut zero = true;
    for x in t {
        zero = zero & (*x == 0);
    }
    zero
}

// Leaves in each byte of most the greater of it and the one of t that stands as far behind place p: all of most is zero then exactly if
// it was and the bytes of t are.
fn gather(most: &mut [u8], t: &[u8], p: usize)
    requires { p + length most.old ≤ length t.now }
    ensures { (all_zero most.new && all_zero (drop (p + length most.old) t.now)) ≡ (all_zero most.old && all_zero (drop p t.now)) }
{
    for k in 0..most.len() {
        most[k] = most[k].max(t[p + k]);
    }
}

// Whether every byte from place p on is zero; p may lie past the end. Of 256 bytes at a time the greatest are kept in 128, so that the
// compiler takes 16 of them with two instructions; what is left is less than 256 bytes.
pub fn rest_zero(t: &[u8], p: usize) -> bool
    ensures { result ≡ all_zero (drop p t.now) }
{
    if t.len() <= p {
        return true;
    }
    let mut most = [0u8; 128];
    let n = (t.len() - p) / 256;
    for j in 0..n {
        gather(&mut most, t, p + 256 * j);
        gather(&mut most, t, p + 256 * j + 128);
    }
    let i = p + 256 * n;
    all_zero(&most) & all_zero(&t[i..])
}

// Writes n zeros from place p on, by a loop: `fill` stores the last byte apart, and most runs are short.
pub fn put_zeros(t: &mut [u8], p: usize, n: usize)
    requires { p + n ≤ length t.old }
    ensures { t.new ≡ put t.old p (replicate n 0) }
{
    for k in 0..n {
        t[p + k] = 0;
    }
}

// Makes every byte zero.
pub fn clear(t: &mut [u8])
    ensures { t.new ≡ replicate (length t.old) 0 }
{
    t.fill(0);
}
