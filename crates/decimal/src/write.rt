// Numbers, yields, prices and averages written as text into an area, from a place on. Each function answers the place behind the
// text.
ghost use Rattle.std.specs.Prelude.{◌≡◌, ◌∷◌, [], ◌-◌, ◌*◌, ◌≤◌, ◌<◌, length};
ghost use Rattle.octets.specs.Written.{Room, Wrote};
ghost use Rattle.decimal.specs.declared.Instrument.TheVariants.{Bonds, Equities};
ghost use Rattle.decimal.specs.Writing.{decimal, places, Scale, plain, fixed, level_text, mean_text, share_of, mean_of};

use crate::Instrument;

// One byte.
pub fn put_byte(out: &mut [u8], at: usize, b: u8) -> usize
    requires { Room out.old at (b ∷ []) }
    ensures { Wrote out.old at (b ∷ []) result out.new }
{
    out[at] = b;
    at + 1
}

// The last k digits of n, its zeros with them: from the last two on, two a turn, so that there is one division by 100 for both.
pub fn put_places(out: &mut [u8], at: usize, k: usize, n: u64) -> usize
    requires { Room out.old at (places k n) }
    ensures { Wrote out.old at (places k n) result out.new }
{
    let mut i = k;
    let mut m = n;
    while i > 1 {
        i -= 2;
        let two = m % 100;
        out[at + i + 1] = 48 + (two % 10) as u8;
        out[at + i] = 48 + (two / 10) as u8;
        m = m / 100;
    }
    if i == 1 {
        out[at] = 48 + (m % 10) as u8;
        return at + k;
    }
    at + k
}

// How many digits n has.
pub fn digits(n: u64) -> usize
    ensures { result ≡ length (decimal n) }
{
    let mut k = 0;
    let mut m = n;
    while m >= 10000 {
        m = m / 10000;
        k += 4;
    }
    if m < 10 {
        return k + 1;
    }
    if m < 100 {
        return k + 2;
    }
    if m < 1000 {
        return k + 3;
    }
    k + 4
}

// The digits of n, with no needless zero.
pub fn put_decimal(out: &mut [u8], at: usize, n: u64) -> usize
    requires { Room out.old at (decimal n) }
    ensures { Wrote out.old at (decimal n) result out.new }
{
    if n < 10 {
        return put_byte(out, at, 48 + n as u8);
    }
    if n < 100 {
        return put_places(out, at, 2, n);
    }
    let k = digits(n);
    put_places(out, at, k, n)
}

// The amount m with k decimals: its whole part, a point, and the rest.
pub fn put_plain(out: &mut [u8], at: usize, k: usize, unit: u64, m: u64) -> usize
    requires { Scale k unit × Room out.old at (plain k m) }
    ensures { Wrote out.old at (plain k m) result out.new }
{
    let a = put_decimal(out, at, m / unit);
    let b = put_byte(out, a, b'.');
    put_places(out, b, k, m)
}

// The yield, or the average of yields, with k decimals that v stands for. Prices have a function of their own, since they know no minus and
// lie below what stands for zero; k and the unit are constants at each call, so that nothing is divided by a variable.
fn put_signed(out: &mut [u8], at: usize, k: usize, unit: u64, v: u64) -> usize
    requires { Scale k unit × Room out.old at (fixed Bonds k v) }
    ensures { Wrote out.old at (fixed Bonds k v) result out.new }
{
    let zero = unit * 1_000_000;
    if v < zero {
        let a = put_byte(out, at, b'-');
        return put_plain(out, a, k, unit, zero - v);
    }
    put_plain(out, at, k, unit, v - zero)
}

// The price, or the average of prices, with k decimals that v stands for.
fn put_unsigned(out: &mut [u8], at: usize, k: usize, unit: u64, v: u64) -> usize
    requires { Scale k unit × Room out.old at (fixed Equities k v) }
    ensures { Wrote out.old at (fixed Equities k v) result out.new }
{
    let zero = unit * 100_000_000;
    put_plain(out, at, k, unit, zero.saturating_sub(v))
}

// A yield or a price, from its level.
pub fn put_level(out: &mut [u8], at: usize, q: Instrument, level: u64) -> usize
    requires { Room out.old at (level_text q level) }
    ensures { Wrote out.old at (level_text q level) result out.new }
{
    match q {
        Instrument::Bonds => put_signed(out, at, 3, 1000, level),
        Instrument::Equities => put_unsigned(out, at, 1, 10, level),
    }
}

// AvgPx, from the mean.
pub fn put_mean(out: &mut [u8], at: usize, q: Instrument, mean: u64) -> usize
    requires { Room out.old at (mean_text q mean) }
    ensures { Wrote out.old at (mean_text q mean) result out.new }
{
    match q {
        Instrument::Bonds => put_signed(out, at, 6, 1_000_000, mean),
        Instrument::Equities => put_unsigned(out, at, 4, 10_000, mean),
    }
}

// The thousandths of d over e, to the nearest: the whole part first, then the rest, so that nothing needs more than 64 bits.
fn share(d: u64, e: u64) -> u64
    requires { (0 < e) × (e < 1000000000) × (d ≤ e * 1000000000) }
    ensures { (result ≡ share_of d e) × (result ≤ 1000000000000) }
{
    let rest = d % e * 1000;
    let cut = d / e * 1000 + rest / e;
    if 2 * (rest % e) < e {
        return cut;
    }
    cut + 1
}

// The mean of what has executed, from the sum of quantity times level.
pub fn mean_of(sum: u64, executed: u64) -> u64
    requires { (executed < 1000000000) × (sum ≤ executed * 2000000000) }
    ensures { result ≡ mean_of sum executed }
{
    if executed == 0 {
        return 1_000_000_000_000;
    }
    let zero = executed * 1_000_000_000;
    if sum < zero {
        return 1_000_000_000_000 - share(zero - sum, executed);
    }
    1_000_000_000_000 + share(sum - zero, executed)
}
