// Changed reports, of bonds or of equities: each byte of a report is changed to each of the 255 other values, one at a time; how many of the changed reports are
// refused and how many are read, as they are and with their 10 made true again. What must be written was worked out with the second
// program (tests/second), which read every one of them.
ghost use Rattle.std.specs.Prelude.{◌≡◌, ◌≤◌, ◌<◌, length};
ghost use Rattle.trials.specs.Changes.{is_refused, mended, changed, refusal, Sized, refused_to, refused_at, refused_in};

use decimal::Instrument;
use fix::frame::checksum;
use octets::part::copy_into;
use report::Kind;
use report::write::put_trailer;
use std::io::Result;

// Whether a kind is none.
fn none(k: Kind) -> bool
    ensures { result ≡ is_refused k }
{
    match k {
        Kind::Accepted => false,
        Kind::Replaced => false,
        Kind::Canceled => false,
        Kind::Trade => false,
        Kind::Rejected => false,
        Kind::CancelReject => false,
        Kind::SessionReject => false,
        Kind::Refused => true,
    }
}

// 1 if the bytes are refused, and 0 if they are read.
fn refused(q: Instrument, s: &[u8]) -> u64
    ensures { result ≡ refusal q s.now }
{
    let r = report::read::read(q, s);
    let k = r.kind;
    if none(k) {
        return 1;
    }
    0
}

// Makes 10 true again.
fn mend(s: &mut [u8])
    requires { 7 ≤ length s.old }
    ensures { s.new ≡ mended s.old }
{
    let end = s.len() - 7;
    let sum = checksum(&s[..end]);
    put_trailer(s, end, sum);
}

// 1 if the bytes with b at place i are refused, 10 made true again where that is asked; they stay so.
fn refused_now(q: Instrument, s: &mut [u8], again: bool, i: usize, b: u8) -> u64
    requires { (7 ≤ length s.old) × (i < length s.old) }
    ensures { result ≡ refusal q (changed again s.old i b) }
{
    s[i] = b;
    if again {
        mend(s);
        return refused(q, s);
    }
    refused(q, s)
}

// The same of a copy.
fn refused_with(q: Instrument, s: &[u8], again: bool, i: usize, b: u8) -> u64
    requires { Sized s.now × (i < length s.now) }
    ensures { result ≡ refusal q (changed again s.now i b) }
{
    let mut a = [0u8; 512];
    let n = copy_into(&mut a, 0, s);
    refused_now(q, &mut a[..n], again, i, b)
}

// The same if b is another byte than the one there, and else 0.
fn refused_other(q: Instrument, s: &[u8], again: bool, i: usize, b: u64) -> u64
    requires { Sized s.now × (i < length s.now) × (b < 256) }
    ensures { result ≡ refused_to q again s.now i b }
{
    if b == octets::wide(s[i]) {
        return 0;
    }
    refused_with(q, s, again, i, b as u8)
}

// How many of the other values at place i make it refused.
fn refused_at(q: Instrument, s: &[u8], again: bool, i: usize) -> u64
    requires { Sized s.now × (i < length s.now) }
    ensures { result ≡ refused_at q again s.now i 256 }
{
    let mut k = 0;
    for b in 0..256 {
        k += refused_other(q, s, again, i, b);
    }
    k
}

// How many changes at the first n places make it refused.
fn refused_in(q: Instrument, s: &[u8], again: bool, n: usize) -> u64
    requires { Sized s.now × (n ≤ length s.now) }
    ensures { result ≡ refused_in q again s.now n }
{
    let mut k = 0;
    for i in 0..n {
        k += refused_at(q, s, again, i);
    }
    k
}

// Writes how many of the changes were refused, and how many were read.
fn counts(out: &impl Print, word: &[u8], refused: u64, tried: u64) -> Result<()> {
    out.write_all(word)?;
    print!(out; "{refused} refused, ")?;
    if refused <= tried {
        out.print(tried - refused)?;
    }
    out.write_all(b" read")
}

// Writes the counts of a report, which has 7 to 512 bytes.
fn report(out: &impl Print, q: Instrument, s: &[u8]) -> Result<()>
    requires { Sized s.now }
{
    let n = s.len();
    let m = n - 7;
    out.print(n)?;
    counts(
        out,
        b" bytes: changes ",
        refused_in(q, s, false, n),
        255 * (n as u64),
    )?;
    counts(
        out,
        b"; with 10 made true, ",
        refused_in(q, s, true, m),
        255 * (m as u64),
    )?;
    out.write_all(b"\n")
}

// Writes the counts of a line that can be a report.
pub fn line(out: &impl Print, q: Instrument, s: &[u8]) -> Result<()> {
    if (7..=512).contains(&s.len()) {
        return report(out, q, s);
    }
    Ok(())
}
