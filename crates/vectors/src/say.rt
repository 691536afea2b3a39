// What is written to standard output: words, numbers, and bytes in the form of a transcript.
use decimal::{EVEN, Instrument};
use std::io::Result;

// A word.
pub fn word(out: &impl Print, s: &[u8]) -> Result<()> {
    out.write_all(s)
}

// A space and a number.
pub fn number(out: &impl Print, n: u64) -> Result<()> {
    print!(out; " {n}")
}

// A space and a yield in thousandths or a price in tenths, from its level: how far it lies above zero, or below.
pub fn quote(out: &impl Print, q: Instrument, level: u64) -> Result<()> {
    let above = i128::from(level) - i128::from(EVEN);
    match q {
        Instrument::Bonds => print!(out; " {above}"),
        Instrument::Equities => {
            let price = -above;
            print!(out; " {price}")
        }
    }
}

// Whether a byte is written as it is.
fn is_plain(b: u8) -> bool {
    matches!(b, b' '..=b'~') && !matches!(b, b'|' | b';' | b'\\')
}

// A byte that is written as a mark.
fn mark(out: &impl Print, b: u8) -> Result<()> {
    if b == 1 {
        return out.write_all(b"|");
    }
    print!(out; "\\x{b:02x}")
}

// Bytes: runs of those that are written as they are, and marks.
pub fn bytes(out: &impl Print, s: &[u8]) -> Result<()> {
    for run in s.chunk_by(|a, b| is_plain(*a) && is_plain(*b)) {
        match run {
            [b] if !is_plain(*b) => mark(out, *b)?,
            _ => word(out, run)?,
        }
    }
    Ok(())
}

// A space and bytes, if there are any, and the end of the line.
pub fn rest(out: &impl Print, s: &[u8]) -> Result<()> {
    if !s.is_empty() {
        word(out, b" ")?;
        bytes(out, s)?;
    }
    word(out, b"\n")
}
