// Messages: what each asks of the market of bonds, or of equities, that has venue V and port P. A line that starts with `#` says what
// those after it are for, and is written as it is.
use decimal::Instrument;
use fix::frame::Part;
use octets::part::part_at;
use request::asks::asked;
use request::{Asked, Cancellation, NewOrder, Refusal, Replacement, Terms};
use std::io::Result;

// Writes a word and a part of the message.
fn text(out: &impl Print, word: &[u8], s: &[u8], p: Part) -> Result<()> {
    out.write_all(word)?;
    out.write_all(part_at(s, p.start, p.len))
}

fn refused(out: &impl Print, s: &[u8], r: Refusal) -> Result<()> {
    print!(out; "reject 373={} 371={} 45={}", r.reason, r.tag, r.number)?;
    text(out, b" 372=", s, r.kind)?;
    text(out, b" 52=", s, r.time)
}

// The numbers of a new order, 544 and 8214 where there is a 544.
fn terms(out: &impl Print, t: Terms) -> Result<()> {
    print!(out;
        " 38={} level={} 47={} 54={}",
        t.quantity, t.level, t.capacity, t.side
    )?;
    print!(out;
        " 59={} 109={} 110={} 8060={}",
        t.tif, t.mpid, t.minqty, t.class
    )?;
    if 0 < t.cash {
        print!(out; " 544={} 8214={}", t.cash, t.margin)?;
    }
    Ok(())
}

fn enters(out: &impl Print, s: &[u8], o: NewOrder) -> Result<()> {
    text(out, b"new 1=", s, o.account)?;
    text(out, b" 11=", s, o.id)?;
    text(out, b" 55=", s, o.code)?;
    terms(out, o.terms)?;
    text(out, b" 52=", s, o.time)
}

fn replaces(out: &impl Print, s: &[u8], o: Replacement) -> Result<()> {
    text(out, b"replace 11=", s, o.id)?;
    text(out, b" 41=", s, o.original)?;
    text(out, b" 55=", s, o.code)?;
    print!(out; " 38={} level={} 54={}", o.quantity, o.level, o.side)?;
    text(out, b" 52=", s, o.time)
}

fn cancels(out: &impl Print, s: &[u8], o: Cancellation) -> Result<()> {
    text(out, b"cancel 11=", s, o.id)?;
    text(out, b" 41=", s, o.original)?;
    text(out, b" 55=", s, o.code)?;
    print!(out; " 54={}", o.side)?;
    text(out, b" 52=", s, o.time)
}

// Writes what a message asks.
fn answer(out: &impl Print, q: Instrument, s: &[u8]) -> Result<()> {
    match asked(q, b"V", b"P", s) {
        Asked::Garbled => out.write_all(b"garbled"),
        Asked::Refused(r) => refused(out, s, r),
        Asked::Enters(o) => enters(out, s, o),
        Asked::Replaces(o) => replaces(out, s, o),
        Asked::Cancels(o) => cancels(out, s, o),
    }
}

// Writes a heading, or what a message asks, and a line end.
pub fn line(out: &impl Print, q: Instrument, s: &[u8]) -> Result<()> {
    match s {
        [b'#', ..] => out.write_all(s)?,
        _ => answer(out, q, s)?,
    }
    out.write_all(b"\n")
}
