// Does the commands of tests/vectors (the form is told there) on a market of bonds or of equities and writes the answer to each, line by line.
#![tactic(auto)]

mod images;
mod loads;
mod say;
mod text;

ghost use Rattle.std.specs.Prelude.{◌≤◌, length};

use crate::text::{at_most, before, behind, bytes_of, marks, number, part};
use decimal::Instrument;
use kamurjesh::both::{copy_of, copy_read_of, open_of, read_of, run_of, submit_of};
use kamurjesh::kamurjesh_field;
use kamurjesh::numbers::level_in;
use market::{depth, top};
use matching::Level;
use octets::part_at;
use refusals::{Refusal, answer_number};
use std::io::{Read, Result};

// The list of Open: entry k is part 4 + k of the command. More than fit are as wrong as nine.
fn entries(s: &[u8], mpids: &mut [u64], modes: &mut [u64]) -> usize
    ensures { (result ≤ length mpids.new) × (result ≤ length modes.new) }
{
    let listed = marks(s).saturating_sub(3);
    let n = listed.min(mpids.len()).min(modes.len());
    for k in 0..n {
        let entry = part(s, k + 4);
        mpids[k] = number(before(entry, b':'));
        modes[k] = number(behind(entry, b':'));
    }
    n
}

// Open, with the names and the list of the command.
fn open_named(
    q: Instrument,
    table: &mut [u8],
    venue: &[u8],
    port: &[u8],
    code: &[u8],
    s: &[u8],
) -> u64 {
    let mut mpids = [0u64; 16];
    let mut modes = [0u64; 16];
    let n = entries(s, &mut mpids, &mut modes);
    let number = number(part(s, 3));
    open_of(
        q,
        table,
        venue,
        port,
        code,
        number,
        &mpids[..n],
        &modes[..n],
    )
}

// Open.
fn open(out: &impl Print, q: Instrument, table: &mut [u8], s: &[u8]) -> Result<()> {
    let mut venue = [0u8; 64];
    let mut port = [0u8; 64];
    let mut code = [0u8; 64];
    let v = bytes_of(part(s, 0), &mut venue);
    let p = bytes_of(part(s, 1), &mut port);
    let c = bytes_of(part(s, 2), &mut code);
    let venue_id = part_at(&venue, 0, v);
    let port_id = part_at(&port, 0, p);
    let refusal = open_named(q, table, venue_id, port_id, part_at(&code, 0, c), s);
    println!(out; "o {refusal}")
}

// Submit, with as much of the area as the command lends.
fn submit_in(
    out: &impl Print,
    q: Instrument,
    table: &mut [u8],
    message: &[u8],
    area: &mut [u8],
    lent: u64,
) -> Result<()> {
    let mut len = 0;
    let room = at_most(lent, area.len());
    let refusal = submit_of(q, table, message, &mut area[..room], &mut len);
    print!(out; "s {refusal} {len}")?;
    say::rest(out, part_at(area, 0, len as usize))
}

// Submit.
fn submit(out: &impl Print, q: Instrument, table: &mut [u8], s: &[u8]) -> Result<()> {
    let mut message = [0u8; 8192];
    let mut area = [0u8; 65536];
    let n = bytes_of(part(s, 1), &mut message);
    let lent = number(part(s, 0));
    submit_in(out, q, table, part_at(&message, 0, n), &mut area, lent)
}

// Run, with as much of the area as the command lends.
fn run_in(
    out: &impl Print,
    q: Instrument,
    table: &mut [u8],
    area: &mut [u8],
    lent: u64,
    budget: u64,
) -> Result<()> {
    let mut bytes = 0;
    let mut reports = 0;
    let mut steps = 0;
    let room = at_most(lent, area.len());
    let refusal = run_of(
        q,
        table,
        &mut area[..room],
        budget,
        &mut bytes,
        &mut reports,
        &mut steps,
    );
    print!(out; "r {refusal} {bytes} {reports} {steps}")?;
    say::rest(out, part_at(area, 0, bytes as usize))
}

// Run.
fn run(out: &impl Print, q: Instrument, table: &mut [u8], s: &[u8]) -> Result<()> {
    let mut area = [0u8; 65536];
    let lent = number(part(s, 0));
    let budget = number(part(s, 1));
    run_in(out, q, table, &mut area, lent, budget)
}

// Depth's level.
fn level(out: &impl Print, q: Instrument, found: Option<Level>) -> Result<()> {
    match found {
        Some(l) => {
            say::number(out, 1)?;
            say::quote(out, q, l.level)?;
            say::number(out, l.total)?;
            say::number(out, l.orders)
        }
        None => say::word(out, b" 0 0 0 0"),
    }
}

// An answer with a level, or without one.
fn answered(
    out: &impl Print,
    q: Instrument,
    answer: std::result::Result<Option<Level>, Refusal>,
) -> Result<()> {
    say::number(out, answer_number(&answer))?;
    level(out, q, level_in(answer))?;
    say::word(out, b"\n")
}

// Depth.
fn depths(out: &impl Print, q: Instrument, table: &[u8], s: &[u8]) -> Result<()> {
    say::word(out, b"d")?;
    answered(
        out,
        q,
        depth(q, table, number(part(s, 0)), number(part(s, 1))),
    )
}

// The best level of a side, from the heading.
fn tops(out: &impl Print, q: Instrument, table: &[u8], s: &[u8]) -> Result<()> {
    say::word(out, b"t")?;
    answered(out, q, top(q, table, number(part(s, 0))))
}

// A byte put into the table or the image: the one that was there is said behind the command's letter.
fn put_byte(out: &impl Print, letter: &[u8], bytes: &mut [u8], s: &[u8]) -> Result<()> {
    let i = at_most(number(part(s, 0)), bytes.len());
    if let Some(byte) = bytes.get_mut(i) {
        let was = *byte;
        say::word(out, letter)?;
        println!(out; " {was}")?;
        *byte = (number(part(s, 1)) % 256) as u8;
    }
    Ok(())
}

// One field of a report, as it is found by its tag.
fn field(out: &impl Print, report: &[u8], tag: u64) -> Result<()> {
    let mut start = 0;
    let mut len = 0;
    if kamurjesh_field(report, tag, &mut start, &mut len) == 1 {
        print!(out; "{tag}=")?;
        say::bytes(out, part_at(report, start as usize, len as usize))?;
        say::word(out, b";")?;
    }
    Ok(())
}

// The fields of a report, in the order of its bytes, each up to its SOH.
fn fields(out: &impl Print, report: &[u8]) -> Result<()> {
    for text in report.split_inclusive(|b| *b == 1) {
        field(out, report, number(before(text, b'=')))?;
    }
    Ok(())
}

// What was read: the number, the kind, and the fields if it was taken.
fn read_as(out: &impl Print, report: &[u8], refusal: u64, kind: u64) -> Result<()> {
    print!(out; " {refusal} {kind}")?;
    if refusal == 0 {
        say::word(out, b" ")?;
        fields(out, report)?;
    }
    say::word(out, b"\n")
}

// Read.
fn read(out: &impl Print, q: Instrument, s: &[u8]) -> Result<()> {
    let mut bytes = [0u8; 8192];
    let mut kind = 0;
    let n = bytes_of(part(s, 0), &mut bytes);
    let report = part_at(&bytes, 0, n);
    let refusal = read_of(q, report, &mut kind);
    say::word(out, b"x")?;
    read_as(out, report, refusal, kind)
}

// Reading a copy.
fn read_copy(out: &impl Print, q: Instrument, s: &[u8]) -> Result<()> {
    let mut bytes = [0u8; 8192];
    let mut kind = 0;
    let n = bytes_of(part(s, 0), &mut bytes);
    let copy = part_at(&bytes, 0, n);
    let refusal = copy_read_of(q, copy, &mut kind);
    say::word(out, b"y")?;
    read_as(out, copy, refusal, kind)
}

// A report handed to a feed, with as much of the area as the command lends.
fn copy_in(
    out: &impl Print,
    q: Instrument,
    report: &[u8],
    port: &[u8],
    group: &[u8],
    area: &mut [u8],
    s: &[u8],
) -> Result<()> {
    let mut len = 0;
    let mut after = 0;
    let subscription = number(part(s, 0));
    let shows = number(part(s, 1));
    let first = number(part(s, 4));
    let room = at_most(number(part(s, 5)), area.len());
    let refusal = copy_of(
        q,
        report,
        subscription,
        shows,
        port,
        group,
        first,
        &mut area[..room],
        &mut len,
        &mut after,
    );
    print!(out; "c {refusal} {len} {after}")?;
    say::rest(out, part_at(area, 0, len as usize))
}

// A copy. Of an identifier that is much too long, as much as is too long.
fn copy(out: &impl Print, q: Instrument, s: &[u8]) -> Result<()> {
    let mut port = [0u8; 64];
    let mut group = [0u8; 64];
    let mut report = [0u8; 8192];
    let mut area = [0u8; 65536];
    let p = bytes_of(part(s, 2), &mut port);
    let g = bytes_of(part(s, 3), &mut group);
    let n = bytes_of(part(s, 6), &mut report);
    let bytes = part_at(&report, 0, n);
    copy_in(
        out,
        q,
        bytes,
        part_at(&port, 0, p),
        part_at(&group, 0, g),
        &mut area,
        s,
    )
}

// One command to a market of bonds or of equities, or to the image that is kept of it.
fn command(
    out: &impl Print,
    q: Instrument,
    table: &mut [u8],
    image: &mut [u8],
    letter: u8,
    s: &[u8],
) -> Result<()> {
    match letter {
        b'o' => open(out, q, table, s),
        b's' => submit(out, q, table, s),
        b'r' => run(out, q, table, s),
        b'l' => loads::load(out, q, table, s),
        b'd' => depths(out, q, table, s),
        b't' => tops(out, q, table, s),
        b'b' => put_byte(out, b"b", table, s),
        b'x' => read(out, q, s),
        b'c' => copy(out, q, s),
        b'y' => read_copy(out, q, s),
        b'w' => images::save(out, q, table, image, s),
        b'u' => images::restore(out, q, table, image, s),
        b'i' => put_byte(out, b"i", image, s),
        _ => Ok(()),
    }
}

// What the calls from here on are of.
fn chosen(out: &impl Print, q: Instrument, s: &[u8]) -> Result<Instrument> {
    match s {
        b"0" => {
            say::word(out, b"q 0\n")?;
            Ok(Instrument::Bonds)
        }
        b"1" => {
            say::word(out, b"q 1\n")?;
            Ok(Instrument::Equities)
        }
        _ => Ok(q),
    }
}

// One line: a comment is said back. What the calls behind it are of is given back.
fn line(
    out: &impl Print,
    q: Instrument,
    table: &mut [u8],
    image: &mut [u8],
    s: &[u8],
) -> Result<Instrument> {
    match s {
        [] => Ok(q),
        [b'#', ..] => {
            say::word(out, s)?;
            say::word(out, b"\n")?;
            Ok(q)
        }
        [b'q', ..] => chosen(out, q, part_at(s, 2, s.len())),
        [letter, ..] => {
            command(out, q, table, image, *letter, part_at(s, 2, s.len()))?;
            Ok(q)
        }
    }
}

// What was read: a line of so many bytes, and whether the input goes on. A flag, not an Option: the last line has bytes too, and the input ends
// with it.
#[derive(Clone, Copy)]
struct Got {
    len: usize,
    more: bool,
}

// The next byte of the input, if it has not ended.
fn read_byte(input: &mut impl Read) -> Result<Option<u8>> {
    let mut one = [0u8; 1];
    if input.read(&mut one)? == 0 {
        return Ok(None);
    }
    Ok(Some(one[0]))
}

// Reads a line, without its end; of one that is too long, as much as there is room for.
fn read_line(input: &mut impl Read, buffer: &mut [u8]) -> Result<Got> {
    for (len, place) in buffer.iter_mut().enumerate() {
        match read_byte(input)? {
            None => return Ok(Got { len, more: false }),
            Some(b'\n') => return Ok(Got { len, more: true }),
            Some(b) => *place = b,
        }
    }
    Ok(Got {
        len: buffer.len(),
        more: true,
    })
}

// Reads a line and answers it. What the calls behind it are of is given back, if the input goes on.
fn turn(
    input: &mut impl Read,
    out: &impl Print,
    q: Instrument,
    table: &mut [u8],
    image: &mut [u8],
    buffer: &mut [u8],
) -> Result<Option<Instrument>> {
    let got = read_line(input, buffer)?;
    let of = line(out, q, table, image, part_at(buffer, 0, got.len))?;
    Ok(got.more.then_some(of))
}

// The lines, one after another, at most a million. The calls are of bonds at the start.
fn lines(
    input: &mut impl Read,
    out: &impl Print,
    table: &mut [u8],
    image: &mut [u8],
    buffer: &mut [u8],
) -> Result<()> {
    let mut of = Instrument::Bonds;
    for _ in 0..1_000_000 {
        let Some(next) = turn(input, out, of, table, image, buffer)? else {
            break;
        };
        of = next;
    }
    Ok(())
}

fn main(rt: HostRuntime) -> Result<()> {
    let mut table = [0u8; 32768];
    let mut image = [0u8; 33281];
    let mut buffer = [0u8; 8192];
    lines(&mut rt.stdin(), &rt, &mut table, &mut image, &mut buffer)
}
