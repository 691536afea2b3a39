// The program `book`: reads standard input to its end, and prints the sheet of the market that its lines leave. The market trades bonds;
// with the argument --equities it trades equities.
ghost use Rattle.std.specs.Prelude.{◌≡◌, ◌≤◌, length};
ghost use Rattle.std.specs.Option.{unwrap_or};
ghost use Rattle.book.specs.Book.{area_bytes, traded, rehearsal};
ghost use Rattle.book.specs.Reading.{line_bytes, Held, Came, Printed};

use crate::print::write_sheet;
use crate::take::{take_bytes, take_end};
use decimal::Instrument;
use market::open;
use octets::part_at;
use std::io::{Read, Result};
use std::rt::Env;

// The code of the bond that the program's market trades, or the symbol of its share.
fn code_of(q: Instrument) -> &'static [u8]
    ensures { result.now ≡ traded q }
{
    match q {
        Instrument::Bonds => b"350",
        Instrument::Equities => b"7203",
    }
}

// The market of the program.
fn open_rehearsal(q: Instrument, t: &mut [u8])
    requires { length t.old ≡ 32768 }
    ensures { t.new ≡ rehearsal q }
{
    let mpids = [10u64, 11, 12, 13, 14];
    let modes = [1u64, 1, 1, 1, 1];
    let _ = open(q, t, b"V", b"P", code_of(q), 1, &mpids, &modes);
}

// Reads a part of the input, and gives how many bytes that are: none at its end, which a read that fails is taken for.
fn read_part(input: &mut impl Read, part: &mut [u8]) -> usize
    ensures { result ≤ length part.new }
{
    input.read(part).unwrap_or(0)
}

// Reads a part of the input and takes its bytes. How many bytes of the line are held then is given back, if there may be more to read.
fn read_some(
    input: &mut impl Read,
    q: Instrument,
    t: &mut [u8],
    line: &mut [u8],
    held: usize,
    area: &mut [u8],
) -> Option<usize>
    requires { Held line.old held × (length area.old ≡ area_bytes) }
    ensures came { Came q t.old line.old held t.new line.new (unwrap_or result held) }
    ensures area { length area.new ≡ area_bytes }
{
    let mut b = [0u8; 65536];
    let n = read_part(input, &mut b);
    if n == 0 {
        return None;
    }
    Some(take_bytes(q, t, line, held, area, &b[..n]))
}

// Reads the input to its end and takes its bytes, in more turns than any run uses up.
fn read_all(
    input: &mut impl Read,
    q: Instrument,
    t: &mut [u8],
    line: &mut [u8],
    area: &mut [u8],
) -> usize
    requires { (length line.old ≡ line_bytes) × (length area.old ≡ area_bytes) }
    ensures { Came q t.old line.old 0 t.new line.new result × (length area.new ≡ area_bytes) }
{
    let mut held = 0;
    for _ in 0..u64::MAX {
        let Some(more) = read_some(input, q, t, line, held, area) else {
            return held;
        };
        held = more;
    }
    held
}

// Reads the input and writes the sheet at the start of out. Its length is given back.
fn book(input: &mut impl Read, q: Instrument, out: &mut [u8]) -> usize
    requires { 16384 ≤ length out.old }
    ensures { Printed q out.old result out.new }
{
    let mut t = [0u8; 32768];
    let mut line = [0u8; 1025];
    let mut area = [0u8; 262144];
    open_rehearsal(q, &mut t);
    let held = read_all(input, q, &mut t, &mut line, &mut area);
    take_end(q, &mut t, &mut line, held, &mut area);
    write_sheet(q, &t, out)
}

// What the market trades, by the first argument.
fn asked(rt: &impl Env) -> Instrument {
    let mut first = [0u8; 16];
    match rt.arg(1, &mut first) {
        Ok(n) => traded_at(part_at(&first, 0, n)),
        Err(_) => Instrument::Bonds,
    }
}

// What the market trades that is asked for by this word: bonds, unless it is --equities.
fn traded_at(word: &[u8]) -> Instrument {
    match word {
        b"--equities" => Instrument::Equities,
        _ => Instrument::Bonds,
    }
}

// All that the program does.
pub fn print_book(rt: &(impl Env + Print), input: &mut impl Read) -> Result<()> {
    let mut out = [0u8; 16384];
    let n = book(input, asked(rt), &mut out);
    rt.write_all(&out[..n])
}
