// The lines of the input, taken one after another. The input comes in parts that end anywhere, so the start of a line that is not
// ended is held in a buffer; of a line longer than a message only so much is held that it is seen to be.
ghost use Rattle.std.specs.Prelude.{◌≡◌, ◌∷◌, [], length, take};
ghost use Rattle.book.specs.Book.{area_bytes, byte_for, message_of, line_taken};
ghost use Rattle.book.specs.Reading.{read_on, Held, Onward};

use decimal::Instrument;
use market::{run, submit};

// The byte that a character of a line stands for.
fn byte_for(c: u8) -> u8
    ensures { result ≡ byte_for c }
{
    if c == b'|' {
        return 1;
    }
    c
}

// Puts SOH for each `|`.
fn as_message(line: &mut [u8])
    ensures { line.new ≡ message_of line.old }
{
    for c in line.iter_mut() {
        *c = byte_for(*c);
    }
}

// A line is taken: its message is submitted, and what it put in work is run to its end. What they answer is let go: the sheet shows what the market became.
fn take_line(q: Instrument, t: &mut [u8], line: &mut [u8], area: &mut [u8])
    requires { length area.old ≡ area_bytes }
    ensures { (t.new ≡ line_taken q t.old line.old) × (length area.new ≡ area_bytes) }
{
    as_message(line);
    let _ = submit(q, t, line, area);
    let _ = run(q, t, area, 256);
}

// One byte more: it ends the line, or is a byte of it. How many bytes of the line are held is given back.
fn take_byte(
    q: Instrument,
    t: &mut [u8],
    line: &mut [u8],
    held: usize,
    area: &mut [u8],
    c: u8,
) -> usize
    requires { Held line.old held × (length area.old ≡ area_bytes) }
    ensures { Onward q t.old line.old held (c ∷ []) t.new line.new result × (length area.new ≡ area_bytes) }
{
    if c == b'\n' {
        take_line(q, t, &mut line[..held], area);
        return 0;
    }
    if held == 1025 {
        return held;
    }
    line[held] = c;
    held + 1
}

// The bytes of a part of the input, one after another.
pub fn take_bytes(
    q: Instrument,
    t: &mut [u8],
    line: &mut [u8],
    held: usize,
    area: &mut [u8],
    part: &[u8],
) -> usize
    requires { Held line.old held × (length area.old ≡ area_bytes) }
    ensures { Onward q t.old line.old held part.now t.new line.new result × (length area.new ≡ area_bytes) }
{
    let mut n = held;
    for c in part {
        n = take_byte(q, t, line, n, area, *c);
    }
    n
}

// The input ends: a line that is not ended is taken.
pub fn take_end(q: Instrument, t: &mut [u8], line: &mut [u8], held: usize, area: &mut [u8])
    requires { Held line.old held × (length area.old ≡ area_bytes) }
    ensures { t.new ≡ read_on q t.old (take held line.old) [] }
{
    if 0 < held {
        take_line(q, t, &mut line[..held], area);
    }
}
