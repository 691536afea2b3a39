// Whether a message is garbled, and where the parts of one that is not stand.
ghost use Rattle.std.specs.Prelude.{◌≡◌, ℕ, ◌+◌, ◌-◌, ◌*◌, ◌%◌, ◌^◌, ◌<◌, ◌≤◌, [], ◌∷◌, length};
ghost use Rattle.octets.specs.Octets.{part_at};
ghost use Rattle.decimal.specs.Reading.{num_of, is_time};
ghost use Rattle.fix.specs.Fields.{fields_of, fields_from, value_of};
ghost use Rattle.fix.specs.Garbled.{headed_by, header, said_of, check_sum, frame_of, garbled_message};
ghost use Rattle.fix.specs.Steps.{row_fields, Rowed, part_row, Headed, OpeningSays, right_of, sums_of, Lined, Laid, Framed};

use crate::pass::walk;
use decimal::read::{is_time, read_number};
use octets::part::{part_at, same};

// A part of a message.
#[derive(Clone, Copy)]
pub struct Part {
    pub start: usize,
    pub len: usize,
}

// The parts of a message that is not garbled: 35, 34 as a number, 49, 52, 56, and the fields between 56 and 10.
#[derive(Clone, Copy)]
pub struct Head {
    pub kind: Part,
    pub number: u64,
    pub sender: Part,
    pub time: Part,
    pub target: Part,
    pub body: Part,
}

// What 9 says, and the place behind it.
#[derive(Clone, Copy)]
pub struct Opening {
    pub count: u64,
    pub next: usize,
}

// Where the values of 35, 34, 49, 52 and 56 stand.
#[derive(Clone, Copy)]
pub struct Places {
    pub kind: Part,
    pub number: Part,
    pub sender: Part,
    pub time: Part,
    pub target: Part,
}

// The sum of the bytes in one byte that wraps. There is no way out of the loop but its end, so that the compiler takes 32 bytes a turn.
pub fn checksum(s: &[u8]) -> u8
    ensures { result ≡ check_sum s.now }
{
    let mut sum: u8 = 0;
    let mut i = 0;
    // An index, since a `for` over 512 bytes executes 167 instructions, and this 151.
    while i < s.len() {
        sum = std::num::wrapping_add_u8(sum, s[i]);
        i += 1;
    }
    sum
}

// Where the value of the field with the number j stands, by the row.
fn place(row: &[u16; 1023], j: usize) -> Part
    requires { j < 341 }
    ensures { (result ≡ part_row row.now j) × (result.start < 65536) × (result.len < 65536) }
{
    Part {
        start: usize::from(row[j * 3 + 1]),
        len: usize::from(row[j * 3 + 2]),
    }
}

// Whether the first fields of the row are those of the header.
fn heads(row: &[u16; 1023]) -> bool
    ensures { result ≡ headed_by header (row_fields row.now 0 7) }
{
    (row[0] == 8)
        & ((row[3] == 9)
            & ((row[6] == 35)
                & ((row[9] == 34) & ((row[12] == 49) & ((row[15] == 52) & (row[18] == 56))))))
}

// Reads 8 and 9, where they stand; nothing where one of them is wrong.
fn opens(s: &[u8], row: &[u16; 1023]) -> Option<Opening>
    requires { Headed s.now row.now }
    ensures { OpeningSays s.now result }
{
    let e = place(row, 0);
    if !same(part_at(s, e.start, e.len), b"FIX.4.2") {
        return None;
    }
    let n = place(row, 1);
    let count = read_number(part_at(s, n.start, n.len), 4)?;
    Some(Opening {
        count,
        next: n.start + n.len + 1,
    })
}

// The number that is said, and 0 where none is: no Option, since docs/landings/T-04.md promises a number under this name.
pub fn said(x: Option<u64>) -> u64
    ensures { result ≡ said_of x }
{
    x.unwrap_or(0)
}

// Whether the values of the header are what they may be, where 34 says n.
fn right(s: &[u8], p: Places, n: u64) -> bool
    ensures { result ≡ right_of s.now p n }
{
    let kind = part_at(s, p.kind.start, p.kind.len);
    let sender = part_at(s, p.sender.start, p.sender.len);
    let time = part_at(s, p.time.start, p.time.len);
    let target = part_at(s, p.target.start, p.target.len);
    (1 <= kind.len())
        & (kind.len() <= 2)
        & (0 < n)
        & (1 <= sender.len())
        & is_time(time)
        & (1 <= target.len())
}

// Whether 10, at p, says the sum in three digits.
fn sums(s: &[u8], sum: u8, p: Part) -> bool
    ensures { result ≡ sums_of s.now sum p }
{
    let v = part_at(s, p.start, p.len);
    (v.len() == 3) & (read_number(v, 3) == Some(u64::from(sum)))
}

// The parts of a message whose fields are in order, where 9 says count for the bytes from place a on, the header ends at b, the
// value of 10 is at p, and field 10 at place t, behind bytes with the sum; none where it is garbled.
fn settled(
    s: &[u8],
    count: u64,
    a: usize,
    h: Places,
    b: usize,
    p: Part,
    t: usize,
    sum: u8,
) -> Option<Head>
    requires { Laid s.now count a h b p t sum }
    ensures { result ≡ frame_of s.now }
{
    if t.saturating_sub(a) as u64 != count {
        return None;
    }
    if !sums(s, sum, p) {
        return None;
    }
    let number = said(read_number(part_at(s, h.number.start, h.number.len), 9));
    if !right(s, h, number) {
        return None;
    }
    let kind = h.kind;
    let sender = h.sender;
    let time = h.time;
    let target = h.target;
    let body = Part {
        start: b,
        len: t.saturating_sub(b),
    };
    Some(Head {
        kind,
        number,
        sender,
        time,
        target,
        body,
    })
}

// The parts of a message whose fields are in order, by the row, where 10 has the number m and starts at place t, behind bytes
// with the sum; none where it is garbled.
fn lined(s: &[u8], row: &[u16; 1023], m: usize, t: usize, sum: u8) -> Option<Head>
    requires { Lined s.now row.now m t sum }
    ensures { result ≡ frame_of s.now }
{
    let o = opens(s, row)?;
    let target = place(row, 6);
    let b = target.start + target.len + 1;
    let h = Places {
        kind: place(row, 2),
        number: place(row, 3),
        sender: place(row, 4),
        time: place(row, 5),
        target,
    };
    settled(s, o.count, o.next, h, b, place(row, m), t, sum)
}

// The parts of a message whose fields the row holds; none where it is garbled. The header comes first, and 10 last, from place `from` on, behind
// bytes with the sum.
fn ordered(s: &[u8], row: &[u16; 1023], count: usize, from: usize, sum: u8) -> Option<Head>
    requires { (length s.now ≤ 1024) × Rowed s.now row.now count from sum }
    ensures { result ≡ frame_of s.now }
{
    if count < 8 {
        return None;
    }
    if !heads(row) {
        return None;
    }
    let m = count - 1;
    if row[m * 3] != 10 {
        return None;
    }
    lined(s, row, m, from, sum)
}

// The parts of a message; none where it is garbled. The row takes the places of its fields.
pub fn framed_in(s: &[u8], row: &mut [u16; 1023]) -> Option<Head>
    requires { length row.old ≡ 1023 }
    ensures { Framed s.now row.new result }
{
    let n = s.len();
    if n == 0 {
        return None;
    }
    if 1024 < n {
        return None;
    }
    if s[n - 1] != 1 {
        return None;
    }
    let w = walk(s, row)?;
    ordered(s, row, w.count, w.from, w.sum)
}

// The parts of a message; none where it is garbled.
pub fn framed(s: &[u8]) -> Option<Head>
    ensures { result ≡ frame_of s.now }
{
    let mut row: [u16; 1023] = [0; 1023];
    framed_in(s, &mut row)
}

// Whether a message is garbled.
pub fn garbled(s: &[u8]) -> bool
    ensures { result ≡ garbled_message s.now }
{
    framed(s).is_none()
}
