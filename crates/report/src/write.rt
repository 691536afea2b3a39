// The bytes of a row of fields, and of a whole report. Each function answers the place behind what it wrote.
ghost use Rattle.std.specs.Prelude.{◌≡◌, ◌∷◌, [], ◌++◌, ◌+◌, ◌-◌, ◌≤◌, ◌<◌, length};
ghost use Rattle.octets.specs.Octets.{put, part_at};
ghost use Rattle.octets.specs.Written.{Room, Wrote};
ghost use Rattle.decimal.specs.Writing.{decimal, level_text, mean_text};
ghost use Rattle.report.specs.Fields.{field, is_absent, word_bytes, value_bytes, label, written, field_bytes, row_bytes};
ghost use Rattle.report.specs.Frame.{version, trailer, report_bytes};

use crate::values::word_length;
use crate::{Field, Value};
use decimal::Instrument;
use decimal::write::{put_byte, put_decimal, put_level, put_mean, put_places};
use fix::frame::checksum;
use octets::part::{copy_into, part_at};

// A word.
fn put_word(out: &mut [u8], at: usize, w: u8, x: u8, y: u8, z: u8) -> usize
    requires { Room out.old at (word_bytes w x y z) }
    ensures { Wrote out.old at (word_bytes w x y z) result out.new }
{
    let word = [w, x, y, z];
    let n = word_length(z);
    copy_into(out, at, &word[..n])
}

// The bytes of a value.
pub fn put_value(out: &mut [u8], at: usize, value: Value, sent: &[u8], stored: &[u8]) -> usize
    requires { Room out.old at (value_bytes sent.now stored.now value) }
    ensures { Wrote out.old at (value_bytes sent.now stored.now value) result out.new }
{
    match value {
        Value::Absent => at,
        Value::Number(n) => put_decimal(out, at, n),
        Value::Char(c) => put_byte(out, at, c),
        Value::Word { w, x, y, z } => put_word(out, at, w, x, y, z),
        Value::Sent { from, len } => copy_into(out, at, part_at(sent, from, len)),
        Value::Stored { from, len } => copy_into(out, at, part_at(stored, from, len)),
        Value::Level { of, level } => put_level(out, at, of, level),
        Value::Mean { of, mean } => put_mean(out, at, of, mean),
    }
}

// A tag and `=`.
#[tactic(auto, using(octets::proofs::Runs::room_first, octets::proofs::Runs::room_then, octets::proofs::Runs::then, octets::proofs::Runs::wrote_length), unfolding(crate::specs::Fields::label))]
pub fn put_label(out: &mut [u8], at: usize, tag: u64) -> usize
    requires { Room out.old at (label tag) }
    ensures { Wrote out.old at (label tag) result out.new }
{
    let a = put_decimal(out, at, tag);
    put_byte(out, a, b'=')
}

// A field with one character. This and the next three are not one function with a closure for the value: what the closure writes would have
// to be said of it in a clause, which is no shorter than the three lines.
#[tactic(auto, using(octets::proofs::Runs::room_first, octets::proofs::Runs::room_then, octets::proofs::Runs::then, octets::proofs::Runs::wrote_length), unfolding(crate::specs::Fields::written))]
pub fn put_char(out: &mut [u8], at: usize, tag: u64, c: u8) -> usize
    requires { Room out.old at (written tag (c ∷ [])) }
    ensures { Wrote out.old at (written tag (c ∷ [])) result out.new }
{
    let a = put_label(out, at, tag);
    let b = put_byte(out, a, c);
    put_byte(out, b, 1)
}

// A field with a number.
#[tactic(auto, using(octets::proofs::Runs::room_first, octets::proofs::Runs::room_then, octets::proofs::Runs::then, octets::proofs::Runs::wrote_length), unfolding(crate::specs::Fields::written))]
pub fn put_number(out: &mut [u8], at: usize, tag: u64, n: u64) -> usize
    requires { Room out.old at (written tag (decimal n)) }
    ensures { Wrote out.old at (written tag (decimal n)) result out.new }
{
    let a = put_label(out, at, tag);
    let b = put_decimal(out, a, n);
    put_byte(out, b, 1)
}

// A field with a yield or a price.
#[tactic(auto, using(octets::proofs::Runs::room_first, octets::proofs::Runs::room_then, octets::proofs::Runs::then, octets::proofs::Runs::wrote_length), unfolding(crate::specs::Fields::written))]
pub fn put_price(out: &mut [u8], at: usize, tag: u64, q: Instrument, level: u64) -> usize
    requires { Room out.old at (written tag (level_text q level)) }
    ensures { Wrote out.old at (written tag (level_text q level)) result out.new }
{
    let a = put_label(out, at, tag);
    let b = put_level(out, a, q, level);
    put_byte(out, b, 1)
}

// A field with an average of them.
#[tactic(auto, using(octets::proofs::Runs::room_first, octets::proofs::Runs::room_then, octets::proofs::Runs::then, octets::proofs::Runs::wrote_length), unfolding(crate::specs::Fields::written))]
pub fn put_average(out: &mut [u8], at: usize, tag: u64, q: Instrument, mean: u64) -> usize
    requires { Room out.old at (written tag (mean_text q mean)) }
    ensures { Wrote out.old at (written tag (mean_text q mean)) result out.new }
{
    let a = put_label(out, at, tag);
    let b = put_mean(out, a, q, mean);
    put_byte(out, b, 1)
}

// Whether a field is not written.
pub fn is_absent(value: Value) -> bool
    ensures { result ≡ is_absent value }
{
    matches!(value, Value::Absent)
}

// A field with this tag and this value, or nothing where it is absent.
pub fn put_as(
    out: &mut [u8],
    at: usize,
    tag: u64,
    value: Value,
    sent: &[u8],
    stored: &[u8],
) -> usize
    requires { Room out.old at (field_bytes sent.now stored.now (field tag value)) }
    ensures { Wrote out.old at (field_bytes sent.now stored.now (field tag value)) result out.new }
{
    if is_absent(value) {
        return at;
    }
    let a = put_label(out, at, tag);
    let b = put_value(out, a, value, sent, stored);
    put_byte(out, b, 1)
}

// A field.
pub fn put_field(out: &mut [u8], at: usize, field: Field, sent: &[u8], stored: &[u8]) -> usize
    requires { Room out.old at (field_bytes sent.now stored.now field) }
    ensures { Wrote out.old at (field_bytes sent.now stored.now field) result out.new }
{
    let tag = field.tag;
    let value = field.value;
    put_as(out, at, tag, value, sent, stored)
}

// All fields of a row.
pub fn put_row(out: &mut [u8], at: usize, row: [Field; 36], sent: &[u8], stored: &[u8]) -> usize
    requires { Room out.old at (row_bytes sent.now stored.now row) }
    ensures { Wrote out.old at (row_bytes sent.now stored.now row) result out.new }
{
    let mut o = at;
    for i in 0..36 {
        let field = row[i];
        o = put_field(out, o, field, sent, stored);
    }
    o
}

// 8 and 9, of a body of n bytes.
fn put_front(out: &mut [u8], n: u64) -> usize
    requires { Room out.old 0 (written 8 version ++ written 9 (decimal n)) }
    ensures { Wrote out.old 0 (written 8 version ++ written 9 (decimal n)) result out.new }
{
    let first = [56u8, 61, 70, 73, 88, 46, 52, 46, 50, 1];
    let a = copy_into(out, 0, &first);
    put_number(out, a, 9, n)
}

// Moves n bytes from place 16 on to a place before it, or leaves them where they are.
fn move_to(out: &mut [u8], at: usize, n: usize)
    requires { (at ≤ 16) × (16 + n ≤ length out.old) }
    ensures { out.new ≡ put out.old at (part_at out.old 16 n) }
{
    if at == 16 {
        return;
    }
    for i in 0..n {
        out[at + i] = out[16 + i];
    }
}

// 10, as three digits.
#[tactic(auto, using(octets::proofs::Runs::room_first, octets::proofs::Runs::room_then, octets::proofs::Runs::then, octets::proofs::Runs::wrote_length), unfolding(crate::specs::Fields::written, crate::specs::Frame::trailer))]
pub fn put_trailer(out: &mut [u8], at: usize, sum: u8) -> usize
    requires { Room out.old at (trailer sum) }
    ensures { Wrote out.old at (trailer sum) result out.new }
{
    let a = put_label(out, at, 10);
    let b = put_places(out, a, 3, sum as u64);
    put_byte(out, b, 1)
}

// 8, 9 and 10 around the body that stands from place 16 up to its end: place 16 is right behind 9 where the body has a hundred bytes
// or more.
pub fn close(out: &mut [u8], end: usize) -> usize
    requires { (16 ≤ end) × (end ≤ 505) × (512 ≤ length out.old) }
    ensures { Wrote out.old 0 (report_bytes (part_at out.old 16 (end - 16))) result out.new }
{
    let n = end - 16;
    let at = put_front(out, n as u64);
    move_to(out, at, n);
    let next = at + n;
    let sum = checksum(&out[..next]);
    put_trailer(out, next, sum)
}

// A whole report from its row, at the start of what is lent.
pub fn write_report(out: &mut [u8], row: [Field; 36], sent: &[u8], stored: &[u8]) -> usize
    requires row_len_bound { length (row_bytes sent.now stored.now row) ≤ 489 }
    requires in_bounds { 512 ≤ length out.old }
    ensures { Wrote out.old 0 (report_bytes (row_bytes sent.now stored.now row)) result out.new }
{
    let end = put_row(out, 16, row, sent, stored);
    close(out, end)
}
