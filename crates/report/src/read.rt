// Reads a report: its kind and fields, or that it is none.
ghost use Rattle.std.specs.Prelude.{◌≡◌, ◌≤◌, length};
ghost use Rattle.report.specs.Parse.{field_at};
ghost use Rattle.report.specs.Slots.{slots_of};
ghost use Rattle.report.specs.Reports.{length_in, length_slot, body_at, trailer_at, read_framed, execution_for, first_of, kind_of, one_reason, agreed, refused, reading_of, read_of, part_of};

use crate::parse::{label_at, place_of, read_row, value_end};
use crate::slots::slots_of;
use crate::write::{is_absent, put_trailer};
use crate::{Field, Got, Kind, Reading, Row, Slot, Value};
use decimal::Instrument;
use decimal::canonical::read_within;
use decimal::read::byte_at;
use decimal::write::digits;
use fix::frame::{Part, checksum};
use octets::{part_at, same};

// Where the body stands, as 9 says, if it ends within the n bytes.
#[tactic(auto, using(crate::proofs::Frames::length_past, crate::proofs::Frames::length_more, crate::proofs::Frames::length_yes))]
fn length_in(got: Got, n: usize) -> Option<Part>
    ensures { result ≡ length_in got n }
{
    let start = got.next;
    let Value::Number(len) = got.value else {
        return None;
    };
    if (start > n) || (len > (n - start) as u64) {
        return None;
    }
    Some(Part {
        start,
        len: len as usize,
    })
}

// 9, which stands behind the ten bytes of 8.
fn length_at(s: &[u8]) -> Option<Got>
    requires { 10 ≤ length s.now }
    ensures { result ≡ field_at s.now 10 length_slot }
{
    if label_at(s, 10, 9, 1) {
        let e = value_end(s, 12);
        if e < s.len() {
            let from = 12;
            let n = read_within(&s[from..e], 9, 1, 999)?;
            return Some(Got {
                value: Value::Number(n),
                next: e + 1,
            });
        }
    }
    None
}

// 8 and 9: where the body stands.
pub fn body_at(s: &[u8]) -> Option<Part>
    ensures { result ≡ body_at s.now }
{
    let version = [56u8, 61, 70, 73, 88, 46, 52, 46, 50, 1];
    if same(part_at(s, 0, 10), &version) {
        let got = length_at(s)?;
        return length_in(got, s.len());
    }
    None
}

// 10: whether the bytes from a place on are the trailer of those before it.
pub fn trailer_at(s: &[u8], end: usize) -> bool
    requires { end ≤ length s.now }
    ensures { result ≡ trailer_at s.now end }
{
    let mut t = [0u8; 8];
    let n = put_trailer(&mut t, 0, checksum(&s[..end]));
    same(&s[end..], &t[..n])
}

// The first character of a tag's value, and 0 where there is none.
fn first_of(s: &[u8], tag: u64) -> u8
    ensures { result ≡ first_of s.now tag }
{
    let p = place_of(s, tag);
    if p >= s.len() {
        return 0;
    }
    let k = digits(tag);
    byte_at(s, p + k + 1)
}

// The execution report that 150 says.
#[tactic(auto, unfolding(crate::specs::Reports::execution_for))]
fn execution_for(b: u8) -> Kind
    ensures { result ≡ execution_for b }
{
    match b {
        b'0' => Kind::Accepted,
        b'5' => Kind::Replaced,
        b'4' => Kind::Canceled,
        b'1' | b'2' => Kind::Trade,
        b'8' => Kind::Rejected,
        _ => Kind::Refused,
    }
}

// The kind that a report can be, by 35 and 150.
#[tactic(auto, using(crate::proofs::Readings::kind_session, crate::proofs::Readings::kind_cancel, crate::proofs::Readings::kind_execution, crate::proofs::Readings::kind_none))]
pub fn kind_of(s: &[u8]) -> Kind
    ensures { result ≡ kind_of s.now }
{
    let a = first_of(s, 35);
    if a == b'3' {
        return Kind::SessionReject;
    }
    if a == b'9' {
        return Kind::CancelReject;
    }
    if a == b'8' {
        return execution_for(first_of(s, 150));
    }
    Kind::Refused
}

// Whether exactly one of 41 and 378 of a Canceled is there.
#[tactic(auto, unfolding(crate::specs::Reports::one_reason))]
fn one_reason(fields: [Field; 36]) -> bool
    ensures { result ≡ one_reason fields }
{
    let f = fields[16];
    let g = fields[27];
    let orig = f.value;
    let restated = g.value;
    is_absent(orig) != is_absent(restated)
}

// Whether the fields are those of one way of writing the kind.
fn agrees(kind: Kind, fields: [Field; 36]) -> bool
    ensures { result ≡ agreed kind fields }
{
    match kind {
        Kind::Canceled => one_reason(fields),
        Kind::Refused => false,
        Kind::Accepted
        | Kind::Replaced
        | Kind::Trade
        | Kind::Rejected
        | Kind::CancelReject
        | Kind::SessionReject => true,
    }
}

// What is no report.
fn nothing() -> Reading
    ensures { result ≡ refused }
{
    Reading {
        kind: Kind::Refused,
        fields: [Field {
            tag: 0,
            value: Value::Absent,
        }; 36],
    }
}

// A report of this kind, whose body has the slots, or none.
pub fn read_as(s: &[u8], kind: Kind, slots: [Slot; 36]) -> Reading
    ensures { result ≡ reading_of kind (read_framed s.now slots) }
{
    let Some(body) = body_at(s) else {
        return nothing();
    };
    let end = body.start + body.len;
    if !trailer_at(s, end) {
        return nothing();
    }
    let Some(row) = read_row(s, body.start, slots) else {
        return nothing();
    };
    let fields = row.fields;
    if (row.next == end) & agrees(kind, fields) {
        return Reading { kind, fields };
    }
    nothing()
}

// The kind and fields of a report of a market; what is none is refused, which is the paper's refusal 11.
pub fn read(q: Instrument, s: &[u8]) -> Reading
    ensures { result ≡ read_of q s.now }
{
    let kind = kind_of(s);
    read_as(s, kind, slots_of(q, kind))
}

// Where the value of the first field with a tag stands.
#[tactic(auto, using(crate::proofs::Readings::part_none, crate::proofs::Readings::part_some, crate::proofs::Readings::label_fits, crate::proofs::Readings::value_fits))]
pub fn field(s: &[u8], tag: u64) -> Option<Part>
    ensures { result ≡ part_of s.now tag }
{
    let p = place_of(s, tag);
    if p >= s.len() {
        return None;
    }
    let k = digits(tag);
    let start = p + k + 1;
    let end = value_end(s, start);
    Some(Part {
        start,
        len: end - start,
    })
}
