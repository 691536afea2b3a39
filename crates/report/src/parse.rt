// Fields of a report read one after another, as slots say.
ghost use Rattle.std.specs.Prelude.{◌≡◌, ◌+◌, ◌≤◌, ◌<◌, length, drop, true, cond};
ghost use Rattle.decimal.specs.Writing.{decimal};
ghost use Rattle.report.specs.Fields.{label};
ghost use Rattle.report.specs.Search.{Passes, Cleared};
ghost use Rattle.report.specs.Parse.{starts, len_to, value_at, field_at, row_of, read_row, hop, place_of};

use crate::values::pick_value;
use crate::{Field, Got, Row, Shape, Slot, Value};
use decimal::write::digits;

// Whether the tag of k digits and `=` stand at a place. Most tags have two.
pub fn label_at(s: &[u8], at: usize, tag: u64, k: usize) -> bool
    requires { (at ≤ length s.now) × (k ≡ length (decimal tag)) }
    ensures { result ≡ starts (label tag) (drop at s.now) }
{
    if s.len() - at <= k {
        return false;
    }
    if s[at + k] != b'=' {
        return false;
    }
    if k == 2 {
        return (s[at] == 48 + (tag / 10) as u8) & (s[at + 1] == 48 + (tag % 10) as u8);
    }
    let mut i = k;
    let mut m = tag;
    while i > 0 {
        i -= 1;
        if s[at + i] != 48 + (m % 10) as u8 {
            return false;
        }
        m = m / 10;
    }
    true
}

// Where the value that begins at a place ends: at the next SOH, or at the end.
pub fn value_end(s: &[u8], from: usize) -> usize
    requires { from ≤ length s.now }
    ensures { result ≡ from + len_to (drop from s.now) }
{
    for e in from..s.len() {
        if s[e] == 1 {
            return e;
        }
    }
    s.len()
}

// Where the value of the field at a place ends, if the tag of k digits stands there; the place itself if it does not.
#[tactic(auto, using(crate::proofs::Parses::label_fits, crate::proofs::Parses::value_fits, crate::proofs::Parses::end_there, crate::proofs::Parses::end_none))]
fn end_at(s: &[u8], at: usize, tag: u64, k: usize) -> usize
    requires { (at ≤ length s.now) × (k ≡ length (decimal tag)) }
    ensures { result ≡ cond (starts (label tag) (drop at s.now)) (at + k + 1 + len_to (drop (at + k + 1) s.now)) at }
{
    if label_at(s, at, tag, k) {
        return value_end(s, at + k + 1);
    }
    at
}

// The value from a place to its SOH, and the place behind that.
#[tactic(auto, using(crate::proofs::Parses::value_none, crate::proofs::Parses::value_yes, crate::proofs::Parses::value_no))]
fn value_at(s: &[u8], v: usize, e: usize, shape: Shape) -> Option<Got>
    requires { e ≡ v + len_to (drop v s.now) }
    ensures { result ≡ value_at s.now v shape }
{
    if e >= s.len() {
        return None;
    }
    let value = pick_value(&s[v..e], shape, v)?;
    Some(Got { value, next: e + 1 })
}

// The field that stands at a place, as its slot says: its tag has k digits, and its value ends at e if it stands there.
#[tactic(auto, using(crate::proofs::Parses::there_fits, crate::proofs::Parses::there_from, crate::proofs::Parses::there_ends, crate::proofs::Parses::there_yes, crate::proofs::Parses::there_skip, crate::proofs::Parses::there_wrong))]
fn field_at(s: &[u8], at: usize, k: usize, e: usize, slot: Slot) -> Option<Got>
    requires at_in_bounds { (at ≤ length s.now) × (k ≡ length (decimal slot.tag)) }
    requires e_value { e ≡ cond (starts (label slot.tag) (drop at s.now)) (at + k + 1 + len_to (drop (at + k + 1) s.now)) at }
    ensures { result ≡ field_at s.now at slot }
{
    let shape = slot.shape;
    let optional = slot.optional;
    if e > at {
        return value_at(s, at + k + 1, e, shape);
    }
    if !optional {
        return None;
    }
    Some(Got {
        value: Value::Absent,
        next: at,
    })
}

// The fields that stand from a place on, as the slots say. A shape is taken from its slot once the end of the value is known.
pub fn read_row(s: &[u8], at: usize, slots: [Slot; 36]) -> Option<Row>
    requires { at ≤ length s.now }
    ensures { result ≡ row_of (read_row s.now at slots) }
{
    let mut fields = [Field {
        tag: 0,
        value: Value::Absent,
    }; 36];
    let mut next = at;
    for i in 0..36 {
        let first = slots[i];
        let tag = first.tag;
        let k = digits(tag);
        let e = end_at(s, next, tag, k);
        let slot = slots[i];
        let got = field_at(s, next, k, e, slot)?;
        fields[i] = Field {
            tag,
            value: got.value,
        };
        next = got.next;
    }
    Some(Row { next, fields })
}

// The place behind the next SOH, or the end.
#[tactic(auto, using(crate::proofs::Walks::past_some, crate::proofs::Walks::past_none))]
fn past(s: &[u8], at: usize) -> usize
    requires { at ≤ length s.now }
    ensures { result ≡ at + hop (drop at s.now) }
{
    let e = value_end(s, at);
    if e < s.len() {
        return e + 1;
    }
    e
}

// Whether a field with a tag of k digits may begin behind the byte at place i: an SOH stands there, and where the label would end its last digit
// and `=`.
#[tactic(auto, using(crate::proofs::Walks::pass_one))]
fn may_begin(s: &[u8], i: usize, tag: u64, k: usize) -> bool
    requires { (i + k + 1 < length s.now) × (k ≡ length (decimal tag)) }
    ensures { Passes tag s.now i 1 result }
{
    (s[i] == 1) & (s[i + k] == 48 + (tag % 10) as u8) & (s[i + k + 1] == b'=')
}

// The same for the 32 bytes from a place on. All are looked at with no way out between them, so that the compiler takes sixteen at a time.
fn may_soon(s: &[u8], at: usize, tag: u64, k: usize) -> bool
    requires { (at + k + 32 < length s.now) × (k ≡ length (decimal tag)) }
    ensures { Passes tag s.now at 32 result }
{
    let mut any = false;
    for j in 0..32 {
        any = any | may_begin(s, at + j, tag, k);
    }
    any
}

// A place up to which no field with a tag of k digits begins, once the one at the first place does not. A `while`, since the place is what is
// answered.
fn clear(s: &[u8], at: usize, tag: u64, k: usize) -> usize
    requires { (at ≤ length s.now) × (k ≡ length (decimal tag)) }
    ensures { Cleared tag s.now at result }
{
    let mut to = at;
    while s.len() - to > k + 32 {
        if may_soon(s, to, tag, k) {
            return to;
        }
        to += 32;
    }
    to
}

// The place of the first field with a tag, or the end where there is none. A `while`, since the place goes on by as much as was passed.
pub fn place_of(s: &[u8], tag: u64) -> usize
    ensures { result ≡ place_of (label tag) true s.now }
{
    let k = digits(tag);
    let mut at = 0;
    while at < s.len() {
        if label_at(s, at, tag, k) {
            return at;
        }
        at = past(s, clear(s, at, tag, k));
    }
    at
}
