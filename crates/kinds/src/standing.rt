// Whether the fields of a report stand one behind another as the slots of its kind say. Each function answers the place behind its
// fields; a place is 0 where they do not stand so, and behind 0 nothing stands. Not an Option: with one, a Trade takes 4,350 instructions and
// not 3,710.
ghost use Rattle.std.specs.Prelude.{◌≡◌, cond, ◌∷◌, [], ◌<◌, ◌+◌, ◌^◌, ℕ, List, Option, length};
ghost use Rattle.std.specs.Borrow.{Bor};
ghost use Rattle.report.specs.declared.Value.{Value};
ghost use Rattle.report.specs.declared.Shape.{Shape};
ghost use Rattle.report.specs.declared.Shape.TheVariants as shape;
ghost use Rattle.report.specs.Fields.{group_of};
ghost use Rattle.report.specs.Shapes.{value_in};
ghost use Rattle.report.specs.Parse.{got_of};
ghost use Rattle.report.specs.Slots.{always, exact, sides, symbols, unused as unused_slot, own_slot, last_slot, other_slot, count_slot, accepted_slots, replaced_slots, canceled_slots, trade_slots, rejected_slots, cancel_reject_slots, session_reject_slots, slots_of};
ghost use Rattle.kinds.specs.Standing.{value_from, next_of, after, after_all, slot, front_slots, first_slots, order_slots, traded_slots, term_slots, state_slots, closing_slots, changed_slots, refusal_slots};

use decimal::Instrument;
use decimal::canonical::{read_bare, read_level, read_mean, read_within};
use decimal::read::read_number;
use decimal::write::digits;
use report::parse::{label_at, value_end};
use report::values::{
    pick_average, pick_listed, pick_number, pick_one, pick_order_id, pick_place, pick_quote,
    pick_text, pick_time, pick_word,
};
use report::{Kind, Value};

// The place behind a tag and `=`.
fn behind(s: &[u8], at: usize, tag: u64) -> usize
    ensures { result ≡ value_from s.now at tag }
{
    if at == 0 {
        return 0;
    }
    if at > s.len() {
        return 0;
    }
    let k = digits(tag);
    if label_at(s, at, tag, k) {
        return at + k + 1;
    }
    0
}

// The place behind a field that is missing.
fn passed(at: usize, optional: bool) -> usize
    ensures { result ≡ cond optional at 0 }
{
    if optional {
        return at;
    }
    0
}

// The place behind a value that ends at e.
fn past_value(p: Option<Value>, e: usize) -> usize
    requires { e + 1 < 2 ^ 64 }
    ensures { result ≡ next_of (got_of p (e + 1)) }
{
    match p {
        Some(_) => e + 1,
        None => 0,
    }
}

// The place behind the field that stands at a place, or the place itself where the field is missing and may be. The value is read by
// `pick`, which is given its bytes and where they begin.
fn field<F: FnOnce(&[u8], usize) -> Option<Value>>(
    s: &[u8],
    at: usize,
    tag: u64,
    optional: bool,
    pick: F,
) -> usize
    requires { F.IsAlwaysCallable pick }
    ensures { (x : Shape)
        → ((v : Bor (List ℕ)) (from : ℕ) (r : Option Value) → F.post pick v from r → r ≡ value_in x from v.now)
        → result ≡ after s.now at (slot tag optional x) }
{
    let v = behind(s, at, tag);
    if v == 0 {
        return passed(at, optional);
    }
    let e = value_end(s, v);
    if e >= s.len() {
        return 0;
    }
    past_value(pick(&s[v..e], v), e)
}

// A number in a range.
fn number(s: &[u8], at: usize, tag: u64, optional: bool, least: u64, most: u64) -> usize
    ensures { result ≡ after s.now at (slot tag optional (shape.Range least most)) }
{
    field(s, at, tag, optional, |v, _| {
        pick_number(read_within(v, 9, least, most))
    })
}

// One of five characters.
fn one(s: &[u8], at: usize, tag: u64, optional: bool, a: u8, b: u8, c: u8, d: u8, x: u8) -> usize
    ensures { result ≡ after s.now at (slot tag optional (shape.OneOf a b c d x)) }
{
    field(s, at, tag, optional, |v, _| pick_one(v, a, b, c, d, x))
}

// One of eight numbers.
fn listed(
    s: &[u8],
    at: usize,
    tag: u64,
    optional: bool,
    a: u8,
    b: u8,
    c: u8,
    d: u8,
    w: u8,
    x: u8,
    y: u8,
    z: u8,
) -> usize
    ensures { result ≡ after s.now at (slot tag optional (shape.Listed a b c d w x y z)) }
{
    field(s, at, tag, optional, |v, _| {
        pick_listed(read_bare(v, 9), a, b, c, d, w, x, y, z)
    })
}

// A text of at most so many characters from one on.
fn text(s: &[u8], at: usize, tag: u64, optional: bool, most: usize, low: u8) -> usize
    ensures { result ≡ after s.now at (slot tag optional (shape.Text most low)) }
{
    field(
        s,
        at,
        tag,
        optional,
        |v, from| pick_text(v, from, most, low),
    )
}

// A word.
fn word(s: &[u8], at: usize, tag: u64, optional: bool, w: u8, x: u8, y: u8, z: u8) -> usize
    ensures { result ≡ after s.now at (slot tag optional (shape.Exact w x y z)) }
{
    field(s, at, tag, optional, |v, _| pick_word(v, w, x, y, z))
}

// A time.
fn time(s: &[u8], at: usize, tag: u64, optional: bool) -> usize
    ensures { result ≡ after s.now at (slot tag optional shape.Time) }
{
    field(s, at, tag, optional, |v, from| pick_time(v, from))
}

// 1 to 9 digits.
fn code(s: &[u8], at: usize, tag: u64, optional: bool) -> usize
    ensures { result ≡ after s.now at (slot tag optional shape.Digits) }
{
    field(s, at, tag, optional, |v, from| {
        pick_place(read_number(v, 9), from, v.len())
    })
}

// A yield or a price.
fn level(q: Instrument, s: &[u8], at: usize, tag: u64, optional: bool) -> usize
    ensures { result ≡ after s.now at (slot tag optional (shape.Level q)) }
{
    field(s, at, tag, optional, |v, _| pick_quote(q, read_level(q, v)))
}

// AvgPx.
fn average(q: Instrument, s: &[u8], at: usize, tag: u64, optional: bool) -> usize
    ensures { result ≡ after s.now at (slot tag optional (shape.Average q)) }
{
    field(
        s,
        at,
        tag,
        optional,
        |v, _| pick_average(q, read_mean(q, v)),
    )
}

// An OrderID, or NONE.
fn order_id(s: &[u8], at: usize, tag: u64, optional: bool) -> usize
    ensures { result ≡ after s.now at (slot tag optional shape.OrderId) }
{
    field(s, at, tag, optional, |v, _| pick_order_id(v))
}

// No field.
fn unused(s: &[u8], at: usize) -> usize
    ensures { result ≡ after s.now at unused_slot }
{
    field(s, at, 0, true, |_, _| None)
}

// 50.
fn group(q: Instrument, s: &[u8], at: usize) -> usize
    ensures { result ≡ after s.now at (always 50 (exact (group_of q))) }
{
    match q {
        Instrument::Bonds => word(s, at, 50, false, 68, 74, 71, 66),
        Instrument::Equities => word(s, at, 50, false, 68, 65, 89, 0),
    }
}

// 54.
fn side(q: Instrument, s: &[u8], at: usize) -> usize
    ensures { result ≡ after s.now at (always 54 (sides q)) }
{
    match q {
        Instrument::Bonds => one(s, at, 54, false, 49, 50, 50, 50, 50),
        Instrument::Equities => one(s, at, 54, false, 49, 50, 53, 54, 54),
    }
}

// 55.
fn symbol(q: Instrument, s: &[u8], at: usize) -> usize
    ensures { result ≡ after s.now at (always 55 (symbols q)) }
{
    match q {
        Instrument::Bonds => code(s, at, 55, false),
        Instrument::Equities => text(s, at, 55, false, 9, 32),
    }
}

// 423 or 544.
fn own(q: Instrument, s: &[u8], at: usize) -> usize
    ensures { result ≡ after s.now at (own_slot q) }
{
    match q {
        Instrument::Bonds => listed(s, at, 423, false, 9, 9, 9, 9, 9, 9, 9, 9),
        Instrument::Equities => one(s, at, 544, false, 49, 50, 51, 51, 51),
    }
}

// 8214, or no field.
fn last(q: Instrument, s: &[u8], at: usize) -> usize
    ensures { result ≡ after s.now at (last_slot q) }
{
    match q {
        Instrument::Bonds => unused(s, at),
        Instrument::Equities => one(s, at, 8214, true, 49, 50, 50, 50, 50),
    }
}

// 375, or no field.
fn other(q: Instrument, s: &[u8], at: usize) -> usize
    ensures { result ≡ after s.now at (other_slot q) }
{
    match q {
        Instrument::Bonds => number(s, at, 375, false, 0, 999999),
        Instrument::Equities => unused(s, at),
    }
}

// 382, or no field.
fn count(q: Instrument, s: &[u8], at: usize) -> usize
    ensures { result ≡ after s.now at (count_slot q) }
{
    match q {
        Instrument::Bonds => listed(s, at, 382, false, 1, 1, 1, 1, 1, 1, 1, 1),
        Instrument::Equities => unused(s, at),
    }
}

// 35, being x, to 56.
fn front(q: Instrument, s: &[u8], at: usize, x: u8) -> usize
    ensures { result ≡ after_all s.now at (front_slots q x) }
{
    let a = one(s, at, 35, false, x, x, x, x, x);
    let b = number(s, a, 34, false, 1, 999999999);
    let c = text(s, b, 49, false, 8, 33);
    let d = group(q, s, c);
    let e = time(s, d, 52, false);
    text(s, e, 56, false, 8, 33)
}

// 1 to 20 of an execution report.
fn first(q: Instrument, s: &[u8], at: usize) -> usize
    ensures { result ≡ after_all s.now at (first_slots q) }
{
    let a = text(s, at, 1, true, 10, 32);
    let b = average(q, s, a, 6, false);
    let c = text(s, b, 11, false, 32, 32);
    let d = number(s, c, 14, false, 0, 999999999);
    let e = number(s, d, 17, false, 1, 999999999);
    one(s, e, 20, false, 48, 48, 48, 48, 48)
}

// 37 to 40, 39 being x or y.
fn order(s: &[u8], at: usize, x: u8, y: u8) -> usize
    ensures { result ≡ after_all s.now at (order_slots x y) }
{
    let a = number(s, at, 37, false, 1, 999999999);
    let b = number(s, a, 38, false, 0, 999999999);
    let c = one(s, b, 39, false, x, y, y, y, y);
    one(s, c, 40, false, 50, 50, 50, 50, 50)
}

// 31 to 44 of a Trade.
fn traded(q: Instrument, s: &[u8], at: usize) -> usize
    ensures { result ≡ after_all s.now at (traded_slots q) }
{
    let a = level(q, s, at, 31, false);
    let b = number(s, a, 32, false, 0, 999999999);
    let c = order(s, b, 49, 50);
    level(q, s, c, 44, false)
}

// 47 to 110.
fn terms(q: Instrument, s: &[u8], at: usize) -> usize
    ensures { result ≡ after_all s.now at (term_slots q) }
{
    let a = one(s, at, 47, false, 65, 80, 80, 80, 80);
    let b = side(q, s, a);
    let c = symbol(q, s, b);
    let d = one(s, c, 59, false, 48, 51, 52, 52, 52);
    let e = time(s, d, 60, false);
    let f = number(s, e, 109, true, 1, 999999);
    number(s, f, 110, true, 0, 999999999)
}

// 150, being x or y, and 151.
fn state(s: &[u8], at: usize, x: u8, y: u8) -> usize
    ensures { result ≡ after_all s.now at (state_slots x y) }
{
    let a = one(s, at, 150, false, x, y, y, y, y);
    number(s, a, 151, false, 0, 999999999)
}

// 8060 to the end.
fn closing(q: Instrument, s: &[u8], at: usize) -> usize
    ensures { result ≡ after_all s.now at (closing_slots q) }
{
    let a = one(s, at, 8060, false, 49, 51, 52, 53, 54);
    let b = last(q, s, a);
    unused(s, b)
}

// An order replaced or canceled: 39 is x or y, 41 may be missing or not, 150 is z, 378 is w or 100.
fn changed(q: Instrument, s: &[u8], at: usize, x: u8, y: u8, optional: bool, z: u8, w: u8) -> usize
    ensures { result ≡ after_all s.now at (changed_slots q x y optional z w) }
{
    let a = front(q, s, at, 56);
    let b = first(q, s, a);
    let c = order(s, b, x, y);
    let d = text(s, c, 41, optional, 32, 32);
    let e = level(q, s, d, 44, false);
    let f = terms(q, s, e);
    let g = state(s, f, z, z);
    let h = listed(s, g, 378, true, w, 100, 100, 100, 100, 100, 100, 100);
    let i = own(q, s, h);
    closing(q, s, i)
}

// 7.5.1, Order Accepted.
fn accepted(q: Instrument, s: &[u8], at: usize) -> usize
    ensures { result ≡ after_all s.now at (accepted_slots q) }
{
    let a = front(q, s, at, 56);
    let b = first(q, s, a);
    let c = order(s, b, 48, 48);
    let d = level(q, s, c, 44, false);
    let e = terms(q, s, d);
    let f = state(s, e, 48, 48);
    let g = own(q, s, f);
    closing(q, s, g)
}

// 7.5.4, Trade.
fn trade(q: Instrument, s: &[u8], at: usize) -> usize
    ensures { result ≡ after_all s.now at (trade_slots q) }
{
    let a = front(q, s, at, 56);
    let b = first(q, s, a);
    let c = traded(q, s, b);
    let d = terms(q, s, c);
    let e = state(s, d, 49, 50);
    let f = other(q, s, e);
    let g = count(q, s, f);
    let h = own(q, s, g);
    let i = listed(s, h, 851, false, 1, 2, 2, 2, 2, 2, 2, 2);
    let j = number(s, i, 880, false, 1, 999999999);
    closing(q, s, j)
}

// 6 to 39 of an order rejected.
fn refusal(q: Instrument, s: &[u8], at: usize) -> usize
    ensures { result ≡ after_all s.now at (refusal_slots q) }
{
    let a = average(q, s, at, 6, false);
    let b = text(s, a, 11, false, 32, 32);
    let c = listed(s, b, 14, false, 0, 0, 0, 0, 0, 0, 0, 0);
    let d = number(s, c, 17, false, 1, 999999999);
    let e = one(s, d, 20, false, 48, 48, 48, 48, 48);
    let f = word(s, e, 37, false, 78, 79, 78, 69);
    let g = number(s, f, 38, false, 0, 999999999);
    one(s, g, 39, false, 56, 56, 56, 56, 56)
}

// An order rejected, 103 saying why.
fn rejected(q: Instrument, s: &[u8], at: usize) -> usize
    ensures { result ≡ after_all s.now at (rejected_slots q) }
{
    let a = front(q, s, at, 56);
    let b = refusal(q, s, a);
    let c = side(q, s, b);
    let d = symbol(q, s, c);
    let e = listed(s, d, 103, false, 0, 1, 6, 99, 99, 99, 99, 99);
    let f = one(s, e, 150, false, 56, 56, 56, 56, 56);
    let g = listed(s, f, 151, false, 0, 0, 0, 0, 0, 0, 0, 0);
    unused(s, g)
}

// A cancel or replace rejected, 102 saying why and 434 what was asked.
fn cancel_reject(q: Instrument, s: &[u8], at: usize) -> usize
    ensures { result ≡ after_all s.now at (cancel_reject_slots q) }
{
    let a = front(q, s, at, 57);
    let b = text(s, a, 11, false, 32, 32);
    let c = order_id(s, b, 37, false);
    let d = one(s, c, 39, false, 48, 49, 50, 52, 56);
    let e = text(s, d, 41, false, 32, 32);
    let f = listed(s, e, 102, false, 0, 1, 2, 2, 2, 2, 2, 2);
    let g = listed(s, f, 434, false, 1, 2, 2, 2, 2, 2, 2, 2);
    unused(s, g)
}

// 7.4.5, a session Reject.
fn session_reject(q: Instrument, s: &[u8], at: usize) -> usize
    ensures { result ≡ after_all s.now at (session_reject_slots q) }
{
    let a = front(q, s, at, 51);
    let b = number(s, a, 45, false, 1, 999999999);
    let c = number(s, b, 371, false, 1, 9999);
    let d = text(s, c, 372, false, 2, 32);
    let e = listed(s, d, 373, false, 1, 2, 3, 4, 5, 6, 9, 11);
    unused(s, e)
}

// The slots of a kind.
pub fn row_end(q: Instrument, kind: Kind, s: &[u8], at: usize) -> usize
    ensures { result ≡ after_all s.now at (slots_of q kind) }
{
    match kind {
        Kind::Accepted => accepted(q, s, at),
        Kind::Replaced => changed(q, s, at, 49, 53, false, 53, 100),
        Kind::Canceled => changed(q, s, at, 52, 52, true, 52, 99),
        Kind::Trade => trade(q, s, at),
        Kind::Rejected => rejected(q, s, at),
        Kind::CancelReject => cancel_reject(q, s, at),
        Kind::SessionReject => session_reject(q, s, at),
        Kind::Refused => unused(s, at),
    }
}
