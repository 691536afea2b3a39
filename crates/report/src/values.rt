// The value of a field, read as its shape says. A text is given as its place in the report.
ghost use Rattle.std.specs.Prelude.{◌≡◌, cond, eqb, ◌≤◌, length};
ghost use Rattle.report.specs.Shapes.{one_in, number_in, listed_in, word_in, order_id_in, all_from, text_in, place_in, time_in, quote_in, average_in, value_in};

use crate::{Shape, Value};
use decimal::Instrument;
use decimal::canonical::{read_bare, read_level, read_mean, read_within};
use decimal::read::{is_time, read_number};
use octets::same;

// One of five characters.
#[tactic(auto, unfolding(crate::specs::Shapes::one_in))]
pub fn pick_one(v: &[u8], a: u8, b: u8, c: u8, d: u8, e: u8) -> Option<Value>
    ensures { result ≡ one_in a b c d e v.now }
{
    if v.len() != 1 {
        return None;
    }
    let x = v[0];
    if (x == a) | (x == b) | (x == c) | (x == d) | (x == e) {
        return Some(Value::Char(x));
    }
    None
}

// A number.
pub fn pick_number(said: Option<u64>) -> Option<Value>
    ensures { result ≡ number_in said }
{
    said.map(|n| Value::Number(n))
}

// One of eight numbers.
pub fn pick_listed(
    said: Option<u64>,
    a: u8,
    b: u8,
    c: u8,
    d: u8,
    e: u8,
    f: u8,
    g: u8,
    h: u8,
) -> Option<Value>
    ensures { result ≡ listed_in a b c d e f g h said }
{
    let n = said?;
    if (n == a as u64)
        | (n == b as u64)
        | (n == c as u64)
        | (n == d as u64)
        | (n == e as u64)
        | (n == f as u64)
        | (n == g as u64)
        | (n == h as u64)
    {
        return Some(Value::Number(n));
    }
    None
}

// How many characters a word with this fourth one has.
pub fn word_length(z: u8) -> usize
    ensures { (result ≡ cond (eqb z 0) 3 4) × (result ≤ 4) }
{
    if z == 0 {
        return 3;
    }
    4
}

// A word.
pub fn pick_word(v: &[u8], w: u8, x: u8, y: u8, z: u8) -> Option<Value>
    ensures { result ≡ word_in w x y z v.now }
{
    let word = [w, x, y, z];
    let n = word_length(z);
    if same(v, &word[..n]) {
        return Some(Value::Word { w, x, y, z });
    }
    None
}

// An OrderID, 1 to 999,999,999, or NONE.
#[tactic(auto, unfolding(crate::specs::Shapes::order_id_in))]
pub fn pick_order_id(v: &[u8]) -> Option<Value>
    ensures { result ≡ order_id_in v.now }
{
    let word = [78u8, 79, 78, 69];
    if same(v, &word) {
        return Some(Value::Word {
            w: 78,
            x: 79,
            y: 78,
            z: 69,
        });
    }
    pick_number(read_within(v, 9, 1, 999999999))
}

// Whether every byte lies from `low` to 7E hex.
pub fn all_from(v: &[u8], low: u8) -> bool
    ensures { result ≡ all_from low v.now }
{
    for b in v {
        if *b < low {
            return false;
        }
        if *b > 126 {
            return false;
        }
    }
    true
}

// 1 to `most` characters.
#[tactic(auto, unfolding(crate::specs::Shapes::text_in))]
pub fn pick_text(v: &[u8], from: usize, most: usize, low: u8) -> Option<Value>
    ensures { result ≡ text_in most low from v.now }
{
    if v.len() == 0 {
        return None;
    }
    if v.len() > most {
        return None;
    }
    if all_from(v, low) {
        return Some(Value::Sent { from, len: v.len() });
    }
    None
}

// A text that says a number, by its place.
pub fn pick_place(said: Option<u64>, from: usize, len: usize) -> Option<Value>
    ensures { result ≡ place_in from len said }
{
    said.map(|_| Value::Sent { from, len })
}

// A time.
#[tactic(auto, unfolding(crate::specs::Shapes::time_in))]
pub fn pick_time(v: &[u8], from: usize) -> Option<Value>
    ensures { result ≡ time_in from v.now }
{
    if is_time(v) {
        return Some(Value::Sent { from, len: v.len() });
    }
    None
}

// A yield or a price.
pub fn pick_quote(q: Instrument, said: Option<u64>) -> Option<Value>
    ensures { result ≡ quote_in q said }
{
    said.map(|n| Value::Level { of: q, level: n })
}

// AvgPx.
pub fn pick_average(q: Instrument, said: Option<u64>) -> Option<Value>
    ensures { result ≡ average_in q said }
{
    said.map(|n| Value::Mean { of: q, mean: n })
}

// The value that stands at a place of the report.
pub fn pick_value(v: &[u8], shape: Shape, from: usize) -> Option<Value>
    ensures { result ≡ value_in shape from v.now }
{
    match shape {
        Shape::Nothing => None,
        Shape::OneOf { a, b, c, d, e } => pick_one(v, a, b, c, d, e),
        Shape::Range { least, most } => pick_number(read_within(v, 9, least, most)),
        Shape::Listed {
            a,
            b,
            c,
            d,
            e,
            f,
            g,
            h,
        } => pick_listed(read_bare(v, 9), a, b, c, d, e, f, g, h),
        Shape::Exact { w, x, y, z } => pick_word(v, w, x, y, z),
        Shape::OrderId => pick_order_id(v),
        Shape::Text { most, low } => pick_text(v, from, most, low),
        Shape::Digits => pick_place(read_number(v, 9), from, v.len()),
        Shape::Time => pick_time(v, from),
        Shape::Level { of } => pick_quote(of, read_level(of, v)),
        Shape::Average { of } => pick_average(of, read_mean(of, v)),
    }
}
