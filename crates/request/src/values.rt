// What the value of a tag says, and whether it may.
ghost use Rattle.std.specs.Prelude.{◌≡◌, ℕ, ◌+◌, ◌-◌, ◌≤◌, ◌<◌, length, get_or};
ghost use Rattle.request.specs.declared.Kind.{Kind};
ghost use Rattle.request.specs.Gathers.{InEach};
ghost use Rattle.request.specs.Session.{belongs, listed, char_says, Shape, Text, Digits, Amount, Quote, Time, Among, code_shape, side_shape, cash_shape, margin_shape, shape_of, look_as, one_of};

use crate::{Kind, Reason};
use decimal::Instrument;
use decimal::read::{is_digit, read_level, read_number, time_ranged, time_shaped};

// A text of 1 to `most` characters, which stands at place `at`.
fn text(at: u64, v: &[u8], most: usize) -> Result<u64, Reason>
    ensures { result ≡ look_as at (Text most) v.now }
{
    if (1 <= v.len()) & (v.len() <= most) {
        Ok(at)
    } else {
        Err(Reason::IncorrectDataFormat)
    }
}

// 1 to `most` digits, which stand at place `at`.
fn digits(at: u64, v: &[u8], most: usize) -> Result<u64, Reason>
    requires { most ≤ 9 }
    ensures { result ≡ look_as at (Digits most) v.now }
{
    match read_number(v, most) {
        Some(_) => Ok(at),
        None => Err(Reason::IncorrectDataFormat),
    }
}

// 1 to `most` digits that do not say 0.
fn amount(at: u64, v: &[u8], most: usize) -> Result<u64, Reason>
    requires { most ≤ 9 }
    ensures { result ≡ look_as at (Amount most) v.now }
{
    match read_number(v, most) {
        Some(0) => Err(Reason::ValueIncorrect),
        Some(n) => Ok(n),
        None => Err(Reason::IncorrectDataFormat),
    }
}

// A yield or a price as a level.
fn level(q: Instrument, at: u64, v: &[u8]) -> Result<u64, Reason>
    ensures { result ≡ look_as at (Quote q) v.now }
{
    read_level(q, v).ok_or(Reason::IncorrectDataFormat)
}

// A time, which stands at place `at`.
fn time(at: u64, v: &[u8]) -> Result<u64, Reason>
    ensures { result ≡ look_as at Time v.now }
{
    if !time_shaped(v) {
        return Err(Reason::IncorrectDataFormat);
    }
    if !time_ranged(v) {
        return Err(Reason::ValueIncorrect);
    }
    Ok(at)
}

// The number that a character says: a digit itself, another its code.
fn char_says(c: u8) -> u64
    ensures { result ≡ char_says c }
{
    if is_digit(c) {
        u64::from(c - b'0')
    } else {
        u64::from(c)
    }
}

// Whether a character is one of some.
fn one_of(c: u8, cs: &[u8]) -> bool
    ensures { result ≡ one_of c cs.now }
{
    cs.contains(&c)
}

// One character, of those in `cs`.
fn among(at: u64, v: &[u8], cs: &[u8]) -> Result<u64, Reason>
    ensures { result ≡ look_as at (Among cs.now) v.now }
{
    if v.len() != 1 {
        return Err(Reason::IncorrectDataFormat);
    }
    if !one_of(v[0], cs) {
        return Err(Reason::ValueIncorrect);
    }
    Ok(char_says(v[0]))
}

// The code of a bond or a share, which stands at place `at`.
fn code(q: Instrument, at: u64, v: &[u8]) -> Result<u64, Reason>
    ensures { result ≡ look_as at (code_shape q) v.now }
{
    match q {
        Instrument::Bonds => digits(at, v, 9),
        Instrument::Equities => text(at, v, 9),
    }
}

// One character that says the side.
fn side(q: Instrument, at: u64, v: &[u8]) -> Result<u64, Reason>
    ensures { result ≡ look_as at (side_shape q) v.now }
{
    match q {
        Instrument::Bonds => among(at, v, b"12"),
        Instrument::Equities => among(at, v, b"1256"),
    }
}

// CashMargin, of equities.
fn cash(q: Instrument, at: u64, v: &[u8]) -> Result<u64, Reason>
    ensures { result ≡ look_as at (cash_shape q) v.now }
{
    match q {
        Instrument::Bonds => Err(Reason::UndefinedTag),
        Instrument::Equities => among(at, v, b"123"),
    }
}

// MarginTransactionType, of equities.
fn margin(q: Instrument, at: u64, v: &[u8]) -> Result<u64, Reason>
    ensures { result ≡ look_as at (margin_shape q) v.now }
{
    match q {
        Instrument::Bonds => Err(Reason::UndefinedTag),
        Instrument::Equities => among(at, v, b"12"),
    }
}

// What the value of a tag says, where it stands at place `at`.
pub fn look(q: Instrument, at: u64, tag: u64, v: &[u8]) -> Result<u64, Reason>
    ensures { result ≡ look_as at (shape_of q tag) v.now }
{
    match tag {
        1 => text(at, v, 10),
        11 => text(at, v, 32),
        41 => text(at, v, 32),
        55 => code(q, at, v),
        38 => amount(at, v, 9),
        110 => amount(at, v, 9),
        109 => amount(at, v, 6),
        44 => level(q, at, v),
        60 => time(at, v),
        21 => among(at, v, b"1"),
        40 => among(at, v, b"2"),
        47 => among(at, v, b"AP"),
        54 => side(q, at, v),
        59 => among(at, v, b"034"),
        8060 => among(at, v, b"13456"),
        544 => cash(q, at, v),
        8214 => margin(q, at, v),
        _ => Err(Reason::UndefinedTag),
    }
}

// Whether a new order may have the tag.
fn in_new_order(q: Instrument, tag: u64) -> bool
    ensures { result ≡ belongs q Kind.NewOrder tag }
{
    match tag {
        1 | 11 | 21 | 38 | 40 | 44 | 47 | 54 | 59 | 109 | 8060 => true,
        55 | 60 | 110 => true,
        544 | 8214 => q == Instrument::Equities,
        _ => false,
    }
}

// Whether a replacement may have the tag, whatever the market trades.
fn in_replacement(tag: u64) -> bool
    ensures { InEach Kind.Replacement tag result }
{
    match tag {
        11 | 21 | 38 | 40 | 44 | 54 | 60 => true,
        41 | 55 => true,
        _ => false,
    }
}

// Whether a cancel may have the tag, whatever the market trades.
fn in_cancel(tag: u64) -> bool
    ensures { InEach Kind.Cancel tag result }
{
    match tag {
        11 | 38 | 41 | 54 | 60 => true,
        55 => true,
        _ => false,
    }
}

// Whether a message of the type may have the tag.
pub fn in_kind(q: Instrument, kind: Kind, tag: u64) -> bool
    ensures { result ≡ belongs q kind tag }
{
    match kind {
        Kind::NewOrder => in_new_order(q, tag),
        Kind::Replacement => in_replacement(tag),
        Kind::Cancel => in_cancel(tag),
        Kind::Unknown => false,
    }
}

// Whether a message of some type may have the tag.
pub fn in_some(q: Instrument, tag: u64) -> bool
    ensures { result ≡ listed q tag }
{
    in_new_order(q, tag) | in_replacement(tag) | in_cancel(tag)
}
