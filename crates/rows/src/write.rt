// The bytes of an execution report's row, part by part. Each function answers the place behind what it wrote. The bytes of the message
// (`sent`) and of the table (`stored`) stay two parameters: report::write takes two, so that a struct would be taken apart at each call.
// The same goes for where is written (`out`, `at`).
ghost use Rattle.std.specs.Prelude.{[], ◌∷◌, ◌+◌, ◌%◌};
ghost use Rattle.octets.specs.Written.{Room, Wrote};
ghost use Rattle.matching.specs.Held.{Covered, Sound};
ghost use Rattle.report.specs.Fields.{value_bytes, written, field_bytes, row_bytes};
ghost use Rattle.rows.specs.Rows.{◌is◌, or_number, group, own_field, last_field, header};
ghost use Rattle.rows.specs.Parts.{first_part, fill_part, terms_part, details_part, state_part, others_part, reason_part, liquidity_part, last_part, upper_part, lower_part, execution_fields};

use crate::{Fill, Shown, Stamp, Told, avg_px, group_of};
use decimal::Instrument;
use decimal::write::put_byte;
use report::Value;
use report::write::{put_as, put_average, put_char, put_label, put_number, put_price};

// 50.
fn put_group(out: &mut [u8], at: usize, q: Instrument, sent: &[u8], stored: &[u8]) -> usize
    requires { Room out.old at (written 50 (value_bytes sent.now stored.now (group q))) }
    ensures { Wrote out.old at (written 50 (value_bytes sent.now stored.now (group q))) result out.new }
{
    let value = group_of(q);
    let a = put_label(out, at, 50);
    let b = report::write::put_value(out, a, value, sent, stored);
    put_byte(out, b, 1)
}

// The header, with 35.
fn put_header(out: &mut [u8], at: usize, kind: u8, s: Stamp, sent: &[u8], stored: &[u8]) -> usize
    requires { Room out.old at (row_bytes sent.now stored.now (header kind s)) }
    ensures { Wrote out.old at (row_bytes sent.now stored.now (header kind s)) result out.new }
{
    let q = s.of;
    let venue = s.venue;
    let time = s.time;
    let port = s.port;
    let a = put_char(out, at, 35, kind);
    let b = put_number(out, a, 34, s.number);
    let c = put_as(out, b, 49, venue, sent, stored);
    let d = put_group(out, c, q, sent, stored);
    let e = put_as(out, d, 52, time, sent, stored);
    put_as(out, e, 56, port, sent, stored)
}

// A number of one digit.
fn put_digit(out: &mut [u8], at: usize, tag: u64, n: u64) -> usize
    requires { Room out.old at (written tag ((48 + n % 10) ∷ [])) }
    ensures { Wrote out.old at (written tag ((48 + n % 10) ∷ [])) result out.new }
{
    put_char(out, at, tag, b'0' + (n % 10) as u8)
}

// A number, or nothing where it is 0.
fn put_or_number(out: &mut [u8], at: usize, tag: u64, n: u64, sent: &[u8], stored: &[u8]) -> usize
    requires { Room out.old at (field_bytes sent.now stored.now (tag is or_number n)) }
    ensures { Wrote out.old at (field_bytes sent.now stored.now (tag is or_number n)) result out.new }
{
    if n == 0 {
        return at;
    }
    put_number(out, at, tag, n)
}

// From 1 to 20.
fn put_first(out: &mut [u8], at: usize, s: Stamp, o: Shown, sent: &[u8], stored: &[u8]) -> usize
    requires sound { Sound o.order }
    requires room { Room out.old at (row_bytes sent.now stored.now (first_part s o)) }
    ensures { Wrote out.old at (row_bytes sent.now stored.now (first_part s o)) result out.new }
{
    let account = o.account;
    let id = o.id;
    let x = o.order;
    let q = s.of;
    let mean = avg_px(x);
    let a = put_as(out, at, 1, account, sent, stored);
    let b = put_average(out, a, 6, q, mean);
    let c = put_as(out, b, 11, id, sent, stored);
    let d = put_number(out, c, 14, x.executed);
    let e = put_number(out, d, 17, s.number);
    put_char(out, e, 20, b'0')
}

// 31 and 32 of a trade.
fn put_fill(
    out: &mut [u8],
    at: usize,
    q: Instrument,
    fill: Option<Fill>,
    sent: &[u8],
    stored: &[u8],
) -> usize
    requires { Room out.old at (row_bytes sent.now stored.now (fill_part q fill)) }
    ensures { Wrote out.old at (row_bytes sent.now stored.now (fill_part q fill)) result out.new }
{
    let Some(f) = fill else {
        return at;
    };
    let a = put_price(out, at, 31, q, f.level);
    put_number(out, a, 32, f.quantity)
}

// From 37 to 44.
fn put_terms(
    out: &mut [u8],
    at: usize,
    q: Instrument,
    o: Shown,
    status: u8,
    orig: Value,
    sent: &[u8],
    stored: &[u8],
) -> usize
    requires { Room out.old at (row_bytes sent.now stored.now (terms_part q o status orig)) }
    ensures { Wrote out.old at (row_bytes sent.now stored.now (terms_part q o status orig)) result out.new }
{
    let x = o.order;
    let a = put_number(out, at, 37, o.orderid);
    let b = put_number(out, a, 38, x.qty);
    let c = put_char(out, b, 39, status);
    let d = put_char(out, c, 40, b'2');
    let e = put_as(out, d, 41, orig, sent, stored);
    put_price(out, e, 44, q, x.level)
}

// From 47 to 110.
fn put_details(out: &mut [u8], at: usize, s: Stamp, o: Shown, sent: &[u8], stored: &[u8]) -> usize
    requires { Room out.old at (row_bytes sent.now stored.now (details_part s o)) }
    ensures { Wrote out.old at (row_bytes sent.now stored.now (details_part s o)) result out.new }
{
    let x = o.order;
    let code = o.code;
    let time = s.time;
    let a = put_char(out, at, 47, o.capacity);
    let b = put_digit(out, a, 54, x.side);
    let c = put_as(out, b, 55, code, sent, stored);
    let d = put_digit(out, c, 59, x.tif);
    let e = put_as(out, d, 60, time, sent, stored);
    let f = put_or_number(out, e, 109, x.mpid, sent, stored);
    put_or_number(out, f, 110, x.minqty, sent, stored)
}

// 150 and 151.
fn put_state(out: &mut [u8], at: usize, o: Shown, kind: u8, sent: &[u8], stored: &[u8]) -> usize
    requires covered { Covered o.order }
    requires room { Room out.old at (row_bytes sent.now stored.now (state_part o kind)) }
    ensures { Wrote out.old at (row_bytes sent.now stored.now (state_part o kind)) result out.new }
{
    let x = o.order;
    let left = x.open_of();
    let a = put_char(out, at, 150, kind);
    put_number(out, a, 151, left)
}

// 375 and 382 of a trade of bonds.
fn put_others(
    out: &mut [u8],
    at: usize,
    q: Instrument,
    fill: Option<Fill>,
    sent: &[u8],
    stored: &[u8],
) -> usize
    requires { Room out.old at (row_bytes sent.now stored.now (others_part q fill)) }
    ensures { Wrote out.old at (row_bytes sent.now stored.now (others_part q fill)) result out.new }
{
    let Some(f) = fill else {
        return at;
    };
    match q {
        Instrument::Bonds => {
            let a = put_number(out, at, 375, f.other);
            put_number(out, a, 382, 1)
        }
        Instrument::Equities => at,
    }
}

// What each market has of its own: 423 or 544.
fn put_own(out: &mut [u8], at: usize, q: Instrument, o: Shown, sent: &[u8], stored: &[u8]) -> usize
    requires { Room out.old at (field_bytes sent.now stored.now (own_field q o)) }
    ensures { Wrote out.old at (field_bytes sent.now stored.now (own_field q o)) result out.new }
{
    match q {
        Instrument::Bonds => put_number(out, at, 423, 9),
        Instrument::Equities => put_digit(out, at, 544, o.cash),
    }
}

// 851 and 880 of a trade.
fn put_liquidity(out: &mut [u8], at: usize, fill: Option<Fill>, sent: &[u8], stored: &[u8]) -> usize
    requires { Room out.old at (row_bytes sent.now stored.now (liquidity_part fill)) }
    ensures { Wrote out.old at (row_bytes sent.now stored.now (liquidity_part fill)) result out.new }
{
    let Some(f) = fill else {
        return at;
    };
    let a = put_number(out, at, 851, f.liquidity);
    put_number(out, a, 880, f.first)
}

// 8214 of equities, if the order has one.
fn put_margin(
    out: &mut [u8],
    at: usize,
    q: Instrument,
    o: Shown,
    sent: &[u8],
    stored: &[u8],
) -> usize
    requires { Room out.old at (field_bytes sent.now stored.now (last_field q o)) }
    ensures { Wrote out.old at (field_bytes sent.now stored.now (last_field q o)) result out.new }
{
    match q {
        Instrument::Bonds => at,
        Instrument::Equities => {
            if o.margin == 0 {
                return at;
            }
            put_digit(out, at, 8214, o.margin)
        }
    }
}

// 378, and what each market has of its own.
fn put_reason(
    out: &mut [u8],
    at: usize,
    q: Instrument,
    o: Shown,
    reason: Value,
    sent: &[u8],
    stored: &[u8],
) -> usize
    requires { Room out.old at (row_bytes sent.now stored.now (reason_part q o reason)) }
    ensures { Wrote out.old at (row_bytes sent.now stored.now (reason_part q o reason)) result out.new }
{
    let a = put_as(out, at, 378, reason, sent, stored);
    put_own(out, a, q, o, sent, stored)
}

// 8060, and what is behind it.
fn put_last(out: &mut [u8], at: usize, q: Instrument, o: Shown, sent: &[u8], stored: &[u8]) -> usize
    requires { Room out.old at (row_bytes sent.now stored.now (last_part q o)) }
    ensures { Wrote out.old at (row_bytes sent.now stored.now (last_part q o)) result out.new }
{
    let a = put_digit(out, at, 8060, o.class);
    put_margin(out, a, q, o, sent, stored)
}

// Up to 44.
fn put_upper(
    out: &mut [u8],
    at: usize,
    s: Stamp,
    o: Shown,
    v: Told,
    sent: &[u8],
    stored: &[u8],
) -> usize
    requires sound { Sound o.order }
    requires room { Room out.old at (row_bytes sent.now stored.now (upper_part s o v)) }
    ensures { Wrote out.old at (row_bytes sent.now stored.now (upper_part s o v)) result out.new }
{
    let q = s.of;
    let fill = v.fill;
    let orig = v.orig;
    let a = put_header(out, at, b'8', s, sent, stored);
    let b = put_first(out, a, s, o, sent, stored);
    let c = put_fill(out, b, q, fill, sent, stored);
    put_terms(out, c, q, o, v.status, orig, sent, stored)
}

// From 47 on.
fn put_lower(
    out: &mut [u8],
    at: usize,
    s: Stamp,
    o: Shown,
    v: Told,
    sent: &[u8],
    stored: &[u8],
) -> usize
    requires covered { Covered o.order }
    requires room { Room out.old at (row_bytes sent.now stored.now (lower_part s o v)) }
    ensures { Wrote out.old at (row_bytes sent.now stored.now (lower_part s o v)) result out.new }
{
    let q = s.of;
    let fill = v.fill;
    let reason = v.reason;
    let a = put_details(out, at, s, o, sent, stored);
    let b = put_state(out, a, o, v.kind, sent, stored);
    let c = put_others(out, b, q, fill, sent, stored);
    let d = put_reason(out, c, q, o, reason, sent, stored);
    let e = put_liquidity(out, d, fill, sent, stored);
    put_last(out, e, q, o, sent, stored)
}

// The row of an execution report.
pub fn put_execution(
    out: &mut [u8],
    at: usize,
    s: Stamp,
    o: Shown,
    v: Told,
    sent: &[u8],
    stored: &[u8],
) -> usize
    requires sound { Sound o.order }
    requires room { Room out.old at (row_bytes sent.now stored.now (execution_fields s o v)) }
    ensures { Wrote out.old at (row_bytes sent.now stored.now (execution_fields s o v)) result out.new }
{
    let a = put_upper(out, at, s, o, v, sent, stored);
    put_lower(out, a, s, o, v, sent, stored)
}
