// The report of what happens on a table.
#![tactic(auto)]

pub mod rejects;
pub mod tell;

ghost use Rattle.std.specs.Prelude.{◌≡◌, ◌≤◌, ◌<◌, length};
ghost use Rattle.table.specs.Places.{table_bytes};
ghost use Rattle.ticket.specs.Tickets.{stored_at, or_stored_at, stamp_on, shown_on, fill_on, Ready};
ghost use Rattle.ticket.specs.Telling.{told_of};
ghost use Rattle.matching.specs.Matching.{who};
ghost use Rattle.rows.specs.Rows.{requested as Rows·requested, text as Rows·text};
ghost use Rattle.rows.specs.Rows.{prevented as Rows·prevented, decremented as Rows·decremented, expired as Rows·expired};

use matching::Event;
use report::{Place, Value};
use rows::{Fill, Ground, Shown, Stamp, Told, telling};
use table::places;

// The message that causes a report: where its 52 stands, and its 41 (empty for none).
#[derive(Clone, Copy)]
pub struct Cause {
    pub time: Place,
    pub orig: Place,
}

// The text whose length byte is at place p of the table.
fn stored_at(t: &[u8], p: usize) -> Value
    requires { (length t.now ≡ table_bytes) × (p < table_bytes) }
    ensures { result ≡ stored_at t.now p }
{
    let len = octets::wide(t[p]) as usize;
    Value::Stored { from: p + 1, len }
}

// The same, or no value where it is empty.
fn or_stored_at(t: &[u8], p: usize) -> Value
    requires { (length t.now ≡ table_bytes) × (p < table_bytes) }
    ensures { result ≡ or_stored_at t.now p }
{
    if t[p] == 0 {
        return Value::Absent;
    }
    stored_at(t, p)
}

// What report number n starts with, caused by a message with this 52.
pub fn stamp_on(t: &[u8], n: u64, time: Place) -> Stamp
    requires { length t.now ≡ table_bytes }
    ensures { result ≡ stamp_on t.now n time }
{
    let of = table::heading::instrument(t);
    let when = rows::text(time);
    let venue = stored_at(t, places::VENUE);
    let port = stored_at(t, places::PORT);
    Stamp {
        of,
        number: n,
        time: when,
        venue,
        port,
    }
}

// The order of record i as it is reported.
pub fn shown_on(t: &[u8], i: usize) -> Shown
    requires { (length t.now ≡ table_bytes) × (i < 256) }
    ensures { result ≡ shown_on t.now i }
{
    let capacity = t[places::RECORD * i + places::CAPACITY];
    let orderid = table::record::order_id(t, i);
    let order = table::record::load(t, i);
    let marks = table::record::marks_at(t, i);
    let code = stored_at(t, places::CODE);
    let id = stored_at(t, places::RECORD * i);
    let account = or_stored_at(t, places::RECORD * i + places::ACCOUNT);
    Shown {
        orderid,
        order,
        capacity,
        class: marks.class,
        cash: marks.cash,
        margin: marks.margin,
        code,
        id,
        account,
    }
}

// One side of a trade between the orders of records i and other: the order in work is reported second.
pub fn fill_on(t: &[u8], n: u64, i: usize, other: usize, quantity: u64, level: u64) -> Fill
    requires { (length t.now ≡ table_bytes) × (other < 256) × (0 < n) }
    ensures { result ≡ fill_on t.now n i other quantity level }
{
    let o = table::record::load(t, other);
    let (first, liquidity) = if i == table::heading::work(t) {
        (n - 1, 2)
    } else {
        (n, 1)
    };
    Fill {
        quantity,
        level,
        other: o.mpid,
        first,
        liquidity,
    }
}

// As requested, with this 41.
pub fn requested(orig: Place) -> Ground
    ensures { result ≡ Rows·requested (Rows·text orig) }
{
    let value = rows::text(orig);
    Ground {
        orig: value,
        reason: Value::Absent,
    }
}

// By prevention.
pub fn prevented() -> Ground
    ensures { result ≡ Rows·prevented }
{
    Ground {
        orig: Value::Absent,
        reason: Value::Number(100),
    }
}

// By a decrement.
pub fn decremented(o: Shown) -> Ground
    ensures { result ≡ Rows·decremented o }
{
    let id = o.id;
    Ground {
        orig: id,
        reason: Value::Number(100),
    }
}

// For want of a minimum, or as an immediate order's rest.
pub fn expired() -> Ground
    ensures { result ≡ Rows·expired }
{
    Ground {
        orig: Value::Absent,
        reason: Value::Number(99),
    }
}

// The number of an event's order.
pub fn order_of(e: Event) -> u64
    ensures { result ≡ who e }
{
    match e {
        Event::Accepted { order, .. }
        | Event::Replaced { order, .. }
        | Event::Withdrawn { order, .. }
        | Event::Canceled { order, .. }
        | Event::Decremented { order, .. }
        | Event::Traded { order, .. }
        | Event::Killed { order, .. }
        | Event::Expired { order, .. } => order,
    }
}

// What makes the report of an event, number n, the kind it is, where o is its order, on the table after it.
pub fn told_of(t: &[u8], n: u64, orig: Place, e: Event, i: usize, o: Shown) -> Told
    requires { Ready t.now n e × (i ≡ who e) × (o ≡ shown_on t.now (who e)) }
    ensures { result ≡ told_of t.now n orig e }
{
    match e {
        Event::Accepted { .. } => telling::accepted(),
        Event::Replaced { .. } => telling::replaced(o, requested(orig)),
        Event::Withdrawn { .. } => telling::canceled(requested(orig)),
        Event::Canceled { .. } => telling::canceled(prevented()),
        Event::Decremented { .. } => telling::replaced(o, decremented(o)),
        Event::Traded {
            other,
            quantity,
            level,
            ..
        } => telling::traded(o, fill_on(t, n, i, other as usize, quantity, level)),
        Event::Killed { .. } | Event::Expired { .. } => telling::canceled(expired()),
    }
}
