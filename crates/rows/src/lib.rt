// The rows of the seven kinds of report, each a table of its fields. Numbers that stand for kinds (851, 434, 103 and the like) are FIX's
// own and are written as they are; OrderID 0 is that of no order, as the definitions have it.
#![tactic(auto)]

pub mod telling;
pub mod write;

ghost use Rattle.std.specs.Prelude.{◌≡◌};
ghost use Rattle.matching.specs.Held.{Covered, Sound};
ghost use Rattle.rows.specs.Rows.{or_number, or_digit, or_nobody, group, own_field, last_field, other_field, count_field, avg_px, trade_status, replaced_status, status_of, figures_of, padded, accepted_row, replaced_row, canceled_row, trade_row, rejected_row, cancel_reject_row, session_reject_row};
ghost use Rattle.rows.specs.Rows.{text as Rows·text};
ghost use Rattle.rows.specs.Rows.{digit as Rows·digit};

use decimal::Instrument;
use matching::Order;
use report::{Field, Place, Value};

// What every report starts with: what its market trades, its number, and the 52 of the causing message, venue and port.
#[derive(Clone, Copy)]
pub struct Stamp {
    pub of: Instrument,
    pub number: u64,
    pub time: Value,
    pub venue: Value,
    pub port: Value,
}

// An order as it is reported, after the event: what 37 calls it, its numbers, its capacity (a character), its classification, its
// CashMargin and its MarginTransactionType (numbers of one digit, 0 for none of the last two), the bond code or symbol, its ClOrdID
// and its account, if it has one.
#[derive(Clone, Copy)]
pub struct Shown {
    pub orderid: u64,
    pub order: Order,
    pub capacity: u8,
    pub class: u64,
    pub cash: u64,
    pub margin: u64,
    pub code: Value,
    pub id: Value,
    pub account: Value,
}

// What is worked out of an order for its reports: 109, 110, 6, 151, 54, 59, 8060, 39 of a Trade and of Replaced, the field that each
// market has of its own (423 or 544), and the one behind 8060 (8214, or none).
#[derive(Clone, Copy)]
pub struct Figures {
    pub client: Value,
    pub least: Value,
    pub mean: u64,
    pub left: u64,
    pub side: Value,
    pub tif: Value,
    pub class: Value,
    pub traded: Value,
    pub replaced: Value,
    pub own: Field,
    pub last: Field,
}

// Why an order was replaced or canceled: its 41 and 378, or none.
#[derive(Clone, Copy)]
pub struct Ground {
    pub orig: Value,
    pub reason: Value,
}

// One fill: its quantity and its level, the other's MPID (0 for none), the number of the first of the two reports, and 1 for
// liquidity added or 2 for liquidity removed.
#[derive(Clone, Copy)]
pub struct Fill {
    pub quantity: u64,
    pub level: u64,
    pub other: u64,
    pub first: u64,
    pub liquidity: u64,
}

// A new order that is rejected: its ClOrdID, quantity, side and code as sent, and 103.
#[derive(Clone, Copy)]
pub struct Refused {
    pub id: Place,
    pub quantity: u64,
    pub side: u64,
    pub code: Place,
    pub reason: u64,
}

// A cancel or replacement that is rejected: 11 and 41 as sent, what 37 calls the order that has 41 (0 for none), its 39, 102,
// and 434 (1 for a cancel, 2 for a replacement).
#[derive(Clone, Copy)]
pub struct Unchanged {
    pub id: Place,
    pub orderid: u64,
    pub status: u64,
    pub orig: Place,
    pub reason: u64,
    pub response: u64,
}

// A message with a fault: its 34, the tag at fault, where its 35 stands, and 373.
#[derive(Clone, Copy)]
pub struct Faulty {
    pub sequence: u64,
    pub tag: u64,
    pub kind: Place,
    pub reason: u64,
}

// What makes an execution report the kind it is: its 39 and 150, its 41 and 378, or none, and of a Trade its fill.
#[derive(Clone, Copy)]
pub struct Told {
    pub status: u8,
    pub kind: u8,
    pub orig: Value,
    pub reason: Value,
    pub fill: Option<Fill>,
}

// A field of a row: its tag and its value.
macro_rules! field {
    ($tag:expr, $value:expr) => {
        Field {
            tag: $tag,
            value: $value,
        }
    };
}

// The text at a place.
pub fn text(p: Place) -> Value
    ensures { result ≡ Rows·text p }
{
    if p.sent {
        return Value::Sent {
            from: p.start,
            len: p.length,
        };
    }
    Value::Stored {
        from: p.start,
        len: p.length,
    }
}

// A number, or no value where it is 0: an order is shown as its record keeps it, and a record keeps 0 for none.
fn or_number(n: u64) -> Value
    ensures { result ≡ or_number n }
{
    if n == 0 {
        return Value::Absent;
    }
    Value::Number(n)
}

// A number of one digit as a character.
fn digit(n: u64) -> Value
    ensures { result ≡ Rows·digit n }
{
    Value::Char(48 + (n % 10) as u8)
}

// The same, or no value where it is 0.
fn or_digit(n: u64) -> Value
    ensures { result ≡ or_digit n }
{
    if n == 0 {
        return Value::Absent;
    }
    digit(n)
}

// 50, the group that the market belongs to.
fn group_of(q: Instrument) -> Value
    ensures { result ≡ group q }
{
    match q {
        Instrument::Bonds => Value::Word {
            w: b'D',
            x: b'J',
            y: b'G',
            z: b'B',
        },
        Instrument::Equities => Value::Word {
            w: b'D',
            x: b'A',
            y: b'Y',
            z: 0,
        },
    }
}

// The field of an order that each market has of its own: 423 of bonds, CashMargin of equities.
fn own_field(q: Instrument, o: Shown) -> Field
    ensures { result ≡ own_field q o }
{
    match q {
        Instrument::Bonds => Field {
            tag: 423,
            value: Value::Number(9),
        },
        Instrument::Equities => Field {
            tag: 544,
            value: digit(o.cash),
        },
    }
}

// The field behind 8060: MarginTransactionType of equities, if the order has one.
fn last_field(q: Instrument, o: Shown) -> Field
    ensures { result ≡ last_field q o }
{
    match q {
        Instrument::Bonds => Field {
            tag: 0,
            value: Value::Absent,
        },
        Instrument::Equities => Field {
            tag: 8214,
            value: or_digit(o.margin),
        },
    }
}

// The other's MPID in a Trade, which bonds alone show.
fn other_field(q: Instrument, f: Fill) -> Field
    ensures { result ≡ other_field q f }
{
    match q {
        Instrument::Bonds => Field {
            tag: 375,
            value: Value::Number(f.other),
        },
        Instrument::Equities => Field {
            tag: 0,
            value: Value::Absent,
        },
    }
}

// How many others there are in a Trade, which bonds alone show.
fn count_field(q: Instrument) -> Field
    ensures { result ≡ count_field q }
{
    match q {
        Instrument::Bonds => Field {
            tag: 382,
            value: Value::Number(1),
        },
        Instrument::Equities => Field {
            tag: 0,
            value: Value::Absent,
        },
    }
}

// 37 where there may be no order.
fn or_nobody(n: u64) -> Value
    ensures { result ≡ or_nobody n }
{
    if n == 0 {
        return Value::Word {
            w: b'N',
            x: b'O',
            y: b'N',
            z: b'E',
        };
    }
    Value::Number(n)
}

// AvgPx of an order.
fn avg_px(o: Order) -> u64
    requires { Sound o }
    ensures { result ≡ avg_px o }
{
    decimal::write::mean_of(o.sum, o.executed)
}

// 39 of a Trade.
fn trade_status(o: Order) -> u64
    requires { Covered o }
    ensures { result ≡ trade_status o }
{
    if o.open_of() == 0 {
        return 2;
    }
    1
}

// 39 of Replaced.
fn replaced_status(o: Order) -> u64
    ensures { result ≡ replaced_status o }
{
    if o.executed == 0 {
        return 5;
    }
    1
}

// 39 of a Cancel reject where an order has 41.
pub fn status_of(o: Order) -> u64
    requires { Covered o }
    ensures { result ≡ status_of o }
{
    if 0 < o.canceled {
        return 4;
    }
    if o.open_of() == 0 {
        return 2;
    }
    if 0 < o.executed {
        return 1;
    }
    0
}

// What is worked out of an order.
fn figures_of(q: Instrument, o: Shown) -> Figures
    requires { Sound o.order }
    ensures { result ≡ figures_of q o }
{
    let x = o.order;
    let client = or_number(x.mpid);
    let least = or_number(x.minqty);
    let side = digit(x.side);
    let tif = digit(x.tif);
    let class = digit(o.class);
    let t = trade_status(x);
    let traded = digit(t);
    let r = replaced_status(x);
    let replaced = digit(r);
    let own = own_field(q, o);
    let last = last_field(q, o);
    Figures {
        client,
        least,
        mean: avg_px(x),
        left: x.open_of(),
        side,
        tif,
        class,
        traded,
        replaced,
        own,
        last,
    }
}

// The rows stand as tables, so that each can be held beside its table in specs/Rows. Each is 36 fields long, which is what
// report::write takes; behind its own are fields of no value.

// The row of Accepted.
pub fn accepted_row(s: Stamp, o: Shown) -> [Field; 36]
    requires { Sound o.order }
    ensures { result ≡ padded (accepted_row s o) }
{
    let none = field!(0, Value::Absent);
    let x = o.order;
    let q = s.of;
    let group = group_of(q);
    let g = figures_of(q, o);
    [
        field!(35, Value::Char(b'8')),
        field!(34, Value::Number(s.number)),
        field!(49, s.venue),
        field!(50, group),
        field!(52, s.time),
        field!(56, s.port),
        field!(1, o.account),
        field!(
            6,
            Value::Mean {
                of: q,
                mean: g.mean
            }
        ),
        field!(11, o.id),
        field!(14, Value::Number(x.executed)),
        field!(17, Value::Number(s.number)),
        field!(20, Value::Char(b'0')),
        field!(37, Value::Number(o.orderid)),
        field!(38, Value::Number(x.qty)),
        field!(39, Value::Char(b'0')),
        field!(40, Value::Char(b'2')),
        field!(
            44,
            Value::Level {
                of: q,
                level: x.level
            }
        ),
        field!(47, Value::Char(o.capacity)),
        field!(54, g.side),
        field!(55, o.code),
        field!(59, g.tif),
        field!(60, s.time),
        field!(109, g.client),
        field!(110, g.least),
        field!(150, Value::Char(b'0')),
        field!(151, Value::Number(g.left)),
        g.own,
        field!(8060, g.class),
        g.last,
        none,
        none,
        none,
        none,
        none,
        none,
        none,
    ]
}

// The row of Replaced, as requested or by a decrement.
pub fn replaced_row(s: Stamp, o: Shown, w: Ground) -> [Field; 36]
    requires { Sound o.order }
    ensures { result ≡ padded (replaced_row s o w) }
{
    let none = field!(0, Value::Absent);
    let x = o.order;
    let q = s.of;
    let group = group_of(q);
    let g = figures_of(q, o);
    [
        field!(35, Value::Char(b'8')),
        field!(34, Value::Number(s.number)),
        field!(49, s.venue),
        field!(50, group),
        field!(52, s.time),
        field!(56, s.port),
        field!(1, o.account),
        field!(
            6,
            Value::Mean {
                of: q,
                mean: g.mean
            }
        ),
        field!(11, o.id),
        field!(14, Value::Number(x.executed)),
        field!(17, Value::Number(s.number)),
        field!(20, Value::Char(b'0')),
        field!(37, Value::Number(o.orderid)),
        field!(38, Value::Number(x.qty)),
        field!(39, g.replaced),
        field!(40, Value::Char(b'2')),
        field!(41, w.orig),
        field!(
            44,
            Value::Level {
                of: q,
                level: x.level
            }
        ),
        field!(47, Value::Char(o.capacity)),
        field!(54, g.side),
        field!(55, o.code),
        field!(59, g.tif),
        field!(60, s.time),
        field!(109, g.client),
        field!(110, g.least),
        field!(150, Value::Char(b'5')),
        field!(151, Value::Number(g.left)),
        field!(378, w.reason),
        g.own,
        field!(8060, g.class),
        g.last,
        none,
        none,
        none,
        none,
        none,
    ]
}

// The row of Canceled, as requested, by prevention, or an immediate order that was killed or whose rest expired.
pub fn canceled_row(s: Stamp, o: Shown, w: Ground) -> [Field; 36]
    requires { Sound o.order }
    ensures { result ≡ padded (canceled_row s o w) }
{
    let none = field!(0, Value::Absent);
    let x = o.order;
    let q = s.of;
    let group = group_of(q);
    let g = figures_of(q, o);
    [
        field!(35, Value::Char(b'8')),
        field!(34, Value::Number(s.number)),
        field!(49, s.venue),
        field!(50, group),
        field!(52, s.time),
        field!(56, s.port),
        field!(1, o.account),
        field!(
            6,
            Value::Mean {
                of: q,
                mean: g.mean
            }
        ),
        field!(11, o.id),
        field!(14, Value::Number(x.executed)),
        field!(17, Value::Number(s.number)),
        field!(20, Value::Char(b'0')),
        field!(37, Value::Number(o.orderid)),
        field!(38, Value::Number(x.qty)),
        field!(39, Value::Char(b'4')),
        field!(40, Value::Char(b'2')),
        field!(41, w.orig),
        field!(
            44,
            Value::Level {
                of: q,
                level: x.level
            }
        ),
        field!(47, Value::Char(o.capacity)),
        field!(54, g.side),
        field!(55, o.code),
        field!(59, g.tif),
        field!(60, s.time),
        field!(109, g.client),
        field!(110, g.least),
        field!(150, Value::Char(b'4')),
        field!(151, Value::Number(g.left)),
        field!(378, w.reason),
        g.own,
        field!(8060, g.class),
        g.last,
        none,
        none,
        none,
        none,
        none,
    ]
}

// The row of a Trade.
pub fn trade_row(s: Stamp, o: Shown, f: Fill) -> [Field; 36]
    requires { Sound o.order }
    ensures { result ≡ padded (trade_row s o f) }
{
    let none = field!(0, Value::Absent);
    let x = o.order;
    let q = s.of;
    let group = group_of(q);
    let g = figures_of(q, o);
    let other = other_field(q, f);
    let count = count_field(q);
    [
        field!(35, Value::Char(b'8')),
        field!(34, Value::Number(s.number)),
        field!(49, s.venue),
        field!(50, group),
        field!(52, s.time),
        field!(56, s.port),
        field!(1, o.account),
        field!(
            6,
            Value::Mean {
                of: q,
                mean: g.mean
            }
        ),
        field!(11, o.id),
        field!(14, Value::Number(x.executed)),
        field!(17, Value::Number(s.number)),
        field!(20, Value::Char(b'0')),
        field!(
            31,
            Value::Level {
                of: q,
                level: f.level
            }
        ),
        field!(32, Value::Number(f.quantity)),
        field!(37, Value::Number(o.orderid)),
        field!(38, Value::Number(x.qty)),
        field!(39, g.traded),
        field!(40, Value::Char(b'2')),
        field!(
            44,
            Value::Level {
                of: q,
                level: x.level
            }
        ),
        field!(47, Value::Char(o.capacity)),
        field!(54, g.side),
        field!(55, o.code),
        field!(59, g.tif),
        field!(60, s.time),
        field!(109, g.client),
        field!(110, g.least),
        field!(150, g.traded),
        field!(151, Value::Number(g.left)),
        other,
        count,
        g.own,
        field!(851, Value::Number(f.liquidity)),
        field!(880, Value::Number(f.first)),
        field!(8060, g.class),
        g.last,
        none,
    ]
}

// The row of Rejected.
pub fn rejected_row(s: Stamp, r: Refused) -> [Field; 36]
    ensures { result ≡ padded (rejected_row s r) }
{
    let none = field!(0, Value::Absent);
    let q = s.of;
    let group = group_of(q);
    let id = text(r.id);
    let code = text(r.code);
    let side = digit(r.side);
    [
        field!(35, Value::Char(b'8')),
        field!(34, Value::Number(s.number)),
        field!(49, s.venue),
        field!(50, group),
        field!(52, s.time),
        field!(56, s.port),
        field!(
            6,
            Value::Mean {
                of: q,
                mean: 1_000_000_000_000
            }
        ),
        field!(11, id),
        field!(14, Value::Number(0)),
        field!(17, Value::Number(s.number)),
        field!(20, Value::Char(b'0')),
        field!(
            37,
            Value::Word {
                w: b'N',
                x: b'O',
                y: b'N',
                z: b'E'
            }
        ),
        field!(38, Value::Number(r.quantity)),
        field!(39, Value::Char(b'8')),
        field!(54, side),
        field!(55, code),
        field!(103, Value::Number(r.reason)),
        field!(150, Value::Char(b'8')),
        field!(151, Value::Number(0)),
        none,
        none,
        none,
        none,
        none,
        none,
        none,
        none,
        none,
        none,
        none,
        none,
        none,
        none,
        none,
        none,
        none,
    ]
}

// The row of a Cancel reject.
pub fn cancel_reject_row(s: Stamp, u: Unchanged) -> [Field; 36]
    ensures { result ≡ padded (cancel_reject_row s u) }
{
    let none = field!(0, Value::Absent);
    let q = s.of;
    let group = group_of(q);
    let id = text(u.id);
    let order = or_nobody(u.orderid);
    let status = digit(u.status);
    let orig = text(u.orig);
    [
        field!(35, Value::Char(b'9')),
        field!(34, Value::Number(s.number)),
        field!(49, s.venue),
        field!(50, group),
        field!(52, s.time),
        field!(56, s.port),
        field!(11, id),
        field!(37, order),
        field!(39, status),
        field!(41, orig),
        field!(102, Value::Number(u.reason)),
        field!(434, Value::Number(u.response)),
        none,
        none,
        none,
        none,
        none,
        none,
        none,
        none,
        none,
        none,
        none,
        none,
        none,
        none,
        none,
        none,
        none,
        none,
        none,
        none,
        none,
        none,
        none,
        none,
    ]
}

// The row of a Session Reject.
pub fn session_reject_row(s: Stamp, f: Faulty) -> [Field; 36]
    ensures { result ≡ padded (session_reject_row s f) }
{
    let none = field!(0, Value::Absent);
    let q = s.of;
    let group = group_of(q);
    let kind = text(f.kind);
    [
        field!(35, Value::Char(b'3')),
        field!(34, Value::Number(s.number)),
        field!(49, s.venue),
        field!(50, group),
        field!(52, s.time),
        field!(56, s.port),
        field!(45, Value::Number(f.sequence)),
        field!(371, Value::Number(f.tag)),
        field!(372, kind),
        field!(373, Value::Number(f.reason)),
        none,
        none,
        none,
        none,
        none,
        none,
        none,
        none,
        none,
        none,
        none,
        none,
        none,
        none,
        none,
        none,
        none,
        none,
        none,
        none,
        none,
        none,
        none,
        none,
        none,
        none,
    ]
}
