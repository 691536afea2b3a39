// Samples of equities: a report of every kind, a line each, with `|` for SOH. A short sell on margin and buys for cash.
ghost use Rattle.std.specs.Prelude.{◌^◌, ◌≤◌, ◌<◌};
ghost use Rattle.decimal.specs.declared.Instrument.TheVariants.{Equities};
ghost use Rattle.matching.specs.Held.{Sound};
ghost use Rattle.matching.specs.Quoted.{Quoted};
ghost use Rattle.trials.specs.Fine.{AmountsFine, ShownFine};

use crate::samples::{
    accepted, canceled, expired, faulty, rejected, replaced, requested, sent, stamp, stamp_sent,
    trade, unchanged,
};
use decimal::Instrument;
use matching::Order;
use report::Value;
use rows::{Faulty, Fill, Refused, Shown, Unchanged};
use std::io::Result;

// A short sell of 500 at 100.0 for MPID 10, of which so much has executed.
fn short(executed: u64, sum: u64) -> Order
    requires { AmountsFine Equities 500 executed 0 0 sum }
    ensures { Sound result × (result.mpid < 10 ^ 6) × Quoted Equities result }
{
    Order {
        side: 5,
        tif: 0,
        level: 999_999_000,
        qty: 500,
        executed,
        decremented: 0,
        canceled: 0,
        sum,
        place: 5,
        mpid: 10,
        minqty: 0,
    }
}

// A buy of 20 with no MPID, IOC, of which so much has executed and was canceled.
fn buy(level: u64, executed: u64, canceled: u64, sum: u64) -> Order
    requires { (0 < level) × (level ≤ 1000000000) × AmountsFine Equities 20 executed 0 canceled sum }
    ensures { Sound result × (result.mpid < 10 ^ 6) × Quoted Equities result }
{
    Order {
        side: 1,
        tif: 3,
        level,
        qty: 20,
        executed,
        decremented: 0,
        canceled,
        sum,
        place: 6,
        mpid: 0,
        minqty: 0,
    }
}

// Order 1, of the client, with its account, on margin: CashMargin 2, MarginTransactionType 1.
fn on_margin(order: Order) -> Shown
    requires { Sound order × (order.mpid < 10 ^ 6) × Quoted Equities order }
    ensures { ShownFine Equities result }
{
    Shown {
        orderid: 1,
        order,
        capacity: b'A',
        class: 1,
        cash: 2,
        margin: 1,
        code: Value::Stored { from: 2, len: 3 },
        id: Value::Stored { from: 22, len: 5 },
        account: Value::Stored { from: 27, len: 5 },
    }
}

// Order 2, with no account, for cash.
fn for_cash(order: Order) -> Shown
    requires { Sound order × (order.mpid < 10 ^ 6) × Quoted Equities order }
    ensures { ShownFine Equities result }
{
    Shown {
        orderid: 2,
        order,
        capacity: b'P',
        class: 6,
        cash: 1,
        margin: 0,
        code: Value::Stored { from: 2, len: 3 },
        id: Value::Stored { from: 22, len: 5 },
        account: Value::Absent,
    }
}

// Orders that enter the book, the buys at the lowest and the highest price, and one that is replaced.
fn book_samples(out: &impl Print) -> Result<()> {
    let q = Instrument::Equities;
    accepted(out, q, stamp_sent(q, 1), on_margin(short(0, 0)))?;
    accepted(
        out,
        q,
        stamp_sent(q, 2),
        for_cash(buy(1_000_000_000, 0, 0, 0)),
    )?;
    accepted(out, q, stamp_sent(q, 3), for_cash(buy(1, 0, 0, 0)))?;
    replaced(
        out,
        q,
        stamp_sent(q, 4),
        on_margin(short(15, 14_999_985_000)),
        requested(),
    )
}

// A trade of the resting order, 15 at 100.0, and of the one in work, 1 at 100.1 behind it; and what is left of that one canceled.
fn trade_samples(out: &impl Print) -> Result<()> {
    let q = Instrument::Equities;
    trade(
        out,
        q,
        stamp(q, 5),
        on_margin(short(15, 14_999_985_000)),
        Fill {
            quantity: 15,
            level: 999_999_000,
            other: 0,
            first: 5,
            liquidity: 1,
        },
    )?;
    trade(
        out,
        q,
        stamp(q, 8),
        for_cash(buy(999_998_999, 16, 0, 15_999_983_999)),
        Fill {
            quantity: 1,
            level: 999_998_999,
            other: 11,
            first: 7,
            liquidity: 2,
        },
    )?;
    canceled(
        out,
        q,
        stamp(q, 9),
        for_cash(buy(999_998_999, 16, 4, 15_999_983_999)),
        expired(),
    )
}

// What is refused: a short sell exempt, a cancel of an unknown order, a message whose 8214 stands beside 544=1.
fn refusal_samples(out: &impl Print) -> Result<()> {
    let q = Instrument::Equities;
    rejected(
        out,
        q,
        stamp_sent(q, 10),
        Refused {
            id: sent(17, 5),
            quantity: 42,
            side: 6,
            code: sent(27, 3),
            reason: 1,
        },
    )?;
    unchanged(
        out,
        q,
        stamp_sent(q, 11),
        Unchanged {
            id: sent(17, 5),
            orderid: 0,
            status: 8,
            orig: sent(22, 5),
            reason: 1,
            response: 1,
        },
    )?;
    faulty(
        out,
        q,
        stamp_sent(q, 12),
        Faulty {
            sequence: 7,
            tag: 8214,
            kind: sent(30, 1),
            reason: 5,
        },
    )
}

// All samples of equities.
pub fn all(out: &impl Print) -> Result<()> {
    book_samples(out)?;
    trade_samples(out)?;
    refusal_samples(out)
}
