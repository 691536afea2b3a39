// Samples of bonds: one report of every kind and variant, a line each, with `|` for SOH. docs/SAMPLES.md says what each line is.
ghost use Rattle.std.specs.Prelude.{◌^◌, ◌≤◌, ◌<◌};
ghost use Rattle.decimal.specs.declared.Instrument.TheVariants.{Bonds};
ghost use Rattle.matching.specs.Held.{Sound};
ghost use Rattle.matching.specs.Quoted.{Quoted};
ghost use Rattle.rows.specs.Ranges.{FillIn, RefusedIn, UnchangedIn, FaultyIn};
ghost use Rattle.trials.specs.Fine.{StampFine, AmountsFine, ShownFine, GroundFine, RowFine};

use crate::shares;
use decimal::Instrument;
use matching::Order;
use report::{Field, Place, Value};
use rows::{Faulty, Fill, Ground, Refused, Shown, Stamp, Unchanged};
use std::io::Result;

// Makes every SOH a bar. Each byte is stored, so that the compiler takes many at once.
fn bars(s: &mut [u8]) {
    for b in s.iter_mut() {
        *b = if *b == 1 { b'|' } else { *b };
    }
}

// Writes a report into an area and prints it.
fn print(out: &impl Print, row: [Field; 36]) -> Result<()>
    requires { RowFine row }
{
    let mut area = [0u8; 512];
    let n = report::write::write_report(
        &mut area,
        row,
        b"20260105-09:00:02BUY-2BUY-1350D",
        b"VP35020260105-09:00:01BUY-1ACC-1BUY-2",
    );
    bars(&mut area);
    if n <= 512 {
        out.write_all(&area[..n])?;
        out.write_all(b"\n")?;
    }
    Ok(())
}

// The start of a report: venue V, port P, and the 52 that the table keeps.
pub fn stamp(q: Instrument, number: u64) -> Stamp
    requires { number < 10 ^ 9 }
    ensures { StampFine q result }
{
    Stamp {
        of: q,
        number,
        time: Value::Stored { from: 5, len: 17 },
        venue: Value::Stored { from: 0, len: 1 },
        port: Value::Stored { from: 1, len: 1 },
    }
}

// The same, with the 52 of the message.
pub fn stamp_sent(q: Instrument, number: u64) -> Stamp
    requires { number < 10 ^ 9 }
    ensures { StampFine q result }
{
    Stamp {
        time: Value::Sent { from: 0, len: 17 },
        ..stamp(q, number)
    }
}

// An order of the client, BUY-1, with its account. Its OrderID is the number of the report that accepted it.
fn known(orderid: u64, order: Order) -> Shown
    requires { (orderid < 10 ^ 9) × Sound order × (order.mpid < 10 ^ 6) × Quoted Bonds order }
    ensures { ShownFine Bonds result }
{
    Shown {
        orderid,
        order,
        capacity: b'A',
        class: 1,
        cash: 0,
        margin: 0,
        code: Value::Stored { from: 2, len: 3 },
        id: Value::Stored { from: 22, len: 5 },
        account: Value::Stored { from: 27, len: 5 },
    }
}

// Order 1 under its new ClOrdID, BUY-2.
fn renamed(order: Order) -> Shown
    requires { Sound order × (order.mpid < 10 ^ 6) × Quoted Bonds order }
    ensures { ShownFine Bonds result }
{
    Shown {
        id: Value::Stored { from: 32, len: 5 },
        ..known(1, order)
    }
}

// Order 2, with no account.
fn bare(order: Order) -> Shown
    requires { Sound order × (order.mpid < 10 ^ 6) × Quoted Bonds order }
    ensures { ShownFine Bonds result }
{
    Shown {
        capacity: b'P',
        class: 6,
        account: Value::Absent,
        ..known(2, order)
    }
}

// A buy of 1,200 at 0.100 for MPID 10, of which so much has executed, was decremented, was canceled.
fn buy(executed: u64, decremented: u64, canceled: u64, sum: u64) -> Order
    requires { AmountsFine Bonds 1200 executed decremented canceled sum }
    ensures { Sound result × (result.mpid < 10 ^ 6) × Quoted Bonds result }
{
    Order {
        side: 1,
        tif: 0,
        level: 1_000_000_100,
        qty: 1200,
        executed,
        decremented,
        canceled,
        sum,
        place: 5,
        mpid: 10,
        minqty: 0,
    }
}

// The same buy as an IOC with a MinQty of 300, of which nothing has executed.
fn least() -> Order
    ensures { Sound result × (result.mpid < 10 ^ 6) × Quoted Bonds result }
{
    Order {
        side: 1,
        tif: 3,
        level: 1_000_000_100,
        qty: 1200,
        executed: 0,
        decremented: 0,
        canceled: 0,
        sum: 0,
        place: 7,
        mpid: 10,
        minqty: 300,
    }
}

// The same buy as a Fill or Kill, canceled whole.
fn kill() -> Order
    ensures { Sound result × (result.mpid < 10 ^ 6) × Quoted Bonds result }
{
    Order {
        side: 1,
        tif: 4,
        level: 1_000_000_100,
        qty: 1200,
        executed: 0,
        decremented: 0,
        canceled: 1200,
        sum: 0,
        place: 8,
        mpid: 10,
        minqty: 0,
    }
}

// A sell of 500 with no MPID, IOC, of which so much has executed and was canceled.
fn sell(level: u64, executed: u64, canceled: u64, sum: u64) -> Order
    requires { (0 < level) × (level ≤ 1999999999) × AmountsFine Bonds 500 executed 0 canceled sum }
    ensures { Sound result × (result.mpid < 10 ^ 6) × Quoted Bonds result }
{
    Order {
        side: 2,
        tif: 3,
        level,
        qty: 500,
        executed,
        decremented: 0,
        canceled,
        sum,
        place: 6,
        mpid: 0,
        minqty: 0,
    }
}

pub fn accepted(out: &impl Print, q: Instrument, s: Stamp, o: Shown) -> Result<()>
    requires { StampFine q s × ShownFine q o }
{
    print(out, rows::accepted_row(s, o))
}

pub fn replaced(out: &impl Print, q: Instrument, s: Stamp, o: Shown, w: Ground) -> Result<()>
    requires { StampFine q s × ShownFine q o × GroundFine w }
{
    print(out, rows::replaced_row(s, o, w))
}

pub fn canceled(out: &impl Print, q: Instrument, s: Stamp, o: Shown, w: Ground) -> Result<()>
    requires { StampFine q s × ShownFine q o × GroundFine w }
{
    print(out, rows::canceled_row(s, o, w))
}

pub fn trade(out: &impl Print, q: Instrument, s: Stamp, o: Shown, f: Fill) -> Result<()>
    requires { StampFine q s × ShownFine q o × FillIn q f }
{
    print(out, rows::trade_row(s, o, f))
}

pub fn rejected(out: &impl Print, q: Instrument, s: Stamp, r: Refused) -> Result<()>
    requires { StampFine q s × RefusedIn r }
{
    print(out, rows::rejected_row(s, r))
}

pub fn unchanged(out: &impl Print, q: Instrument, s: Stamp, u: Unchanged) -> Result<()>
    requires { StampFine q s × UnchangedIn u }
{
    print(out, rows::cancel_reject_row(s, u))
}

pub fn faulty(out: &impl Print, q: Instrument, s: Stamp, f: Faulty) -> Result<()>
    requires { StampFine q s × FaultyIn f }
{
    print(out, rows::session_reject_row(s, f))
}

// A request's 41.
pub fn requested() -> Ground
    ensures { GroundFine result }
{
    Ground {
        orig: Value::Sent { from: 22, len: 5 },
        reason: Value::Absent,
    }
}

pub fn prevented() -> Ground
    ensures { GroundFine result }
{
    Ground {
        orig: Value::Absent,
        reason: Value::Number(100),
    }
}

fn decremented() -> Ground
    ensures { GroundFine result }
{
    Ground {
        orig: Value::Stored { from: 22, len: 5 },
        reason: Value::Number(100),
    }
}

pub fn expired() -> Ground
    ensures { GroundFine result }
{
    Ground {
        orig: Value::Absent,
        reason: Value::Number(99),
    }
}

// Orders that enter the book and are replaced.
fn book_samples(out: &impl Print) -> Result<()> {
    let q = Instrument::Bonds;
    accepted(out, q, stamp_sent(q, 1), known(1, buy(0, 0, 0, 0)))?;
    accepted(out, q, stamp_sent(q, 2), bare(sell(999_999_995, 0, 0, 0)))?;
    replaced(
        out,
        q,
        stamp_sent(q, 3),
        renamed(buy(0, 0, 0, 0)),
        requested(),
    )?;
    replaced(
        out,
        q,
        stamp_sent(q, 4),
        renamed(buy(300, 0, 0, 300_000_030_200)),
        requested(),
    )?;
    replaced(
        out,
        q,
        stamp(q, 5),
        known(1, buy(300, 200, 0, 300_000_030_200)),
        decremented(),
    )
}

// Orders that leave it: as requested, by prevention, and an IOC's rest.
fn cancel_samples(out: &impl Print) -> Result<()> {
    let q = Instrument::Bonds;
    canceled(
        out,
        q,
        stamp_sent(q, 6),
        renamed(buy(300, 0, 900, 300_000_030_200)),
        requested(),
    )?;
    canceled(
        out,
        q,
        stamp(q, 7),
        known(1, buy(300, 0, 900, 300_000_030_200)),
        prevented(),
    )?;
    canceled(
        out,
        q,
        stamp(q, 8),
        bare(sell(999_999_995, 300, 200, 299_999_998_500)),
        expired(),
    )
}

// A trade of the resting order and of the one in work, and the one in work's at a yield below zero.
fn trade_samples(out: &impl Print) -> Result<()> {
    let q = Instrument::Bonds;
    trade(
        out,
        q,
        stamp(q, 9),
        known(1, buy(300, 0, 0, 300_000_030_200)),
        Fill {
            quantity: 200,
            level: 1_000_000_100,
            other: 0,
            first: 9,
            liquidity: 1,
        },
    )?;
    trade(
        out,
        q,
        stamp(q, 10),
        bare(sell(1_000_000_105, 200, 0, 200_000_020_000)),
        Fill {
            quantity: 200,
            level: 1_000_000_100,
            other: 10,
            first: 9,
            liquidity: 2,
        },
    )?;
    trade(
        out,
        q,
        stamp(q, 12),
        bare(sell(999_999_995, 500, 0, 499_999_997_500)),
        Fill {
            quantity: 500,
            level: 999_999_995,
            other: 11,
            first: 11,
            liquidity: 2,
        },
    )
}

// A place of the message.
pub fn sent(start: usize, length: usize) -> Place
    ensures { result.length ≤ length }
{
    Place {
        sent: true,
        start,
        length,
    }
}

// What is refused: a new order whose 38 was 00042, a cancel of an unknown order, a replacement of a known one, a message.
fn refusal_samples(out: &impl Print) -> Result<()> {
    let q = Instrument::Bonds;
    let id = sent(17, 5);
    let orig = sent(22, 5);
    let code = sent(27, 3);
    let kind = sent(30, 1);
    rejected(
        out,
        q,
        stamp_sent(q, 13),
        Refused {
            id,
            quantity: 42,
            side: 1,
            code,
            reason: 99,
        },
    )?;
    unchanged(
        out,
        q,
        stamp_sent(q, 14),
        Unchanged {
            id,
            orderid: 0,
            status: 8,
            orig,
            reason: 1,
            response: 1,
        },
    )?;
    unchanged(
        out,
        q,
        stamp_sent(q, 15),
        Unchanged {
            id,
            orderid: 1,
            status: 1,
            orig,
            reason: 2,
            response: 2,
        },
    )?;
    faulty(
        out,
        q,
        stamp_sent(q, 16),
        Faulty {
            sequence: 7,
            tag: 38,
            kind,
            reason: 5,
        },
    )
}

// Orders that trade at once at least so much or nothing: one with a minimum enters, and one is killed, with the largest number.
fn minimum_samples(out: &impl Print) -> Result<()> {
    let q = Instrument::Bonds;
    accepted(out, q, stamp_sent(q, 17), known(17, least()))?;
    canceled(out, q, stamp(q, 999_999_999), known(18, kill()), expired())
}

// All samples of bonds.
fn all_bonds(out: &impl Print) -> Result<()> {
    book_samples(out)?;
    cancel_samples(out)?;
    trade_samples(out)?;
    refusal_samples(out)?;
    minimum_samples(out)
}

// All samples of a market.
pub fn all(out: &impl Print, q: Instrument) -> Result<()> {
    match q {
        Instrument::Bonds => all_bonds(out),
        Instrument::Equities => shares::all(out),
    }
}
