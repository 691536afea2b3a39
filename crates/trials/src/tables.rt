// Broken tables, of bonds or of equities: each line is tried on a table of its own, built through opening and the stores and broken in one
// byte; what is left is a market or not. A line is a place (five digits), a value (three digits) and what that breaks; it is written back with the answer. A
// line that starts with `#` says what those after it are for, and is written as it is.
ghost use Rattle.std.specs.Prelude.{◌≡◌, ◌≤◌, ◌<◌, length};
ghost use Rattle.table.specs.Facts.{InBytes};

use audit::is_market;
use decimal::Instrument;
use decimal::read::read_number;
use matching::Order;
use octets::part_at;
use std::io::Result;
use table::best::{clear_best, put_best};
use table::heading::{put_next, put_work};
use table::opening::open_table;
use table::record::{Marks, accept};

// A new order.
fn order(side: u64, tif: u64, level: u64, qty: u64, place: u64, mpid: u64, minqty: u64) -> Order
    ensures { (result.side ≡ side) × (result.tif ≡ tif) }
{
    Order {
        side,
        tif,
        level,
        qty,
        executed: 0,
        decremented: 0,
        canceled: 0,
        sum: 0,
        place,
        mpid,
        minqty,
    }
}

// How a market quotes the orders of its table: the side of the sell, and the levels of the resting sell, of the resting buy, and of the
// buy that meets the sell.
#[derive(Clone, Copy)]
struct Quotes {
    side: u64,
    sell: u64,
    buy: u64,
    meets: u64,
}

// A sell at 0.101 and buys at 0.102 and 0.100; or a short sell at 100.2 and buys at 100.1 and 100.3.
fn quoted(q: Instrument) -> Quotes
    ensures { result.side < 256 }
{
    match q {
        Instrument::Bonds => Quotes {
            side: 2,
            sell: 1_000_000_101,
            buy: 1_000_000_102,
            meets: 1_000_000_100,
        },
        Instrument::Equities => Quotes {
            side: 5,
            sell: 999_998_998,
            buy: 999_998_999,
            meets: 999_998_997,
        },
    }
}

// The marks of an order; one of bonds has no CashMargin and no MarginTransactionType.
fn marks(q: Instrument, capacity: u64, class: u64, cash: u64, margin: u64) -> Marks
    requires { (capacity < 256) × (class < 256) × (cash < 256) × (margin < 256) }
    ensures { InBytes result }
{
    match q {
        Instrument::Bonds => Marks {
            capacity,
            class,
            cash: 0,
            margin: 0,
        },
        Instrument::Equities => Marks {
            capacity,
            class,
            cash,
            margin,
        },
    }
}

// A resting sell of 100, opened on margin, with OrderID 1.
fn resting_sell(q: Instrument, t: &mut [u8])
    requires { length t.old ≡ 32768 }
{
    let at = quoted(q);
    accept(
        t,
        1,
        1,
        b"S1",
        b"ACC",
        marks(q, 80, 1, 2, 1),
        order(at.side, 0, at.sell, 100, 1, 11, 0),
    );
}

// A resting buy of 50, for cash, with OrderID 2.
fn resting_buy(q: Instrument, t: &mut [u8])
    requires { length t.old ≡ 32768 }
{
    let at = quoted(q);
    accept(
        t,
        2,
        2,
        b"B1",
        b"",
        marks(q, 65, 3, 1, 0),
        order(1, 0, at.buy, 50, 2, 0, 0),
    );
}

// A buy of 70, which meets the sell, of this time in force and MinQty, with OrderID 3.
fn meeting(q: Instrument, t: &mut [u8], tif: u64, minqty: u64)
    requires { (length t.old ≡ 32768) × (tif < 256) }
{
    let at = quoted(q);
    accept(
        t,
        3,
        3,
        b"B2",
        b"",
        marks(q, 65, 3, 3, 0),
        order(1, tif, at.meets, 70, 3, 10, minqty),
    );
}

// A market with the two resting orders and their levels as the best ones.
fn at_rest(q: Instrument, t: &mut [u8])
    requires { length t.old ≡ 32768 }
{
    let mpids = [10u64, 11];
    let modes = [1u64, 3];
    let _ = open_table(q, t, b"V", b"P", b"350", 1, &mpids, &modes);
    resting_sell(q, t);
    resting_buy(q, t);
    put_next(t, 4);
    put_best(t);
}

// On such a market, the buy that meets the sell, in work, and so no best levels.
fn in_work(q: Instrument, t: &mut [u8], tif: u64, minqty: u64)
    requires { (length t.old ≡ 32768) × (tif < 256) }
{
    meeting(q, t, tif, minqty);
    put_work(t, 3, b"20260105-09:00:00");
    clear_best(t);
}

// What is in work on the table of a section: an IOC without MinQty, an IOC with MinQty 20, a Fill or Kill, or nothing.
#[derive(Clone, Copy)]
pub enum Working {
    Immediate,
    Minimum,
    FillOrKill,
    Nothing,
}

// The table of a section. The market is opened at one place for all of them: with that in line the compiler clears the table once.
fn build(q: Instrument, t: &mut [u8], working: Working)
    requires { length t.old ≡ 32768 }
{
    at_rest(q, t);
    match working {
        Working::Immediate => in_work(q, t, 3, 0),
        Working::Minimum => in_work(q, t, 3, 20),
        Working::FillOrKill => in_work(q, t, 4, 0),
        Working::Nothing => (),
    }
}

// The number that n digits at a place of a line say, and 0 where they are none.
fn said(s: &[u8], at: usize, n: usize) -> u64 {
    read_number(part_at(s, at, n), 9).unwrap_or(0)
}

// Whether the table is a market with another value at place p, which it keeps.
fn with_byte(t: &mut [u8], p: usize, v: u8) -> bool {
    match t.get_mut(p) {
        Some(byte) => *byte = v,
        None => return false,
    }
    is_market(t)
}

// Writes a line with its answer. By itself, since whoever it were part of would have a table on its stack for lines that need none.
#[inline(never)]
fn answer(out: &impl Print, q: Instrument, s: &[u8], working: Working) -> Result<()> {
    let p = said(s, 0, 5) as usize;
    let v = (said(s, 6, 3) % 256) as u8;
    let mut t = [0u8; 32768];
    build(q, &mut t, working);
    out.write_all(s)?;
    if with_byte(&mut t, p, v) {
        out.write_all(b": market\n")
    } else {
        out.write_all(b": no market\n")
    }
}

// Writes a heading, or a line with its answer.
pub fn line(out: &impl Print, q: Instrument, s: &[u8], working: Working) -> Result<()> {
    match s {
        [] => Ok(()),
        [b'#', ..] => {
            out.write_all(s)?;
            out.write_all(b"\n")
        }
        _ => answer(out, q, s, working),
    }
}
