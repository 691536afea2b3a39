// The best level of each side: worked out from the book, and written to the heading. Of a record only what decides is read.
ghost use Rattle.std.specs.Prelude.{None, ◌≡◌, cond, ◌+◌, ◌*◌, ◌≤◌, ◌<◌, eqb, length};
ghost use Rattle.octets.specs.Octets.{put};
ghost use Rattle.matching.specs.Matching.{open_of};
ghost use Rattle.matching.specs.Depth.{on_side, nearer, next, on_level, share};
ghost use Rattle.table.specs.Places.{table_bytes};
ghost use Rattle.table.specs.Orders.{order_at, filled, book_of};
ghost use Rattle.table.specs.Best.{in_numbers, best_on, stands_on, best_at, orders_bytes, levels_bytes, totals_bytes, best_row, put_best, clear_best};

use crate::book::filled;
use crate::places;
use crate::record::{buys_at, four_at, level_at, open_at};
use matching::{Level, ahead};

// One of each side.
#[derive(Clone, Copy)]
struct Sides<T> {
    buy: T,
    sell: T,
}

// Whether record i is of a side, 1 the buys and any other the sells.
pub fn on_side_at(t: &[u8], i: usize, side: u64) -> bool
    requires { (length t.now ≡ table_bytes) × (i < 256) }
    ensures { result ≡ on_side side (order_at t.now i) }
{
    buys_at(t, i) == (side == 1)
}

// Of level c, found so far (0 for none), and that of record i, the nearer to the best.
fn nearer_at(t: &[u8], i: usize, side: u64, c: u64) -> u64
    requires { (length t.now ≡ table_bytes) × (i < 256) }
    ensures { result ≡ nearer side 0 c (order_at t.now i) }
{
    if !on_side_at(t, i, side) {
        return c;
    }
    let level = level_at(t, i);
    if !((c == 0) | ahead(side, level, c)) {
        return c;
    }
    if open_at(t, i) {
        return level;
    }
    c
}

// The best level of each side among the n filled records; 0 if there is none.
fn best_levels(t: &[u8], n: usize) -> Sides<u64>
    requires { (length t.now ≡ table_bytes) × (n ≡ filled t.now) }
    ensures { (result.buy ≡ next (book_of t.now) 1 0 n) × (result.sell ≡ next (book_of t.now) 2 0 n) }
{
    let mut buy = 0;
    let mut sell = 0;
    for k in 0..n {
        buy = nearer_at(t, k + 1, 1, buy);
        sell = nearer_at(t, k + 1, 2, sell);
    }
    Sides { buy, sell }
}

// What is open of record i.
fn open_of_at(t: &[u8], i: usize) -> u64
    requires { (length t.now ≡ table_bytes) × (i < 256) }
    ensures { (result ≡ open_of (order_at t.now i)) × (result < 4294967296) }
{
    let b = places::RECORD * i;
    let executed = four_at(t, b + places::EXECUTED);
    let decremented = four_at(t, b + places::DECREMENTED);
    let canceled = four_at(t, b + places::CANCELED);
    let qty = four_at(t, b + places::QTY);
    qty.saturating_sub(executed + decremented + canceled)
}

// What record i adds to the total of a level of a side.
fn share_at(t: &[u8], i: usize, side: u64, level: u64) -> u64
    requires { (length t.now ≡ table_bytes) × (i < 256) }
    ensures { (result ≡ share side level (order_at t.now i)) × (result < 4294967296) }
{
    if !on_side_at(t, i, side) {
        return 0;
    }
    if level_at(t, i) != level {
        return 0;
    }
    open_of_at(t, i)
}

// A level of a side, with what record i adds to it.
fn with_record(t: &[u8], i: usize, side: u64, b: Level) -> Level
    requires { (length t.now ≡ table_bytes) × (i < 256) × (b.total ≤ 1099511627776) × (b.orders ≤ 255) }
    ensures { (result.level ≡ b.level) × (result.total ≡ b.total + share side b.level (order_at t.now i))
        × (result.orders ≡ b.orders + cond (on_level side b.level (order_at t.now i)) 1 0) × (result.total ≤ b.total + 4294967295) }
{
    let x = share_at(t, i, side, b.level);
    if x == 0 {
        return b;
    }
    let total = b.total + x;
    Level {
        total,
        orders: b.orders + 1,
        ..b
    }
}

// A level on which nothing stands yet.
fn bare(level: u64) -> Level
    ensures { (result.level ≡ level) × (result.total ≡ 0) × (result.orders ≡ 0) }
{
    Level {
        level,
        total: 0,
        orders: 0,
    }
}

// What stands on a level of a side, of the n filled records.
pub fn stands_on(t: &[u8], n: usize, side: u64, level: u64) -> Level
    requires { (length t.now ≡ table_bytes) × (n ≡ filled t.now) }
    ensures { result ≡ stands_on (book_of t.now) side level }
{
    let mut b = bare(level);
    for k in 0..n {
        b = with_record(t, k + 1, side, b);
    }
    b
}

// What stands on a level of the buys and on one of the sells, of the n filled records.
fn both_stand(t: &[u8], n: usize, buy: u64, sell: u64) -> Sides<Level>
    requires { (length t.now ≡ table_bytes) × (n ≡ filled t.now) }
    ensures { (result.buy ≡ stands_on (book_of t.now) 1 buy) × (result.sell ≡ stands_on (book_of t.now) 2 sell) }
{
    let mut b = bare(buy);
    let mut s = bare(sell);
    for k in 0..n {
        b = with_record(t, k + 1, 1, b);
        s = with_record(t, k + 1, 2, s);
    }
    Sides { buy: b, sell: s }
}

// What stands on a level, or zeros where that is none.
fn or_none(b: Level) -> Level
    ensures { result ≡ cond (eqb b.level 0) (in_numbers None) b }
{
    if b.level == 0 {
        return bare(0);
    }
    b
}

// The best level of each side of the book, of the n filled records.
fn bests_of(t: &[u8], n: usize) -> Sides<Level>
    requires { (length t.now ≡ table_bytes) × (n ≡ filled t.now) }
    ensures { (result.buy ≡ best_on (book_of t.now) 1) × (result.sell ≡ best_on (book_of t.now) 2) }
{
    let l = best_levels(t, n);
    let b = both_stand(t, n, l.buy, l.sell);
    let buy = or_none(b.buy);
    let sell = or_none(b.sell);
    Sides { buy, sell }
}

// The best level of a side that the heading keeps.
pub fn best_at(t: &[u8], side: u64) -> Level
    requires { length t.now ≡ table_bytes }
    ensures { result ≡ best_at t.now side }
{
    if side == 1 {
        return Level {
            level: octets::le_at(t, places::BUY_LEVEL, 4),
            total: octets::le_at(t, places::BUY_TOTAL, 8),
            orders: octets::wide(t[places::BUY_ORDERS]),
        };
    }
    Level {
        level: octets::le_at(t, places::SELL_LEVEL, 4),
        total: octets::le_at(t, places::SELL_TOTAL, 8),
        orders: octets::wide(t[places::SELL_ORDERS]),
    }
}

// Writes the numbers of orders from place p on.
fn write_orders(t: &mut [u8], p: usize, buy: Level, sell: Level)
    requires { p + 3 ≤ length t.old }
    ensures { t.new ≡ put t.old p (orders_bytes buy sell) }
{
    octets::put_le(t, p, 1, buy.orders);
    octets::put_le(t, p + 1, 1, sell.orders);
    octets::put_zeros(t, p + 2, 1);
}

// Writes the levels from place p on.
fn write_levels(t: &mut [u8], p: usize, buy: Level, sell: Level)
    requires { p + 12 ≤ length t.old }
    ensures { t.new ≡ put t.old p (levels_bytes buy sell) }
{
    octets::put_le(t, p, 4, buy.level);
    octets::put_le(t, p + 4, 4, sell.level);
    octets::put_zeros(t, p + 8, 4);
}

// Writes the totals from place p on.
fn write_totals(t: &mut [u8], p: usize, buy: Level, sell: Level)
    requires { p + 16 ≤ length t.old }
    ensures { t.new ≡ put t.old p (totals_bytes buy sell) }
{
    octets::put_le(t, p, 8, buy.total);
    octets::put_le(t, p + 8, 8, sell.total);
}

// Writes the best levels of both sides from place p on.
pub fn write_best(t: &mut [u8], p: usize, buy: Level, sell: Level)
    requires { p + 31 ≤ length t.old }
    ensures { t.new ≡ put t.old p (best_row buy sell) }
{
    write_orders(t, p, buy, sell);
    write_levels(t, p + 3, buy, sell);
    write_totals(t, p + 15, buy, sell);
}

// Puts the best levels of the book in the heading.
pub fn put_best(t: &mut [u8])
    requires { length t.old ≡ table_bytes }
    ensures { t.new ≡ put_best t.old }
{
    let n = filled(t);
    let b = bests_of(t, n);
    write_best(t, places::BEST, b.buy, b.sell);
}

// Clears them, for an order in work.
pub fn clear_best(t: &mut [u8])
    requires { length t.old ≡ table_bytes }
    ensures { t.new ≡ clear_best t.old }
{
    octets::put_zeros(t, places::BEST, places::BEST_BYTES);
}
