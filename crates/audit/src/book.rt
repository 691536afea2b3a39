// Whether a table is a market: the clauses on the book and the order in work.
ghost use Rattle.std.specs.Prelude.{◌≡◌, ◌+◌, ◌<◌, ◌≤◌, true, ◌&&◌, length, if◌then◌else◌, nat_eq};
ghost use Rattle.matching.specs.Matching.{count_of, opposed};
ghost use Rattle.octets.specs.Octets.{part_at, same_bytes};
ghost use Rattle.table.specs.Places.{table_bytes, best_byte, best_bytes};
ghost use Rattle.table.specs.Heading.{work_of};
ghost use Rattle.table.specs.Orders.{order_at, filled, book_of};
ghost use Rattle.table.specs.Market.{has_orders, has_numbers, is_book, has_decision, has_best};
ghost use Rattle.audit.specs.Widths.{Narrow, Roomy, RoomySides};
ghost use Rattle.audit.specs.Checking.{with_open, with_order, sides_of, row_of};

use crate::marks::has_places;
use crate::sound::{has_open, order_at, used};
use matching::{Level, Order, ahead};
use table::best::write_best;
use table::places;
use table::record::load;

// The best level of each side, and whether no IOC and no Fill or Kill is open.
#[derive(Clone, Copy)]
pub struct Sides {
    pub buy: Level,
    pub sell: Level,
    pub done: bool,
}

// The best level of a side so far, c, with an order on a level of it of which x is open.
fn with_open(side: u64, c: Level, level: u64, x: u64) -> Level
    requires { Roomy c × (x < 4294967296) }
    ensures { result ≡ with_open side c level x }
{
    if (c.level == 0) | ahead(side, level, c.level) {
        return Level {
            level,
            total: x,
            orders: 1,
        };
    }
    if level == c.level {
        return Level {
            level,
            total: c.total + x,
            orders: c.orders + 1,
        };
    }
    c
}

// Both sides so far, with one order more.
fn with_order(s: Sides, o: Order) -> Sides
    requires { RoomySides s × Narrow o }
    ensures { result ≡ with_order s o }
{
    let used = used(o);
    if o.qty <= used {
        return s;
    }
    let buy = s.buy;
    let sell = s.sell;
    let done = s.done & !o.is_immediate();
    if o.side == 1 {
        let more = with_open(1, buy, o.level, o.qty - used);
        return Sides {
            buy: more,
            sell,
            done,
        };
    }
    let more = with_open(2, sell, o.level, o.qty - used);
    Sides {
        buy,
        sell: more,
        done,
    }
}

// Both sides so far, with record k unless it is order w.
fn with_record(t: &[u8], k: usize, w: usize, s: Sides) -> Sides
    requires { (length t.now ≡ table_bytes) × (k < 256) × RoomySides s }
    ensures { result ≡ (if nat_eq k w then s else with_order s (order_at t.now k)) }
{
    if k == w {
        return s;
    }
    with_order(s, order_at(t, k))
}

// Both sides of the n filled records, apart from order w.
fn both_sides(t: &[u8], n: usize, w: usize) -> Sides
    requires { (length t.now ≡ table_bytes) × (n ≡ filled t.now) × (n ≤ 255) }
    ensures { result ≡ sides_of (book_of t.now) w n }
{
    let none = Level {
        level: 0,
        total: 0,
        orders: 0,
    };
    let mut s = Sides {
        buy: none,
        sell: none,
        done: true,
    };
    for k in 0..n {
        s = with_record(t, k + 1, w, s);
    }
    s
}

// One more than had if r is open and opposite to o, else had.
fn count_with(had: u64, o: Order, r: Order) -> u64
    requires { (had < 1000) × Narrow r }
    ensures { result ≡ had + (if opposed o r then 1 else 0) }
{
    if has_open(r) & o.opposite(r) {
        had + 1
    } else {
        had
    }
}

// How many of the n filled records are open and opposite to o.
pub fn opposed_to(t: &[u8], n: usize, o: Order) -> u64
    requires { (length t.now ≡ table_bytes) × (n ≡ filled t.now) × (n ≤ 255) }
    ensures { (result ≡ count_of (opposed o) (book_of t.now) n) × (result ≤ n) }
{
    let mut c: u64 = 0;
    for k in 0..n {
        c = count_with(c, o, order_at(t, k + 1));
    }
    c
}

// Whether the numbers that the order in work, w, can still need are there.
fn has_numbers(t: &[u8], n: usize, w: usize, next: u64) -> bool
    requires { (length t.now ≡ table_bytes) × (n ≡ filled t.now) × (n ≤ 255) × (next < 4294967296) }
    ensures { result ≡ has_numbers (book_of t.now) w next }
{
    if w == 0 {
        return true;
    }
    if n < w {
        return true;
    }
    let o = order_at(t, w);
    if !has_open(o) {
        return true;
    }
    next + 2 * opposed_to(t, n, o) + 1 <= 1000000000
}

// Whether the decision, d, is one that the order in work, w, can have.
pub fn has_decision(t: &[u8], n: usize, w: usize, d: u64) -> bool
    requires { (length t.now ≡ table_bytes) × (n ≡ filled t.now) × (n ≤ 255) }
    ensures { result ≡ has_decision (book_of t.now) w d }
{
    if d == 0 {
        return true;
    }
    if w == 0 {
        return false;
    }
    if n < w {
        return false;
    }
    (d == 1) & (0 < load(t, w).minimum_of())
}

// Whether the heading keeps the best levels of these sides, or zeros while an order, w, is in work.
fn has_best(t: &[u8], w: usize, s: Sides) -> bool
    ensures { result ≡ same_bytes (part_at t.now best_byte best_bytes) (row_of w s) }
{
    let kept = octets::part_at(t, places::BEST, places::BEST_BYTES);
    let mut row = [0u8; places::BEST_BYTES];
    if w != 0 {
        return octets::same(kept, &row);
    }
    let buy = s.buy;
    let sell = s.sell;
    write_best(&mut row, 0, buy, sell);
    octets::same(kept, &row)
}

// Whether the book of the n filled records is one of a market, with order w in work, and the best levels are those of the book.
pub fn is_book(t: &[u8], n: usize, w: usize, next: u64) -> bool
    requires { (length t.now ≡ table_bytes) × (n ≡ filled t.now) × (n ≤ 255) × (next < 4294967296) × (w ≡ work_of t.now) × (w ≤ n) × (has_orders t.now ≡ true) }
    ensures { result ≡ (is_book (book_of t.now) w next && has_best t.now) }
{
    let s = both_sides(t, n, w);
    let buy = s.buy.level;
    let sell = s.sell.level;
    has_places(t, n, next)
        & s.done
        & ((buy == 0) | (sell < buy))
        & has_numbers(t, n, w, next)
        & has_best(t, w, s)
}
