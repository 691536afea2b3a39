// What is printed for a table: a heading, then a line for each level, the buys before the sells, the best first. It is written into a
// buffer, and not through Display, since what Display writes no contract can name, and the program's contract names each byte.
ghost use Rattle.std.specs.Prelude.{◌≡◌, ◌+◌, ◌≤◌, ◌<◌, length};
ghost use Rattle.octets.specs.Written.{Room, Wrote};
ghost use Rattle.table.specs.Heading.{instrument_of};
ghost use Rattle.table.specs.Orders.{filled, book_of};
ghost use Rattle.table.specs.Facts.{Market};
ghost use Rattle.book.specs.Sheet.{heading, figure, level_line, side_lines, both_sides, sheet_of};

use audit::is_market_of;
use decimal::Instrument;
use decimal::write::{put_byte, put_decimal, put_level};
use market::levels::{next_level, sums};
use octets::copy_into;
use table::book::filled;
use table::heading::work;

// A number, and the character behind it.
fn put_figure(out: &mut [u8], at: usize, n: u64, mark: u8) -> usize
    requires { Room out.old at (figure n mark) }
    ensures { Wrote out.old at (figure n mark) result out.new }
{
    let a = put_decimal(out, at, n);
    put_byte(out, a, mark)
}

// The words at the top, which take 27 bytes.
fn put_heading(out: &mut [u8], at: usize, q: Instrument) -> usize
    requires { at + 27 ≤ length out.old }
    ensures { Wrote out.old at (heading q) result out.new }
{
    match q {
        Instrument::Bonds => copy_into(out, at, b"side yield quantity orders\n"),
        Instrument::Equities => copy_into(out, at, b"side price quantity orders\n"),
    }
}

// The line of a level.
fn put_line(
    out: &mut [u8],
    at: usize,
    q: Instrument,
    side: u64,
    level: u64,
    total: u64,
    orders: u64,
) -> usize
    requires { Room out.old at (level_line q side level total orders) }
    ensures { Wrote out.old at (level_line q side level total orders) result out.new }
{
    let a = put_figure(out, at, side, b' ');
    let b = put_level(out, a, q, level);
    let c = put_byte(out, b, b' ');
    let d = put_figure(out, c, total, b' ');
    put_figure(out, d, orders, b'\n')
}

// The lines of a side, which take at most 32 bytes each.
fn put_side(q: Instrument, t: &[u8], n: usize, out: &mut [u8], at: usize, side: u64) -> usize
    requires { Market t.now × (instrument_of t.now ≡ q) × (n ≡ filled t.now) × (side < 10) × (at + 8160 ≤ length out.old) }
    ensures { Wrote out.old at (side_lines q (book_of t.now) side) result out.new }
{
    let mut next = at;
    let mut x = next_level(t, n, side, 0);
    for _ in 0..n {
        if x == 0 {
            return next;
        }
        let s = sums(t, n, side, x);
        next = put_line(out, next, q, side, x, s.total, s.orders);
        x = next_level(t, n, side, x);
    }
    next
}

// The lines of both sides, the buys first.
fn put_sides(q: Instrument, t: &[u8], out: &mut [u8], at: usize) -> usize
    requires { Market t.now × (instrument_of t.now ≡ q) × (at + 16320 ≤ length out.old) }
    ensures { Wrote out.old at (both_sides q (book_of t.now)) result out.new }
{
    let n = filled(t);
    let a = put_side(q, t, n, out, at, 1);
    put_side(q, t, n, out, a, 2)
}

// The sheet of a table, whatever its bytes: its length is given back, and the rest of out stays. The heading and 255 lines for
// each side always fit.
pub fn write_sheet(q: Instrument, t: &[u8], out: &mut [u8]) -> usize
    requires { 16384 ≤ length out.old }
    ensures { Wrote out.old 0 (sheet_of q t.now) result out.new }
{
    let at = put_heading(out, 0, q);
    if !is_market_of(q, t) {
        return at;
    }
    if 0 < work(t) {
        return at;
    }
    put_sides(q, t, out, at)
}
