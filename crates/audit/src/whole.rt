// Whether a table is a market: all the clauses.
ghost use Rattle.std.specs.Prelude.{◌≡◌, ◌≤◌, true, ◌&&◌, length};
ghost use Rattle.table.specs.Places.{table_bytes};
ghost use Rattle.table.specs.Heading.{next_of, work_of, decided_of};
ghost use Rattle.table.specs.Orders.{filled, book_of};
ghost use Rattle.table.specs.Market.{has_settings, has_next, has_work, has_kind, rest_zero, has_orders, is_book, has_decision, has_best, is_market, is_market_of};

use crate::book::{has_decision, is_book};
use crate::checks::{has_kind, has_next, has_settings, has_work};
use crate::marks::{has_ids, has_order_ids};
use crate::sound::has_orders;
use decimal::Instrument;
use table::book::filled;
use table::entries::entries;
use table::heading::{decided, instrument, kind_number, next, work};
use table::places;

// Whether the heading is one of a market, each of the n filled records is an order, and nothing stands behind them.
fn has_records(t: &[u8], n: usize) -> bool
    requires { (length t.now ≡ table_bytes) × (n ≡ filled t.now) × (n ≤ 255) }
    ensures { result ≡ (has_settings t.now && has_next t.now && has_work t.now && has_kind t.now && rest_zero t.now && has_orders t.now) }
{
    let q = instrument(t);
    let m = entries(t);
    has_settings(q, t, m)
        & has_next(t)
        & has_work(t, n)
        & has_kind(t)
        & octets::rest_zero(t, places::RECORD * (n + 1))
        & has_orders(q, t, m, n)
}

// Whether the book of the n filled records is one of a market, the decision one that the order in work can have, and the best levels
// those of the book.
fn has_book(t: &[u8], n: usize) -> bool
    requires { (length t.now ≡ table_bytes) × (n ≡ filled t.now) × (n ≤ 255) × (work_of t.now ≤ n) × (has_orders t.now ≡ true) }
    ensures { result ≡ (is_book (book_of t.now) (work_of t.now) (next_of t.now) && has_decision (book_of t.now) (work_of t.now) (decided_of t.now) && has_best t.now) }
{
    let w = work(t);
    is_book(t, n, w, next(t)) & has_decision(t, n, w, decided(t))
}

// Whether these bytes are a market.
pub fn is_market(t: &[u8]) -> bool
    ensures { result ≡ is_market t.now }
{
    if t.len() != places::TABLE {
        return false;
    }
    let n = filled(t);
    if !has_records(t, n) {
        return false;
    }
    has_ids(t, n) & has_order_ids(t, n) & has_book(t, n)
}

// Whether they are a market of bonds, or one of equities.
pub fn is_market_of(q: Instrument, t: &[u8]) -> bool
    ensures { result ≡ is_market_of q t.now }
{
    if !is_market(t) {
        return false;
    }
    t[places::KIND] == kind_number(q)
}
