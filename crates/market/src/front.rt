// The heading of a table by itself: whether it is in its ranges, and the best level that it keeps. No record is looked at.
ghost use Rattle.std.specs.Prelude.{◌≡◌, length, cond};
ghost use Rattle.matching.specs.Matching.{buys};
ghost use Rattle.table.specs.Places.{table_bytes};
ghost use Rattle.table.specs.Best.{best_at, in_words};
ghost use Rattle.table.specs.Market.{is_of};
ghost use Rattle.market.specs.Top.{is_none, is_best, has_levels, has_note, has_gaps, has_heading};

use audit::checks::{has_next, has_settings, has_stamp, zeros_at};
use decimal::Instrument;
use matching::Level;
use table::best::best_at;
use table::entries::entries;
use table::heading::{decided, kind_number, work};
use table::places;

// The best level of each side that a heading keeps, read once.
#[derive(Clone, Copy)]
pub(crate) struct Kept {
    buy: Level,
    sell: Level,
}

impl Kept {
    // Those of a table.
    pub(crate) fn of(t: &[u8]) -> Kept
        requires { length t.now ≡ table_bytes }
        ensures { (result.buy ≡ best_at t.now 1) × (result.sell ≡ best_at t.now 2) }
    {
        Kept {
            buy: best_at(t, 1),
            sell: best_at(t, 2),
        }
    }

    // That of a side, 1 the buys and any other the sells.
    pub(crate) fn of_side(self, side: u64) -> Level
        ensures { result ≡ cond (buys side) self.buy self.sell }
    {
        if side == 1 { self.buy } else { self.sell }
    }
}

// Whether the numbers say that there is no level. The three are tested with no branch between them.
fn is_none(b: Level) -> bool
    ensures { result ≡ is_none b }
{
    (b.level == 0) & (b.total == 0) & (b.orders == 0)
}

// Whether they do, or are those of a level.
fn is_best(q: Instrument, b: Level) -> bool
    ensures { result ≡ is_best q b }
{
    if is_none(b) {
        return true;
    }
    if 255 < b.orders {
        return false;
    }
    (1 <= b.orders)
        & (1 <= b.level)
        & (b.level <= q.highest())
        & (b.orders <= b.total)
        & (b.total <= b.orders * 999999999)
}

// Whether both best levels that the heading keeps are such, and none while an order is in work.
fn has_levels(q: Instrument, t: &[u8], kept: Kept) -> bool
    requires { (length t.now ≡ table_bytes) × (kept.buy ≡ best_at t.now 1) × (kept.sell ≡ best_at t.now 2) }
    ensures { result ≡ has_levels q t.now }
{
    if work(t) == 0 {
        return is_best(q, kept.buy) & is_best(q, kept.sell);
    }
    is_none(kept.buy) & is_none(kept.sell)
}

// Whether the decision is one that a heading can have.
fn has_note(t: &[u8]) -> bool
    requires { length t.now ≡ table_bytes }
    ensures { result ≡ has_note t.now }
{
    let d = decided(t);
    (d == 0) | ((d == 1) & (0 < work(t)))
}

// Whether the bytes among the best levels that nothing uses are zero.
fn has_gaps(t: &[u8]) -> bool
    requires { length t.now ≡ table_bytes }
    ensures { result ≡ has_gaps t.now }
{
    zeros_at(t, places::ORDERS_SPARE, 1) & zeros_at(t, places::LEVELS_SPARE, 4)
}

// Whether the heading notes that the market trades this.
fn is_of(q: Instrument, t: &[u8]) -> bool
    requires { length t.now ≡ table_bytes }
    ensures { result ≡ is_of q t.now }
{
    t[places::KIND] == kind_number(q)
}

// Whether the heading is one of such a market, and in its ranges; with the best levels that it keeps.
pub(crate) fn has_heading(q: Instrument, t: &[u8], kept: Kept) -> bool
    requires { (length t.now ≡ table_bytes) × (kept.buy ≡ best_at t.now 1) × (kept.sell ≡ best_at t.now 2) }
    ensures { result ≡ has_heading q t.now }
{
    if !is_of(q, t) {
        return false;
    }
    let n = entries(t);
    has_settings(q, t, n)
        & has_next(t)
        & has_stamp(t)
        & has_note(t)
        & has_gaps(t)
        & has_levels(q, t, kept)
}

// The level that the numbers say, or that there is none.
pub(crate) fn in_words(b: Level) -> Option<Level>
    ensures { result ≡ in_words b }
{
    if b.orders == 0 { None } else { Some(b) }
}
