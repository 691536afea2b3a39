// The levels of a side of a market in which nothing is in work: the best, the next behind it, the k-th, and what stands on one.
ghost use Rattle.std.specs.Prelude.{◌≡◌};
ghost use Rattle.matching.specs.Depth.{next, total, orders, depth};
ghost use Rattle.table.specs.Best.{stands_on};
ghost use Rattle.table.specs.Orders.{filled, book_of};
ghost use Rattle.table.specs.Facts.{Market};

use crate::ladder::level_of;
use matching::Level;
use table::best::stands_on;
use table::ids::count;
use table::record::load;

// The best level of a side behind level x; 0 if there is none, as the definition has it: level 0 also begins the walk over a side.
pub fn next_level(t: &[u8], n: usize, side: u64, x: u64) -> u64
    requires { Market t.now × (n ≡ filled t.now) }
    ensures { result ≡ next (book_of t.now) side x n }
{
    let mut c = 0;
    for i in 0..n {
        c = load(t, i + 1).nearer(side, x, c);
    }
    c
}

// What stands on a level of a side, for Depth and for the program book.
pub fn sums(t: &[u8], n: usize, side: u64, level: u64) -> Level
    requires { Market t.now × (n ≡ filled t.now) }
    ensures { (result.total ≡ total (book_of t.now) side level) × (result.orders ≡ orders (book_of t.now) side level) × (result ≡ stands_on (book_of t.now) side level) }
{
    stands_on(t, n, side, level)
}

// The k-th level of a side from the best, with its total open quantity and its number of orders, or that there is none.
pub(crate) fn level(t: &[u8], side: u64, k: u64) -> Option<Level>
    requires { Market t.now }
    ensures { result ≡ depth (book_of t.now) side k }
{
    let n = count(t);
    let level = level_of(t, n, side, k)?;
    Some(sums(t, n, side, level))
}
