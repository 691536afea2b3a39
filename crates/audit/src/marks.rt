// Whether ClOrdIDs, places and OrderIDs are distinct: marks for the keys seen, and a comparison with all before only where the
// marks of a key are there already.
ghost use Rattle.std.specs.Prelude.{◌≡◌, ◌+◌, ◌<◌, ◌≤◌, true, not, ◌&&◌, ◌||◌, ◌==◌, length, IfSome, set, slice_index};
ghost use Rattle.table.specs.Places.{table_bytes};
ghost use Rattle.table.specs.Orders.{filled, book_of};
ghost use Rattle.table.specs.Market.{has_orders, is_fresh_id, has_ids, are_fresh, has_places, has_order_ids};
ghost use Rattle.audit.specs.Checking.{id_at, key_of, low_part, high_part, is_unseen, number_key, number_at};

use crate::rank::are_ranked;
use table::heading::next;
use table::places;
use table::record::{eight_at, four_at};

// The 32 bytes that a ClOrdID has room for, as four numbers.
#[derive(Clone, Copy, PartialEq, Eq)]
pub struct Id {
    pub a: u64,
    pub b: u64,
    pub c: u64,
    pub d: u64,
}

// The ClOrdID of record i, with the zeros behind it.
pub fn id_at(t: &[u8], i: usize) -> Id
    requires { (length t.now ≡ table_bytes) × (i < 256) }
    ensures { result ≡ id_at t.now i }
{
    let p = places::RECORD * i + 1;
    Id {
        a: eight_at(t, p),
        b: eight_at(t, p + 8),
        c: eight_at(t, p + 16),
        d: eight_at(t, p + 24),
    }
}

// The key of a ClOrdID.
fn key_of(x: Id) -> usize
    ensures { result ≡ key_of x }
{
    let first = x.a.wrapping_add(x.b);
    let last = x.c.wrapping_add(x.d);
    let s = first.wrapping_add(last);
    (s % 4294967296 * 1865102357 + s / 4294967296 * 1300110261) as usize
}

// A mark for each number below 2,048. One struct with all marks of a pass, or with the numbers seen, would be cleared at once, which takes more
// instructions.
#[derive(Drop)]
struct Marks {
    at: [u8; 2048],
}

impl Marks {
    // Whether k is marked.
    fn has(&self, k: usize) -> bool
        requires { k < 2048 }
        ensures { result ≡ not (slice_index self.now.at k == 0) }
    {
        self.at[k] != 0
    }

    // Marks k.
    fn put(&mut self, k: usize)
        requires { k < 2048 }
        ensures { self.new.at ≡ set self.old.at k 1 }
    {
        self.at[k] = 1;
    }
}

// The two parts of a key, each of which names a mark.
fn low_part(key: usize) -> usize
    ensures { (result ≡ low_part key) × (result < 2048) }
{
    key / 16777216 % 2048
}

fn high_part(key: usize) -> usize
    ensures { (result ≡ high_part key) × (result < 2048) }
{
    key / 34359738368 % 2048
}

// Whether the ClOrdID of record j + 1 is that of no record before it, j of n that are filled with orders. The first number is
// compared before the whole, since `==` reads all four of each record.
fn is_fresh_id(t: &[u8], n: usize, j: usize) -> bool
    requires { (length t.now ≡ table_bytes) × (n ≡ filled t.now) × (n ≤ 255) × (has_orders t.now ≡ true) × (j < n) }
    ensures { result ≡ is_fresh_id t.now j }
{
    let x = id_at(t, j + 1);
    for i in 0..j {
        let y = id_at(t, i + 1);
        if y.a != x.a {
            continue;
        }
        if y == x {
            return false;
        }
    }
    true
}

// Whether the ClOrdIDs of the n filled records, which are orders, are distinct, where their order shows it; that is looked at once, when the marks of
// 16 were there already, for only chosen ones have so many.
fn are_chosen(t: &[u8], n: usize, old: u64) -> Option<bool>
    requires { (length t.now ≡ table_bytes) × (n ≡ filled t.now) × (n ≤ 255) × (has_orders t.now ≡ true) × (0 < n) }
    ensures { IfSome result (λ distinct. distinct ≡ has_ids t.now) }
{
    if old != 16 {
        return None;
    }
    are_ranked(t, n)
}

// Whether the ClOrdIDs of the n filled records, which are orders, are distinct.
pub fn has_ids(t: &[u8], n: usize) -> bool
    requires { (length t.now ≡ table_bytes) × (n ≡ filled t.now) × (n ≤ 255) × (has_orders t.now ≡ true) }
    ensures { result ≡ has_ids t.now }
{
    if n == 0 {
        return true;
    }
    let mut low = Marks { at: [0; 2048] };
    let mut high = Marks { at: [0; 2048] };
    let mut old: u64 = 0;
    for j in 0..n {
        let key = key_of(id_at(t, j + 1));
        let a = low_part(key);
        let b = high_part(key);
        if low.has(a) & high.has(b) {
            old = old.wrapping_add(1);
            if let Some(distinct) = are_chosen(t, n, old) {
                return distinct;
            }
            if !is_fresh_id(t, n, j) {
                return false;
            }
        }
        low.put(a);
        high.put(b);
    }
    true
}

// Whether x is none of the first n numbers seen. There is no way out of the loop but its end, so that the compiler takes several a turn.
fn is_unseen(seen: &[u32; 256], n: usize, x: u32) -> bool
    requires { n ≤ 255 }
    ensures { result ≡ is_unseen seen.now x n }
{
    let mut unseen = true;
    for i in 0..n {
        unseen = unseen & (seen[i] != x);
    }
    unseen
}

// Whether the numbers at byte p of the first n records are distinct and below the next number.
fn are_fresh(t: &[u8], p: usize, n: usize, next: u64) -> bool
    requires { (length t.now ≡ table_bytes) × (p ≤ 124) × (n ≤ 255) }
    ensures { result ≡ are_fresh (number_at t.now p) next n }
{
    if n == 0 {
        return true;
    }
    let mut marks = Marks { at: [0; 2048] };
    let mut seen = [0u32; 256];
    for j in 0..n {
        let x = four_at(t, places::RECORD * (j + 1) + p);
        if next <= x {
            return false;
        }
        let key = (x % 2048) as usize;
        if marks.has(key) && !is_unseen(&seen, j, x as u32) {
            return false;
        }
        marks.put(key);
        seen[j] = x as u32;
    }
    true
}

// Whether the places of the n filled records are distinct and below the next number.
pub fn has_places(t: &[u8], n: usize, next: u64) -> bool
    requires { (length t.now ≡ table_bytes) × (n ≡ filled t.now) × (n ≤ 255) }
    ensures { result ≡ has_places (book_of t.now) next }
{
    are_fresh(t, places::PLACE, n, next)
}

// Whether the OrderIDs of the n filled records are.
pub fn has_order_ids(t: &[u8], n: usize) -> bool
    requires { (length t.now ≡ table_bytes) × (n ≡ filled t.now) × (n ≤ 255) }
    ensures { result ≡ has_order_ids t.now }
{
    are_fresh(t, places::ORDER_ID, n, next(t))
}
