// The orders that the order in work meets: the turn of each is noted once, by its record, and the best of them is the first in
// turn, again and again as one after the other is passed. So that few turns are looked at, the first of every sixteen is noted too. The turns and
// the firsts are arrays of the caller, and no struct with methods: a struct that owns them is copied when it is made, 2,048 bytes at each Run.
ghost use Rattle.std.specs.Prelude.{◌≡◌, true, false, cond, ◌+◌, ◌≤◌, ◌<◌, eqb, ltb, length, get_or, set};
ghost use Rattle.matching.specs.Matching.{is_buy, best, partner};
ghost use Rattle.table.specs.Heading.{work_of};
ghost use Rattle.table.specs.Orders.{filled, book_of};
ghost use Rattle.table.specs.Facts.{Market};
ghost use Rattle.table.specs.Looks.{Timely};
ghost use Rattle.table.specs.Faced.{due_of, Unmet, Met, Lowest, Firsts, Ranked, First, Facing};

use crate::heading::work;
use crate::ids::count;
use crate::look::turn_of;
use crate::record::load;
use matching::Order;

// Behind every turn: noted of a record that is not met.
pub const END: u64 = 2000000000000000000;

// Above every place.
const PLACES: u64 = 1000000000;

// Whether a level of the side told is apart from a level of the other side: they do not meet.
fn is_apart(level: u64, buys: bool, other: u64) -> bool
    ensures { result ≡ cond buys (ltb other level) (ltb level other) }
{
    if buys { other < level } else { level < other }
}

// The turn of r among the orders that o, whose side is told, meets; the end if o does not meet it.
fn due(o: Order, buys: bool, r: Order) -> u64
    requires { Timely 1_000_000_000 r × (buys ≡ is_buy o) }
    ensures { result ≡ due_of o r }
{
    if r.is_buy() == buys {
        return END;
    }
    if is_apart(o.level, buys, r.level) {
        return END;
    }
    if !r.is_open() {
        return END;
    }
    turn_of(PLACES, r)
}

// Notes the turns of those of the n records that o meets, and tells which is the last; 0 if it meets none.
fn note(t: &[u8], n: usize, o: Order, buys: bool, turns: &mut [u64; 256]) -> usize
    requires { Market t.now × (n ≡ filled t.now) × (n ≤ 255) × (buys ≡ is_buy o) × Unmet turns.old }
    ensures { Met o (book_of t.now) n result turns.new }
{
    let mut m = 0;
    for k in 0..n {
        let i = k + 1;
        let turn = due(o, buys, load(t, i));
        if turn < END {
            turns[i] = turn;
            m = i;
        }
    }
    m
}

// The same for an order of either side: the compiler makes a loop for each.
fn note_for(t: &[u8], n: usize, o: Order, turns: &mut [u64; 256]) -> usize
    requires { Market t.now × (n ≡ filled t.now) × (n ≤ 255) × Unmet turns.old }
    ensures { Met o (book_of t.now) n result turns.new }
{
    if o.is_buy() {
        return note(t, n, o, true, turns);
    }
    note(t, n, o, false, turns)
}

// Of record c, found so far, and record k the one with the earlier turn.
fn earlier(turns: &[u64; 256], c: usize, k: usize) -> usize
    requires { (c < 256) × (k < 256) }
    ensures { result ≡ cond (ltb (get_or turns.now k 0) (get_or turns.now c 0)) k c }
{
    if turns[k] < turns[c] { k } else { c }
}

// The first in turn of the sixteen records from record a on.
fn first_in(turns: &[u64; 256], a: usize) -> usize
    requires { a + 16 ≤ 256 }
    ensures { Lowest turns.now a (a + 16) result }
{
    let mut c = a;
    for i in 1..16 {
        c = earlier(turns, c, a + i);
    }
    c
}

// Notes the first of every sixteen, m times.
fn rank(turns: &[u64; 256], firsts: &mut [usize; 16], m: usize)
    requires { (m ≤ 16) × (length firsts.old ≡ 16) }
    ensures { Firsts turns.now firsts.new m }
{
    for j in 0..m {
        firsts[j] = first_in(turns, 16 * j);
    }
}

// Whether o, whose side is told, meets none of the n records.
fn meets_none(t: &[u8], n: usize, o: Order, buys: bool) -> bool
    requires { Market t.now × (n ≡ filled t.now) × (n ≤ 255) × (buys ≡ is_buy o) }
    ensures { result ≡ true → best (book_of t.now) o n ≡ 0 }
{
    for k in 0..n {
        if due(o, buys, load(t, k + 1)) < END {
            return false;
        }
    }
    true
}

// Whether there is nothing in work that meets anybody.
pub fn alone(t: &[u8]) -> bool
    requires { Market t.now }
    ensures { result ≡ true → partner (book_of t.now) (work_of t.now) ≡ 0 }
{
    let w = work(t);
    if w == 0 {
        return true;
    }
    let o = load(t, w);
    let n = count(t);
    if o.is_buy() {
        return meets_none(t, n, o, true);
    }
    meets_none(t, n, o, false)
}

// Notes whom the order in work meets, and tells how many sixteens of records have one of them.
pub fn face(t: &[u8], turns: &mut [u64; 256], firsts: &mut [usize; 16]) -> usize
    requires { Market t.now × Unmet turns.old × (length firsts.old ≡ 16) }
    ensures { Facing (book_of t.now) (work_of t.now) turns.new firsts.new result }
{
    let w = work(t);
    if w == 0 {
        return 0;
    }
    let last = note_for(t, count(t), load(t, w), turns);
    let m = last / 16 + 1;
    rank(turns, firsts, m);
    m
}

// The first in turn of all records; 0 if none is noted.
pub fn first(turns: &[u64; 256], firsts: &[usize; 16], m: usize) -> usize
    requires { Ranked turns.now firsts.now m }
    ensures { First turns.now result }
{
    let mut c = 0;
    for j in 0..m {
        c = earlier(turns, c, firsts[j]);
    }
    c
}

// Record r is met no more.
pub fn pass(turns: &mut [u64; 256], firsts: &mut [usize; 16], m: usize, r: usize)
    requires { Ranked turns.old firsts.old m × (r ≤ 255) }
    ensures { (turns.new ≡ cond (eqb r 0) turns.old (set turns.old r 2_000_000_000_000_000_000)) × Ranked turns.new firsts.new m }
{
    if r == 0 {
        return;
    }
    turns[r] = END;
    let j = r / 16;
    firsts[j] = first_in(turns, 16 * j);
}
