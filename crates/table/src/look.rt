// What the order in work would trade, found by looking over the book: the orders that it meets are noted, each with its turn, what it
// offers and what of it is tradable, and what is noted before a turn is added up. Nothing is changed.
ghost use Rattle.std.specs.Prelude.{◌≡◌, cond, ◌&&◌, ◌+◌, ◌-◌, ◌*◌, ◌≤◌, ◌<◌, min, ltb, leb};
ghost use Rattle.matching.specs.Matching.{would_trade};
ghost use Rattle.matching.specs.Held.{Covered};
ghost use Rattle.matching.specs.Looked.{turn_of, offered, tradable};
ghost use Rattle.table.specs.Heading.{next_of, work_of, mode_of};
ghost use Rattle.table.specs.Orders.{filled, book_of};
ghost use Rattle.table.specs.Facts.{Market};
ghost use Rattle.table.specs.Looks.{Lookable, sum_of, least_own, Notes, Noted, Blank, Timely, Clear, Between, Shrunk, Reached};

use crate::heading::next;
use crate::record::load;
use matching::Order;

// The levels that a side can have; each has as many turns as the next number says.
const LEVELS: u64 = 2000000000;

// Half of the numbers that a u64 holds.
const HALF: u64 = 9223372036854775808;

// Turns from low on and before high.
#[derive(Clone, Copy)]
struct Window {
    low: u64,
    high: u64,
}

// What is noted: n turns, each with a quantity, few and small enough to be added up.
#[derive(Clone, Copy)]
struct Offers<'a> {
    turns: &'a [u64; 256],
    amounts: &'a [u64; 256],
    n: usize,
    ghost noted: { Notes turns.now amounts.now n },
}

// The turn of an order among those of its side.
pub fn turn_of(next: u64, r: Order) -> u64
    requires { Timely next r }
    ensures { result ≡ turn_of next r }
{
    if r.is_buy() {
        return r.level * next + r.place;
    }
    (1999999999 - r.level) * next + r.place
}

// What r offers to o.
fn offered(o: Order, r: Order) -> u64
    requires { Covered r }
    ensures { result ≡ offered o r }
{
    if o.faces(r) {
        return r.open_of();
    }
    0
}

// What of it is tradable: nothing if r is of o's owner.
fn tradable(o: Order, r: Order, offers: u64) -> u64
    requires { offers ≡ offered o r }
    ensures { result ≡ tradable o r }
{
    if o.same_owner(r) {
        return 0;
    }
    offers
}

// Notes the orders that o meets, and tells how many they are. In three arrays, not in one of structs: each sum goes through the turns and one kind of
// quantity, and an array that a struct owns is copied when the struct is made.
fn note(
    t: &[u8],
    n: usize,
    next: u64,
    o: Order,
    turns: &mut [u64; 256],
    all: &mut [u64; 256],
    others: &mut [u64; 256],
) -> usize
    requires { Market t.now × (n ≡ filled t.now) × (next ≡ next_of t.now) × Blank turns.old all.old others.old }
    ensures { Noted next o (book_of t.now) n result turns.new all.new others.new }
{
    let mut m = 0;
    for k in 0..n {
        let r = load(t, k + 1);
        let offers = offered(o, r);
        if 0 < offers {
            turns[m] = turn_of(next, r);
            all[m] = offers;
            others[m] = tradable(o, r, offers);
            m += 1;
        }
    }
    m
}

// A quantity where its turn is before x, and nothing where it is not. The test is a quotient, 1 or 0, so that adding up has no
// branches; the compiler makes a shift of it.
fn counted(turn: u64, amount: u64, x: u64) -> u64
    requires { (turn < 2_000_000_000_000_000_000) × (amount ≤ 999_999_999) × (x ≤ 4_000_000_000_000_000_000) }
    ensures { result ≡ cond (ltb turn x) amount 0 }
{
    amount * ((HALF + x - turn - 1) / HALF)
}

// The smaller of two turns. In the loop that asks it the library's `min` costs an instruction more for each order.
fn smaller(a: u64, b: u64) -> u64
    ensures { result ≡ min a b }
{
    if a < b { a } else { b }
}

// The nearer of turn x, found so far, and that of an order that offers more than is tradable.
fn nearer_own(turn: u64, offers: u64, trades: u64, x: u64) -> u64
    ensures { result ≡ cond (ltb trades offers) (min turn x) x }
{
    if trades < offers { smaller(turn, x) } else { x }
}

// The first turn of an order of one's own among n; the end if there is none.
fn least_own(turns: &[u64; 256], all: &[u64; 256], others: &[u64; 256], end: u64, n: usize) -> u64
    requires { n ≤ 255 }
    ensures { result ≡ least_own turns.now all.now others.now end n }
{
    let mut x = end;
    for i in 0..n {
        x = nearer_own(turns[i], all[i], others[i], x);
    }
    x
}

// The earlier of turn r, found so far, and one that is not before x.
fn earlier(turn: u64, x: u64, r: u64) -> u64
    ensures { result ≡ cond (leb x turn && ltb turn r) turn r }
{
    if (x <= turn) & (turn < r) { turn } else { r }
}

// The later of turn r, found so far, and the one behind a turn that is before x.
fn later(turn: u64, x: u64, r: u64) -> u64
    ensures { result ≡ cond (ltb turn x && leb r turn) (turn + 1) r }
{
    if (turn < x) & (r <= turn) {
        turn + 1
    } else {
        r
    }
}

impl Offers<'_> {
    // The quantities whose turn is before x, added up.
    fn sum_before(self, x: u64) -> u64
        requires { x ≤ 4_000_000_000_000_000_000 }
        ensures { (result ≡ sum_of self.entry.turns.now self.entry.amounts.now x self.entry.n) × (result ≤ self.entry.n * 999_999_999) }
    {
        let mut r: u64 = 0;
        for i in 0..self.n {
            r += counted(self.turns[i], self.amounts[i], x);
        }
        r
    }

    // The first turn that is not before x; the end if there is none.
    fn first_from(self, x: u64, end: u64) -> u64
        requires { x ≤ end }
        ensures { Clear self.entry.turns.now self.entry.n x result }
    {
        let mut r = end;
        for i in 0..self.n {
            r = earlier(self.turns[i], x, r);
        }
        r
    }

    // The turn behind the last that is before x; 0 if there is none. Not one function with `first_from`: each
    // starts at its own end and looks for another turn.
    fn last_before(self, x: u64) -> u64
        ensures { Clear self.entry.turns.now self.entry.n result x }
    {
        let mut r: u64 = 0;
        for i in 0..self.n {
            r = later(self.turns[i], x, r);
        }
        r
    }

    // The same turns of a window, from its first on and up to its last.
    fn narrowed(self, w: Window) -> Window
        requires { w.low ≤ w.high }
        ensures { Clear self.entry.turns.now self.entry.n w.low result.low × Clear self.entry.turns.now self.entry.n result.high w.high }
    {
        let low = self.first_from(w.low, w.high);
        let high = self.last_before(w.high);
        Window { low, high }
    }

    // The half of a window that q reaches into; a window of one turn stays.
    fn half(self, q: u64, w: Window) -> Window
        requires { Between self.turns.now self.amounts.now self.n q w.low w.high }
        ensures { Between self.entry.turns.now self.entry.amounts.now self.entry.n q result.low result.high × Shrunk w.low w.high result.low result.high }
    {
        let l = w.low;
        let h = w.high;
        if h - l <= 1 {
            return w;
        }
        let x = l + (h - l) / 2;
        if self.sum_before(x) <= q {
            return Window { low: x, high: h };
        }
        Window { low: l, high: x }
    }

    // The same, eight times: of 255 turns that lie evenly one is left.
    fn halved(self, q: u64, w: Window) -> Window
        requires { Between self.turns.now self.amounts.now self.n q w.low w.high }
        ensures { Between self.entry.turns.now self.entry.amounts.now self.entry.n q result.low result.high × Shrunk w.low w.high result.low result.high }
    {
        let mut v = self.half(q, w);
        for _ in 1..8 {
            v = self.half(q, v);
        }
        v
    }

    // The turn that q reaches to before the end, where it is not enough for all.
    fn reach(self, q: u64, end: u64) -> u64
        requires { Between self.turns.now self.amounts.now self.n q 0 end }
        ensures { Between self.entry.turns.now self.entry.amounts.now self.entry.n q result (result + 1) }
    {
        let mut w = Window { low: 0, high: end };
        while 1 < w.high - w.low {
            let v = self.narrowed(w);
            w = self.halved(q, v);
        }
        w.low
    }

    // How far q reaches: to a turn, or to the end where it is enough for all.
    fn reached(self, q: u64, end: u64) -> u64
        requires { end ≤ 2_000_000_000_000_000_000 }
        ensures { Reached self.entry.turns.now self.entry.amounts.now self.entry.n q end result }
    {
        if self.sum_before(end) <= q {
            return end;
        }
        self.reach(q, end)
    }

    // What an order with q open trades of them if it can trade with all before x.
    fn traded_to(self, q: u64, x: u64) -> u64
        requires { x ≤ 4_000_000_000_000_000_000 }
        ensures { result ≡ min q (sum_of self.entry.turns.now self.entry.amounts.now x self.entry.n) }
    {
        q.min(self.sum_before(x))
    }

    // What it trades of these if it reaches to x in all, and its owner's orders take their share of it.
    fn traded_at(self, all: Offers<'_>, q: u64, x: u64) -> u64
        requires { (q ≤ 999_999_999) × (x < 4_000_000_000_000_000_000) × (sum_of all.turns.now all.amounts.now x all.n ≤ q) }
        ensures { result ≡ min (sum_of self.entry.turns.now self.entry.amounts.now x self.entry.n + (q - sum_of all.entry.turns.now all.entry.amounts.now x all.entry.n)) (sum_of self.entry.turns.now self.entry.amounts.now (x + 1) self.entry.n) }
    {
        let before = self.sum_before(x);
        let left = q - all.sum_before(x);
        (before + left).min(self.sum_before(x + 1))
    }
}

// The quantity that the matching steps would trade of the order in work, w, among n records, by its mode.
pub fn would_trade(t: &[u8], n: usize, w: usize, mode: u64) -> u64
    requires { Lookable t.now n w mode }
    ensures { result ≡ would_trade (mode_of t.now) (book_of t.now) (work_of t.now) }
{
    let mut turns: [u64; 256] = [0; 256];
    let mut all: [u64; 256] = [0; 256];
    let mut others: [u64; 256] = [0; 256];
    let number = next(t);
    let o = load(t, w);
    let m = note(t, n, number, o, &mut turns, &mut all, &mut others);
    let q = o.open_of();
    let end = LEVELS * number;
    let tradable = Offers {
        turns: &turns,
        amounts: &others,
        n: m,
    };
    if mode == 1 {
        let x = least_own(&turns, &all, &others, end, m);
        return tradable.traded_to(q, x);
    }
    if mode == 2 {
        return tradable.traded_to(q, end);
    }
    let offered = Offers {
        turns: &turns,
        amounts: &all,
        n: m,
    };
    let x = offered.reached(q, end);
    tradable.traded_at(offered, q, x)
}
