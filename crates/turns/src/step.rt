// One step of the order in work: whom it is matched with, what that comes to, and what happens then.
ghost use Rattle.std.specs.Prelude.{◌≡◌, [], ◌∷◌, ◌+◌, ◌≤◌, ◌<◌, length, cond, ltb};
ghost use Rattle.matching.specs.Matching.{partner, outcome, causes, preventing, minimum_of};
ghost use Rattle.matching.specs.declared.Prevention.TheVariants.{Decrement as Prevention-as-Decrement};
ghost use Rattle.matching.specs.declared.Event.TheVariants.{Traded};
ghost use Rattle.table.specs.Places.{table_bytes};
ghost use Rattle.table.specs.Heading.{work_of, mode_of};
ghost use Rattle.table.specs.Orders.{order_at, book_of};
ghost use Rattle.table.specs.Changes.{misses_now};
ghost use Rattle.table.specs.Faced.{Facing};
ghost use Rattle.turns.specs.Turns.{Tellings, Reported, Busy, Planned, finished, Turned};

use crate::events::{Told, one, two};
use matching::{Event, Order, Outcome, Prevention, matched};
use table::best::put_best;
use table::entries::mode_of;
use table::facing::{first, pass};
use table::heading::{decided, end_work, next, put_decided, put_next, work};
use table::ids::count;
use table::look::would_trade;
use table::record::load;

// What a step comes to: who is in work, the one he is matched with (0 for none), the outcome, and the decision to be noted after it, none if
// the work ends with it.
#[derive(Clone, Copy)]
pub struct Plan {
    pub work: u64,
    pub other: u64,
    pub came: Outcome,
    pub decided: Option<u8>,
}

// Each function below carries out one outcome; it takes only the parts of a Plan that it needs.

// A decrement between w, in work, and r, resting: the smaller is canceled and the larger lowered; equal ones are both canceled, the
// resting one first.
fn decrement(
    table: &mut [u8],
    out: &mut [u8],
    n: u64,
    w: u64,
    r: u64,
    newest: u64,
    oldest: u64,
) -> Told
    requires { Tellings table.old n (preventing w r (Prevention-as-Decrement newest oldest)) × (1024 ≤ length out.old) }
    ensures { Reported table.old out.old n (preventing w r (Prevention-as-Decrement newest oldest)) result table.new out.new }
{
    let resting = Event::Canceled {
        order: r,
        quantity: oldest,
    };
    let working = Event::Canceled {
        order: w,
        quantity: newest,
    };
    if newest == oldest {
        return two(table, out, n, resting, working);
    }
    if newest < oldest {
        let lowered = Event::Decremented {
            order: r,
            quantity: newest,
        };
        return two(table, out, n, working, lowered);
    }
    let lowered = Event::Decremented {
        order: w,
        quantity: oldest,
    };
    two(table, out, n, resting, lowered)
}

// What the mode of one owner does with his order in work, w, and his resting one, r.
fn prevent(table: &mut [u8], out: &mut [u8], n: u64, w: u64, r: u64, p: Prevention) -> Told
    requires { Tellings table.old n (preventing w r p) × (1024 ≤ length out.old) }
    ensures { Reported table.old out.old n (preventing w r p) result table.new out.new }
{
    match p {
        Prevention::CancelNewest { quantity } => {
            one(table, out, n, Event::Canceled { order: w, quantity })
        }
        Prevention::CancelOldest { quantity } => {
            one(table, out, n, Event::Canceled { order: r, quantity })
        }
        Prevention::Decrement { newest, oldest } => {
            decrement(table, out, n, w, r, newest, oldest)
        }
    }
}

// A trade between r, resting, and w, in work: the resting order is told of first.
fn trade(
    table: &mut [u8],
    out: &mut [u8],
    n: u64,
    w: u64,
    r: u64,
    quantity: u64,
    level: u64,
) -> Told
    requires { Tellings table.old n (Traded r w quantity level ∷ Traded w r quantity level ∷ []) × (1024 ≤ length out.old) }
    ensures { Reported table.old out.old n (Traded r w quantity level ∷ Traded w r quantity level ∷ []) result table.new out.new }
{
    let resting = Event::Traded {
        order: r,
        other: w,
        quantity,
        level,
    };
    let working = Event::Traded {
        order: w,
        other: r,
        quantity,
        level,
    };
    two(table, out, n, resting, working)
}

// What a step comes to happens, and is told from report number n on.
fn happen(table: &mut [u8], out: &mut [u8], n: u64, w: u64, r: u64, o: Outcome) -> Told
    requires { Tellings table.old n (causes w r o) × (1024 ≤ length out.old) }
    ensures { Reported table.old out.old n (causes w r o) result table.new out.new }
{
    match o {
        Outcome::Trade { quantity, level } => trade(table, out, n, w, r, quantity, level),
        Outcome::Prevented(p) => prevent(table, out, n, w, r, p),
        Outcome::Kills { quantity } => one(table, out, n, Event::Killed { order: w, quantity }),
        Outcome::Expires { quantity } => one(table, out, n, Event::Expired { order: w, quantity }),
        Outcome::Rests => Told {
            bytes: 0,
            reports: 0,
        },
    }
}

// The order that the order in work is matched with, by whom it meets; 0 if it has nothing open or meets none.
fn partner_of(t: &[u8], turns: &[u64; 256], firsts: &[usize; 16], m: usize) -> usize
    requires { Busy t.now × Facing (book_of t.now) (work_of t.now) turns.now firsts.now m }
    ensures { (result ≡ partner (book_of t.now) (work_of t.now)) × (result ≤ 255) }
{
    let o = load(t, work(t));
    if o.is_open() {
        return first(turns, firsts, m);
    }
    0
}

// Whether o, the order in work, misses its minimum: asked of an order with a minimum that is not decided yet, by looking at the book.
fn misses(t: &[u8], o: Order, w: usize) -> bool
    requires { Busy t.now × (o ≡ order_at t.now (work_of t.now)) × (w ≡ work_of t.now) }
    ensures { result ≡ misses_now t.now }
{
    let least = o.minimum_of();
    if least == 0 {
        return false;
    }
    if decided(t) != 0 {
        return false;
    }
    would_trade(t, count(t), w, mode_of(t, o.mpid)) < least
}

// The decision to be noted after a step of o: 1 if it has a minimum.
fn noted(o: Order) -> u8
    ensures { result ≡ cond (ltb 0 (minimum_of o)) 1 0 }
{
    u8::from(0 < o.minimum_of())
}

// What the step of o, the order in work, comes to, matched with r; missed tells that it does not reach its minimum.
fn comes_to(t: &[u8], o: Order, r: usize, missed: bool) -> Outcome
    requires { Busy t.now × (o ≡ order_at t.now (work_of t.now)) × (r ≡ partner (book_of t.now) (work_of t.now)) × (missed ≡ misses_now t.now) }
    ensures { result ≡ outcome (mode_of t.now) (misses_now t.now) (book_of t.now) (work_of t.now) }
{
    let open = o.open_of();
    if missed & (0 < open) {
        return Outcome::Kills { quantity: open };
    }
    if r == 0 {
        return o.ending();
    }
    matched(o, load(t, r), mode_of(t, o.mpid))
}

// What the next step comes to, of an order that is matched with r.
fn planned(t: &[u8], r: usize) -> Plan
    requires { Busy t.now × (r ≡ partner (book_of t.now) (work_of t.now)) }
    ensures { Planned t.now result }
{
    let w = work(t);
    let o = load(t, w);
    let missed = misses(t, o, w);
    let came = comes_to(t, o, r, missed);
    let ends = missed | (r == 0);
    let decided = (!ends).then_some(noted(o));
    Plan {
        work: w as u64,
        other: r as u64,
        came,
        decided,
    }
}

// Sets the next number, and notes the decision, or without one ends the work, with the best levels of the book.
fn finish(table: &mut [u8], n: u64, decided: Option<u8>)
    requires { length table.old ≡ table_bytes }
    ensures { table.new ≡ finished table.old n decided }
{
    put_next(table, n);
    match decided {
        Some(decision) => put_decided(table, decision),
        None => {
            end_work(table);
            put_best(table);
        }
    }
}

// One step of the order in work, which is matched with r; its reports start where out does.
pub fn step_with(table: &mut [u8], out: &mut [u8], r: usize) -> Told
    requires { Busy table.old × (1024 ≤ length out.old) × (r ≡ partner (book_of table.old) (work_of table.old)) }
    ensures { Turned table.old out.old result table.new out.new }
{
    let p = planned(table, r);
    let n = next(table);
    let came = p.came;
    let told = happen(table, out, n, p.work, p.other, came);
    finish(table, n + told.reports, p.decided);
    told
}

// One step of the order in work, which meets those that are noted; its reports start where out does. Whom it meets afterwards is noted.
pub fn step_among(
    table: &mut [u8],
    out: &mut [u8],
    turns: &mut [u64; 256],
    firsts: &mut [usize; 16],
    m: usize,
) -> Told
    requires { Busy table.old × (1024 ≤ length out.old) × Facing (book_of table.old) (work_of table.old) turns.old firsts.old m }
    ensures { Turned table.old out.old result table.new out.new × Facing (book_of table.new) (work_of table.new) turns.new firsts.new m }
{
    let r = partner_of(table, turns, firsts, m);
    let told = step_with(table, out, r);
    pass(turns, firsts, m, r);
    told
}
