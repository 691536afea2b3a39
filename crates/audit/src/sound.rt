// Whether a table is a market: the clauses on each order by itself.
ghost use Rattle.std.specs.Prelude.{◌≡◌, ◌+◌, ◌*◌, ◌<◌, ◌≤◌, ◌&&◌, ◌||◌, length, ◌==◌};
ghost use Rattle.octets.specs.Octets.{all_zero, part_at};
ghost use Rattle.octets.specs.Tests.{all_up_to};
ghost use Rattle.decimal.specs.declared.Instrument.TheVariants.{Equities};
ghost use Rattle.decimal.specs.Instruments.{highest};
ghost use Rattle.matching.specs.Matching.{is_open, is_side_of, is_immediate};
ghost use Rattle.matching.specs.Held.{may_minimum};
ghost use Rattle.table.specs.Places.{table_bytes};
ghost use Rattle.table.specs.Heading.{instrument_of, entries};
ghost use Rattle.table.specs.Orders.{cash_at, margin_at, marks_at, order_at, filled};
ghost use Rattle.audit.specs.Widths.{Narrow};
ghost use Rattle.audit.specs.Rows.{bounds_of, between};
ghost use Rattle.table.specs.Market.{is_text, is_cash, is_marked, is_record, is_ranged, is_known, is_within, is_shut, is_priced, is_order, has_orders};

use crate::characters::Characters;
use crate::checks::zeros_at;
use decimal::Instrument;
use matching::Order;
use table::entries::mpid_at;
use table::places;
use table::record::{capacity, classification, four_at, load, order_id};

// The records of a table, with what an order is checked against: what the market trades, its highest level, the characters
// of texts, and the number of MPIDs.
#[derive(Drop)]
struct Records<'a> {
    table: &'a [u8],
    instrument: Instrument,
    top: u64,
    characters: &'a Characters,
    mpids: usize,
    ghost long: { length table.now ≡ table_bytes },
    ghost traded: { instrument ≡ instrument_of table.now },
    ghost highest_level: { top ≡ highest instrument },
    ghost low: { characters.now.low ≡ bounds_of 32 },
    ghost span: { characters.now.span ≡ bounds_of 94 },
    ghost listed: { mpids ≡ entries table.now },
    ghost few: { mpids ≤ 8 },
}

// Whether the ten bytes of an account's room, from place p on, are zero.
fn is_empty(t: &[u8], p: usize) -> bool
    requires { p + 10 ≤ length t.now }
    ensures { result ≡ all_zero (part_at t.now p 10) }
{
    if four_at(t, p) + four_at(t, p + 4) != 0 {
        return false;
    }
    zeros_at(t, p + 8, 2)
}

// Whether an account of such characters or none stands at place p. Most orders have none, and then all its room is zeros.
fn is_account(characters: &Characters, t: &[u8], p: usize) -> bool
    requires { p + 11 ≤ length t.now }
    ensures { result ≡ is_text (between characters.now.low characters.now.span) 0 10 t.now p }
{
    if t[p] == 0 {
        return is_empty(t, p + 1);
    }
    characters.is_text(t, p, 0, places::ACCOUNT_ROOM)
}

// Whether the 34 bytes at the end of a record that nothing uses, from place p on, are zero.
fn is_unused(t: &[u8], p: usize) -> bool
    requires { p + 34 ≤ length t.now }
    ensures { result ≡ all_zero (part_at t.now p 34) }
{
    let e = p + 32;
    if !octets::all_zero(&t[p..e]) {
        return false;
    }
    zeros_at(t, e, 2)
}

// Whether CashMargin and MarginTransactionType are those of an equities order.
fn is_cash(cash: u64, margin: u64) -> bool
    ensures { result ≡ is_cash Equities cash margin }
{
    (1 <= cash) & (cash <= 3) & (margin <= 2) & (!(cash == 1) | (margin == 0))
}

// Whether those of record i are such as its market asks for: a bond order has neither.
fn has_cash(q: Instrument, t: &[u8], i: usize) -> bool
    requires { (length t.now ≡ table_bytes) × (i < 256) }
    ensures { result ≡ is_cash q (cash_at t.now i) (margin_at t.now i) }
{
    let p = places::RECORD * i + places::CASH;
    match q {
        Instrument::Bonds => zeros_at(t, p, 2),
        Instrument::Equities => is_cash(octets::wide(t[p]), octets::wide(t[p + 1])),
    }
}

// Whether the marks of record i are in order.
fn is_marked(q: Instrument, t: &[u8], i: usize) -> bool
    requires { (length t.now ≡ table_bytes) × (i < 256) }
    ensures { result ≡ is_marked q (marks_at t.now i) }
{
    let capacity = capacity(t, i);
    if !((capacity == 65) | (capacity == 80)) {
        return false;
    }
    let class = classification(t, i);
    if !((class == 1) | ((3 <= class) & (class <= 6))) {
        return false;
    }
    has_cash(q, t, i)
}

// Whether the time in force is one, and MinQty one that it allows.
fn is_timed(o: Order) -> bool
    ensures { result ≡ ((o.tif == 0 || is_immediate o) && may_minimum o) }
{
    if o.tif == 3 {
        return o.minqty <= o.qty;
    }
    if o.tif == 0 {
        return o.minqty == 0;
    }
    (o.tif == 4) & (o.minqty == 0)
}

// Whether a side is one of the market's; either market has 1 and 2.
fn is_side(q: Instrument, side: u64) -> bool
    ensures { result ≡ is_side_of q side }
{
    if (side == 1) | (side == 2) {
        return true;
    }
    match q {
        Instrument::Bonds => false,
        Instrument::Equities => (side == 5) | (side == 6),
    }
}

// Whether each number of an order is in its range; top is the market's highest level.
fn is_ranged(q: Instrument, top: u64, o: Order) -> bool
    requires { top ≡ highest q }
    ensures { result ≡ is_ranged q o }
{
    if !is_side(q, o.side) {
        return false;
    }
    if !is_timed(o) {
        return false;
    }
    (1 <= o.level) & (o.level <= top) & (1 <= o.qty) & (o.qty <= 999999999) & (1 <= o.place)
}

// Whether an MPID is none, or one of the n that are listed. All places of the list are looked at, so that no way out depends on where it
// stands.
fn is_known(t: &[u8], n: usize, m: u64) -> bool
    requires { (length t.now ≡ table_bytes) × (n ≡ entries t.now) × (n ≤ 8) }
    ensures { result ≡ is_known t.now m }
{
    let mut found = m == 0;
    for k in 0..places::MOST_MPIDS {
        found = found | ((mpid_at(t, k) == m) & (k < n));
    }
    found
}

// Record i as an order. Whatever its bytes are, each number fits those that it has.
pub fn order_at(t: &[u8], i: usize) -> Order
    requires { (length t.now ≡ table_bytes) × (i < 256) }
    ensures { (result ≡ order_at t.now i) × Narrow result }
{
    load(t, i)
}

// What is executed, decremented and canceled. No method of Order: the sum fits only of an order that is read from a record
// (Narrow).
pub fn used(o: Order) -> u64
    requires { Narrow o }
    ensures { (result ≡ o.executed + o.decremented + o.canceled) × (result < 12884901888) }
{
    o.executed + o.decremented + o.canceled
}

// Whether something is open.
pub fn has_open(o: Order) -> bool
    requires { Narrow o }
    ensures { result ≡ is_open o }
{
    used(o) < o.qty
}

// Whether the amounts are within OrderQty.
fn is_within(o: Order) -> bool
    requires { Narrow o }
    ensures { result ≡ is_within o }
{
    used(o) <= o.qty
}

// Whether something canceled leaves nothing open.
fn is_shut(o: Order) -> bool
    requires { Narrow o }
    ensures { result ≡ is_shut o }
{
    (o.canceled == 0) | (o.qty <= used(o))
}

// Whether the sum is what the executed quantity can come to at levels up to top, the market's highest.
fn is_priced(q: Instrument, top: u64, o: Order) -> bool
    requires { Narrow o × (top ≡ highest q) }
    ensures { result ≡ is_priced q o }
{
    (o.executed <= o.sum) & (o.sum <= o.executed * top)
}

impl Records<'_> {
    // Whether the texts, the marks, the OrderID and the unused bytes of record i are in order.
    fn is_record(&self, i: usize) -> bool
        requires { i < 256 }
        ensures { result ≡ is_record self.now.table.now i }
    {
        let t = self.table;
        let b = places::RECORD * i;
        if !self.characters.is_text(t, b, 1, places::CL_ORD_ID_ROOM) {
            return false;
        }
        if !is_account(self.characters, t, b + places::ACCOUNT) {
            return false;
        }
        if !is_marked(self.instrument, t, i) {
            return false;
        }
        if order_id(t, i) == 0 {
            return false;
        }
        is_unused(t, b + places::RECORD_END)
    }

    // Whether record i is an order.
    fn is_order(&self, i: usize) -> bool
        requires { i < 256 }
        ensures { result ≡ is_order self.now.table.now i }
    {
        if !self.is_record(i) {
            return false;
        }
        let o = order_at(self.table, i);
        if !is_within(o) {
            return false;
        }
        if !is_shut(o) {
            return false;
        }
        if !is_priced(self.instrument, self.top, o) {
            return false;
        }
        if !is_ranged(self.instrument, self.top, o) {
            return false;
        }
        is_known(self.table, self.mpids, o.mpid)
    }
}

// Whether each of the m filled records is an order; q is what the market trades, n the number of MPIDs.
pub fn has_orders(q: Instrument, t: &[u8], n: usize, m: usize) -> bool
    requires { (length t.now ≡ table_bytes) × (q ≡ instrument_of t.now) × (n ≡ entries t.now) × (n ≤ 8) × (m ≡ filled t.now) × (m ≤ 255) }
    ensures { result ≡ has_orders t.now }
{
    let characters = Characters::between(b' ', b'~');
    let records = Records {
        table: t,
        instrument: q,
        top: q.highest(),
        characters: &characters,
        mpids: n,
    };
    for k in 0..m {
        if !records.is_order(k + 1) {
            return false;
        }
    }
    true
}
