// The records of a table: an order by value, its texts as parts of the table, and the stores that change a record.
ghost use Rattle.std.specs.Prelude.{◌≡◌, ◌+◌, ◌*◌, ◌≤◌, ◌<◌, [], ◌∷◌, length};
ghost use Rattle.octets.specs.Octets.{le_at, put};
ghost use Rattle.matching.specs.Matching.{is_open, is_buy};
ghost use Rattle.table.specs.Places.{table_bytes};
ghost use Rattle.table.specs.Orders.{cl_ord_id_at, account_at, order_id_at, capacity_at, classification_at, marks_at, order_at, term_bytes, amount_bytes, end_bytes, tail_bytes, field_bytes, put_id, put_terms, put_amounts, accepted};
ghost use Rattle.table.specs.Facts.{InBytes};

use crate::places;
use matching::Order;

// The marks of an order, which only reports read: the capacity, a character, the classification, and CashMargin and MarginTransactionType, 0 for
// none.
#[derive(Clone, Copy)]
pub struct Marks {
    pub capacity: u64,
    pub class: u64,
    pub cash: u64,
    pub margin: u64,
}

// The ClOrdID of record i.
pub fn clordid(t: &[u8], i: usize) -> &[u8]
    requires { i < 256 }
    ensures { result.now ≡ cl_ord_id_at t.now i }
{
    octets::text_at(t, places::RECORD * i)
}

// The account of record i, empty for none.
pub fn account(t: &[u8], i: usize) -> &[u8]
    requires { i < 256 }
    ensures { result.now ≡ account_at t.now i }
{
    octets::text_at(t, places::RECORD * i + places::ACCOUNT)
}

// The capacity of record i, a character.
pub fn capacity(t: &[u8], i: usize) -> u64
    requires { (length t.now ≡ table_bytes) × (i < 256) }
    ensures { (result ≡ capacity_at t.now i) × (result < 256) }
{
    octets::wide(t[places::RECORD * i + places::CAPACITY])
}

// The classification of record i, a number.
pub fn classification(t: &[u8], i: usize) -> u64
    requires { (length t.now ≡ table_bytes) × (i < 256) }
    ensures { (result ≡ classification_at t.now i) × (result < 256) }
{
    octets::wide(t[places::RECORD * i + places::CLASS])
}

// The marks of record i.
pub fn marks_at(t: &[u8], i: usize) -> Marks
    requires { (length t.now ≡ table_bytes) × (i < 256) }
    ensures { result ≡ marks_at t.now i }
{
    let b = places::RECORD * i;
    Marks {
        capacity: octets::wide(t[b + places::CAPACITY]),
        class: octets::wide(t[b + places::CLASS]),
        cash: octets::wide(t[b + places::CASH]),
        margin: octets::wide(t[b + places::MARGIN]),
    }
}

// The number whose four bytes start at place p. The four are added up with no loop between them, so that the compiler reads them as one.
pub fn four_at(t: &[u8], p: usize) -> u64
    requires { p + 4 ≤ length t.now }
    ensures { (result ≡ le_at 4 t.now p) × (result < 4294967296) }
{
    let a = octets::wide(t[p]);
    let b = octets::wide(t[p + 1]);
    let c = octets::wide(t[p + 2]);
    let d = octets::wide(t[p + 3]);
    a + 256 * b + 65536 * c + 16777216 * d
}

// The number whose eight bytes start at place p, by its two halves: the compiler reads them as one too, which it does not in the loop of `le_at`.
pub fn eight_at(t: &[u8], p: usize) -> u64
    requires { p + 8 ≤ length t.now }
    ensures { result ≡ le_at 8 t.now p }
{
    let low = four_at(t, p);
    let high = four_at(t, p + 4);
    low + 4294967296 * high
}

// Record i as an order. It is small enough that the compiler takes it apart where it is used, and reads only what is looked at.
pub fn load(t: &[u8], i: usize) -> Order
    requires { (length t.now ≡ table_bytes) × (i < 256) }
    ensures { result ≡ order_at t.now i }
{
    let b = places::RECORD * i;
    Order {
        side: octets::wide(t[b + places::SIDE]),
        tif: octets::wide(t[b + places::TIF]),
        level: four_at(t, b + places::LEVEL),
        qty: four_at(t, b + places::QTY),
        executed: four_at(t, b + places::EXECUTED),
        decremented: four_at(t, b + places::DECREMENTED),
        canceled: four_at(t, b + places::CANCELED),
        sum: eight_at(t, b + places::SUM),
        place: four_at(t, b + places::PLACE),
        mpid: four_at(t, b + places::MPID),
        minqty: four_at(t, b + places::MIN_QTY),
    }
}

// Whether record i is open, by the numbers that say it.
pub fn open_at(t: &[u8], i: usize) -> bool
    requires { (length t.now ≡ table_bytes) × (i < 256) }
    ensures { result ≡ is_open (order_at t.now i) }
{
    let b = places::RECORD * i;
    let executed = four_at(t, b + places::EXECUTED);
    let decremented = four_at(t, b + places::DECREMENTED);
    let canceled = four_at(t, b + places::CANCELED);
    let qty = four_at(t, b + places::QTY);
    executed + decremented + canceled < qty
}

// Whether record i is a buy.
pub fn buys_at(t: &[u8], i: usize) -> bool
    requires { (length t.now ≡ table_bytes) × (i < 256) }
    ensures { result ≡ is_buy (order_at t.now i) }
{
    octets::wide(t[places::RECORD * i + places::SIDE]) == 1
}

// The level of record i.
pub fn level_at(t: &[u8], i: usize) -> u64
    requires { (length t.now ≡ table_bytes) × (i < 256) }
    ensures { (result ≡ (order_at t.now i).level) × (result < 4294967296) }
{
    four_at(t, places::RECORD * i + places::LEVEL)
}

// The OrderID of record i.
pub fn order_id(t: &[u8], i: usize) -> u64
    requires { (length t.now ≡ table_bytes) × (i < 256) }
    ensures { (result ≡ order_id_at t.now i) × (result < 4294967296) }
{
    four_at(t, places::RECORD * i + places::ORDER_ID)
}

// Writes the terms of an order from place p on.
fn write_terms(t: &mut [u8], p: usize, o: Order)
    requires { p + 12 ≤ length t.old }
    ensures { t.new ≡ put t.old p (term_bytes o) }
{
    octets::put_le(t, p, 4, o.level);
    octets::put_le(t, p + 4, 4, o.qty);
    octets::put_le(t, p + 8, 4, o.place);
}

// Writes the amounts of an order from place p on.
fn write_amounts(t: &mut [u8], p: usize, o: Order)
    requires { p + 20 ≤ length t.old }
    ensures { t.new ≡ put t.old p (amount_bytes o) }
{
    octets::put_le(t, p, 8, o.sum);
    octets::put_le(t, p + 8, 4, o.executed);
    octets::put_le(t, p + 12, 4, o.decremented);
    octets::put_le(t, p + 16, 4, o.canceled);
}

// Writes the end of a record from place p on: CashMargin, MarginTransactionType, zeros.
fn write_end(t: &mut [u8], p: usize, marks: Marks)
    requires { p + 36 ≤ length t.old }
    ensures { t.new ≡ put t.old p (end_bytes marks) }
{
    octets::put_le(t, p, 1, marks.cash);
    octets::put_le(t, p + 1, 1, marks.margin);
    octets::put_zeros(t, p + 2, places::RECORD_SPARE);
}

// Writes what stands behind the MPID of an order from place p on: the amounts, the OrderID, MinQty, the end.
fn write_tail(t: &mut [u8], p: usize, orderid: u64, marks: Marks, o: Order)
    requires { p + 64 ≤ length t.old }
    ensures { t.new ≡ put t.old p (tail_bytes orderid marks o) }
{
    write_amounts(t, p, o);
    octets::put_le(t, p + 20, 4, orderid);
    octets::put_le(t, p + 24, 4, o.minqty);
    write_end(t, p + 28, marks);
}

// Writes four bytes from place p on.
fn write_four(t: &mut [u8], p: usize, a: u8, b: u8, c: u8, d: u8)
    requires { p + 4 ≤ length t.old }
    ensures { t.new ≡ put t.old p (a ∷ b ∷ c ∷ d ∷ []) }
{
    t[p] = a;
    t[p + 1] = b;
    t[p + 2] = c;
    t[p + 3] = d;
}

// Writes the first four bytes behind the texts of a record from place p on: side, time in force, capacity, classification.
fn write_first(t: &mut [u8], p: usize, marks: Marks, o: Order)
    requires { (p + 4 ≤ length t.old) × (o.side < 256) × (o.tif < 256) × InBytes marks }
    ensures { t.new ≡ put t.old p (o.side ∷ o.tif ∷ marks.capacity ∷ marks.class ∷ []) }
{
    write_four(
        t,
        p,
        o.side as u8,
        o.tif as u8,
        marks.capacity as u8,
        marks.class as u8,
    );
}

// Writes what stands behind the texts of a record from place p on.
fn write_fields(t: &mut [u8], p: usize, orderid: u64, marks: Marks, o: Order)
    requires { (p + 84 ≤ length t.old) × (o.side < 256) × (o.tif < 256) × InBytes marks }
    ensures { t.new ≡ put t.old p (field_bytes orderid marks o) }
{
    write_first(t, p, marks, o);
    write_terms(t, p + 4, o);
    octets::put_le(t, p + 16, 4, o.mpid);
    write_tail(t, p + 20, orderid, marks, o);
}

// Sets the ClOrdID of record i.
pub fn put_id(t: &mut [u8], i: usize, clordid: &[u8])
    requires { (length t.old ≡ table_bytes) × (i < 256) × (length clordid.now ≤ 32) }
    ensures { t.new ≡ put_id t.old i clordid.now }
{
    octets::put_text(t, places::RECORD * i, places::CL_ORD_ID_ROOM, clordid);
}

// Sets the terms of record i: level, OrderQty, place.
pub fn put_terms(t: &mut [u8], i: usize, o: Order)
    requires { (length t.old ≡ table_bytes) × (i < 256) }
    ensures { t.new ≡ put_terms t.old i o }
{
    write_terms(t, places::RECORD * i + places::LEVEL, o);
}

// Sets the amounts of record i: sum, executed, decremented, canceled.
pub fn put_amounts(t: &mut [u8], i: usize, o: Order)
    requires { (length t.old ≡ table_bytes) × (i < 256) }
    ensures { t.new ≡ put_amounts t.old i o }
{
    write_amounts(t, places::RECORD * i + places::SUM, o);
}

// Writes a new order as record i, with its OrderID: every byte of the record.
pub fn accept(
    t: &mut [u8],
    i: usize,
    orderid: u64,
    clordid: &[u8],
    account: &[u8],
    marks: Marks,
    o: Order,
)
    requires { (length t.old ≡ table_bytes) × (i < 256) × (length clordid.now ≤ 32) × (length account.now ≤ 10) × (o.side < 256) × (o.tif < 256) × InBytes marks }
    ensures { t.new ≡ accepted t.old i orderid clordid.now account.now marks o }
{
    octets::put_text(t, places::RECORD * i, places::CL_ORD_ID_ROOM, clordid);
    octets::put_text(
        t,
        places::RECORD * i + places::ACCOUNT,
        places::ACCOUNT_ROOM,
        account,
    );
    write_fields(t, places::RECORD * i + places::SIDE, orderid, marks, o);
}
