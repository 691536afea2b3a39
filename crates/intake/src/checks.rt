// Whether a request can be done on a market: the first check that fails gives the reason.
ghost use Rattle.std.specs.Prelude.{◌≡◌, not, ◌&&◌, ◌+◌, ◌≤◌, ◌<◌, ltb, length, Ok};
ghost use Rattle.table.specs.Places.{table_bytes};
ghost use Rattle.table.specs.Heading.{is_listed};
ghost use Rattle.table.specs.Orders.{filled};
ghost use Rattle.table.specs.Facts.{Market};
ghost use Rattle.calls.specs.Checks.{text_of, holder, is_code, new_stands, change_stands, cancel_stands, and_above, replace_stands};

use calls::{ChangeReason, OrderReason};
use fix::frame::Part;
use request::{Cancellation, NewOrder, Replacement};
use table::book::record_for;
use table::entries::{entries, is_listed};
use table::ids::{count, find_id};
use table::record::load;

// The text that stands at a part of the message.
pub fn text_of(message: &[u8], p: Part) -> &[u8]
    ensures { result.now ≡ text_of message.now p }
{
    octets::part_at(message, p.start, p.len)
}

// The record of a market that has a ClOrdID; 0 if none has, which is no record's number, as `holder` of calls says.
pub fn holder(t: &[u8], clordid: &[u8]) -> usize
    requires { Market t.now }
    ensures { (result ≡ holder t.now clordid.now) × (result ≤ 255) }
{
    let n = count(t);
    find_id(t, n, clordid)
}

// The record that has the ClOrdID at a part of the message; 0 if none has.
pub fn holder_of(t: &[u8], message: &[u8], p: Part) -> usize
    requires { Market t.now }
    ensures { (result ≡ holder t.now (text_of message.now p)) × (result ≤ 255) }
{
    holder(t, text_of(message, p))
}

// The same where n records are filled.
fn holder_among(t: &[u8], n: usize, message: &[u8], p: Part) -> usize
    requires { Market t.now × (n ≡ filled t.now) }
    ensures { result ≡ holder t.now (text_of message.now p) }
{
    find_id(t, n, text_of(message, p))
}

// Whether a code is the market's.
pub fn is_code(t: &[u8], code: &[u8]) -> bool
    ensures { result ≡ is_code t.now code.now }
{
    octets::same(code, table::heading::code(t))
}

// Whether this is an MPID, and not a listed one.
fn is_stranger(t: &[u8], mpid: u64) -> bool
    requires { length t.now ≡ table_bytes }
    ensures { result ≡ (ltb 0 mpid && not (is_listed t.now mpid)) }
{
    let n = entries(t);
    (0 < mpid) & !is_listed(t, n, mpid)
}

// A new order: another code, a strange MPID, a ClOrdID in the table, no record that it can take.
pub fn new_stands(t: &[u8], n: usize, message: &[u8], o: NewOrder) -> Result<(), OrderReason>
    requires { Market t.now × (n ≡ filled t.now) }
    ensures { result ≡ new_stands t.now message.now o }
{
    if !is_code(t, text_of(message, o.code)) {
        return Err(OrderReason::OtherCode);
    }
    if is_stranger(t, o.terms.mpid) {
        return Err(OrderReason::Stranger);
    }
    if holder_among(t, n, message, o.id) != 0 {
        return Err(OrderReason::IdInUse);
    }
    if record_for(t, n) == 0 {
        return Err(OrderReason::NoRecord);
    }
    Ok(())
}

// A change of record k, which has its 41: another code or no such order, another side, nothing open, a ClOrdID in the table.
fn change_stands(
    t: &[u8],
    k: usize,
    code: &[u8],
    clordid: &[u8],
    side: u64,
) -> Result<(), ChangeReason>
    requires { Market t.now × (k ≤ filled t.now) }
    ensures { result ≡ change_stands t.now k code.now clordid.now side }
{
    if !is_code(t, code) | (k == 0) {
        return Err(ChangeReason::NoSuchOrder);
    }
    let o = load(t, k);
    if side != o.side {
        return Err(ChangeReason::Unfit);
    }
    if o.open_of() == 0 {
        return Err(ChangeReason::NothingOpen);
    }
    if holder(t, clordid) != 0 {
        return Err(ChangeReason::Unfit);
    }
    Ok(())
}

// A cancel of record k.
pub fn cancel_stands(
    t: &[u8],
    message: &[u8],
    k: usize,
    o: Cancellation,
) -> Result<(), ChangeReason>
    requires { Market t.now × (k ≡ holder t.now (text_of message.now o.original)) }
    ensures { result ≡ cancel_stands t.now message.now o }
{
    change_stands(
        t,
        k,
        text_of(message, o.code),
        text_of(message, o.id),
        o.side,
    )
}

// A quantity above what is executed and decremented of record k.
fn quantity_stands(t: &[u8], k: usize, quantity: u64) -> Result<(), ChangeReason>
    requires { Market t.now × (1 ≤ k) × (k ≤ filled t.now) }
    ensures { result ≡ and_above t.now k quantity (Ok tt) }
{
    let o = load(t, k);
    if o.executed + o.decremented < quantity {
        return Ok(());
    }
    Err(ChangeReason::Unfit)
}

// A replacement of record k: its quantity must be above executed + decremented, too.
pub fn replace_stands(
    t: &[u8],
    message: &[u8],
    k: usize,
    o: Replacement,
) -> Result<(), ChangeReason>
    requires { Market t.now × (k ≡ holder t.now (text_of message.now o.original)) }
    ensures { result ≡ replace_stands t.now message.now o }
{
    change_stands(
        t,
        k,
        text_of(message, o.code),
        text_of(message, o.id),
        o.side,
    )?;
    quantity_stands(t, k, o.quantity)
}
