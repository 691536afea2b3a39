// Events in the table: the record of an event's order, as it is after the event.
ghost use Rattle.std.specs.Prelude.{◌≡◌, ◌≤◌, length};
ghost use Rattle.table.specs.Orders.{applied, withdrawn, replaced};
ghost use Rattle.table.specs.Facts.{Due};

use crate::record::{load, put_amounts, put_id, put_terms};
use matching::Event;

// Applies an event that changes the amounts of its order, record k.
pub fn apply(t: &mut [u8], k: usize, e: Event)
    requires { Due t.old k e }
    ensures { t.new ≡ applied t.old e }
{
    let o = load(t, k);
    let p = o.change(e);
    put_amounts(t, k, p);
}

// Applies a requested cancel, with its new ClOrdID, to record k.
pub fn withdraw(t: &mut [u8], k: usize, clordid: &[u8], e: Event)
    requires { Due t.old k e × (length clordid.now ≤ 32) }
    ensures { t.new ≡ withdrawn t.old clordid.now e }
{
    let o = load(t, k);
    let p = o.change(e);
    put_id(t, k, clordid);
    put_amounts(t, k, p);
}

// Applies a replacement, with its new ClOrdID, to record k.
pub fn replace(t: &mut [u8], k: usize, clordid: &[u8], e: Event)
    requires { Due t.old k e × (length clordid.now ≤ 32) }
    ensures { t.new ≡ replaced t.old clordid.now e }
{
    let o = load(t, k);
    let p = o.change(e);
    put_id(t, k, clordid);
    put_terms(t, k, p);
}
