// What a message asks of a market that can take it: done, or rejected. Table, message and area pass as three slices, as C lends them.
ghost use Rattle.std.specs.Prelude.{◌≤◌, length, Ok};
ghost use Rattle.request.specs.declared.Asked.TheVariants.{Enters, Replaces, Cancels};
ghost use Rattle.calls.specs.Checks.{new_stands, cancel_stands, replace_stands};
ghost use Rattle.calls.specs.Submit.{entering, replacing, canceling, handled};
ghost use Rattle.intake.specs.Intake.{Asking, Left};

use crate::checks::{cancel_stands, holder_of, new_stands, replace_stands};
use crate::rejects::{Change, fault, reject_change, reject_new};
use crate::takes::{enter, renew, withdraw};
use calls::Reply;
use refusals::Refusal;
use request::{Asked, Cancellation, NewOrder, Replacement};
use table::ids::count;

// A new order is entered, or rejected.
fn enters(table: &mut [u8], message: &[u8], area: &mut [u8], o: NewOrder) -> Reply
    requires { Asking table.old message.now (Enters o) × (1024 ≤ length area.old) }
    ensures { Left (entering table.old message.now o (new_stands table.old message.now o))
        area.old (Ok result) table.new area.new }
{
    let n = count(table);
    match new_stands(table, n, message, o) {
        Ok(()) => enter(table, n, message, area, o),
        Err(reason) => reject_new(table, message, area, o, reason),
    }
}

// A replacement is done, or rejected.
fn replaces(table: &mut [u8], message: &[u8], area: &mut [u8], o: Replacement) -> Reply
    requires { Asking table.old message.now (Replaces o) × (1024 ≤ length area.old) }
    ensures { Left (replacing table.old message.now o (replace_stands table.old message.now o))
        area.old (Ok result) table.new area.new }
{
    let k = holder_of(table, message, o.original);
    match replace_stands(table, message, k, o) {
        Ok(()) => renew(table, message, area, o, k),
        Err(reason) => {
            let change = Change {
                time: o.time,
                id: o.id,
                original: o.original,
                holder: k,
                response: 2,
            };
            reject_change(table, message, area, change, reason)
        }
    }
}

// A cancel is done, or rejected.
fn cancels(table: &mut [u8], message: &[u8], area: &mut [u8], o: Cancellation) -> Reply
    requires { Asking table.old message.now (Cancels o) × (1024 ≤ length area.old) }
    ensures { Left (canceling table.old message.now o (cancel_stands table.old message.now o))
        area.old (Ok result) table.new area.new }
{
    let k = holder_of(table, message, o.original);
    match cancel_stands(table, message, k, o) {
        Ok(()) => withdraw(table, message, area, o, k),
        Err(reason) => {
            let change = Change {
                time: o.time,
                id: o.id,
                original: o.original,
                holder: k,
                response: 1,
            };
            reject_change(table, message, area, change, reason)
        }
    }
}

// What a message comes to that asks this.
pub fn handle(table: &mut [u8], message: &[u8], area: &mut [u8], a: Asked) -> Result<Reply, Refusal>
    requires { Asking table.old message.now a × (1024 ≤ length area.old) }
    ensures { Left (handled table.old message.now a) area.old result table.new area.new }
{
    match a {
        Asked::Garbled => Err(Refusal::Garbled),
        Asked::Refused(f) => Ok(fault(table, message, area, f)),
        Asked::Enters(o) => Ok(enters(table, message, area, o)),
        Asked::Replaces(o) => Ok(replaces(table, message, area, o)),
        Asked::Cancels(o) => Ok(cancels(table, message, area, o)),
    }
}
