// Messages that are rejected: a report, and the next number goes up; nothing else changes.
ghost use Rattle.std.specs.Prelude.{◌≡◌, ◌≤◌, length, Ok, Err};
ghost use Rattle.request.specs.declared.Asked.TheVariants.{Refused as Asked-as-Refused, Enters};
ghost use Rattle.calls.specs.Checks.{new_stands};
ghost use Rattle.calls.specs.Submit.{faulted, new_rejected, change_rejected};
ghost use Rattle.intake.specs.Intake.{Asking, Unmet, Left};

use crate::takes::{raise, sent_at};
use calls::{ChangeReason, OrderReason, Reply, ReplyKind};
use fix::frame::Part;
use request::{NewOrder, Refusal};
use rows::{Faulty, Refused};
use table::heading::next;
use ticket::rejects::{tell_faulty, tell_refused, tell_unchanged, unchanged_on};

// A cancel or a replacement as its reject tells of it: its 52, its ClOrdID, its 41, the record that has the 41 or 0, and the value of 434: 1 of a
// cancel, 2 of a replacement.
#[derive(Clone, Copy)]
pub struct Change {
    pub time: Part,
    pub id: Part,
    pub original: Part,
    pub holder: usize,
    pub response: u64,
}

// A message with a fault: a session Reject.
pub fn fault(table: &mut [u8], message: &[u8], area: &mut [u8], f: Refusal) -> Reply
    requires { Asking table.old message.now (Asked-as-Refused f) × (1024 ≤ length area.old) }
    ensures { Left (faulted table.old message.now f) area.old (Ok result) table.new area.new }
{
    let n = next(table);
    let kind = sent_at(f.kind);
    let time = sent_at(f.time);
    let said = Faulty {
        sequence: f.number,
        tag: f.tag,
        kind,
        reason: f.reason,
    };
    let len = tell_faulty(area, table, message, n, time, said);
    raise(table);
    Reply {
        kind: ReplyKind::SessionReject,
        len,
    }
}

// A new order, for a reason (103).
pub fn reject_new(
    table: &mut [u8],
    message: &[u8],
    area: &mut [u8],
    o: NewOrder,
    reason: OrderReason,
) -> Reply
    requires { Asking table.old message.now (Enters o) × (new_stands table.old message.now o ≡ Err reason) × (1024 ≤ length area.old) }
    ensures { Left (new_rejected table.old message.now o reason) area.old (Ok result) table.new area.new }
{
    let n = next(table);
    let time = sent_at(o.time);
    let id = sent_at(o.id);
    let code = sent_at(o.code);
    let said = Refused {
        id,
        quantity: o.terms.quantity,
        side: o.terms.side,
        code,
        reason: u64::from(reason),
    };
    let len = tell_refused(area, table, message, n, time, said);
    raise(table);
    Reply {
        kind: ReplyKind::OrderReject,
        len,
    }
}

// A cancel or a replacement, for a reason (102).
pub fn reject_change(
    table: &mut [u8],
    message: &[u8],
    area: &mut [u8],
    change: Change,
    reason: ChangeReason,
) -> Reply
    requires { Unmet table.old message.now change × (1024 ≤ length area.old) }
    ensures { Left (change_rejected table.old message.now change.time change.id change.original change.holder reason change.response)
        area.old (Ok result) table.new area.new }
{
    let n = next(table);
    let when = sent_at(change.time);
    let new_id = sent_at(change.id);
    let orig = sent_at(change.original);
    let number = u64::from(reason);
    let said = unchanged_on(table, change.holder, new_id, orig, number, change.response);
    let len = tell_unchanged(area, table, message, n, when, said);
    raise(table);
    Reply {
        kind: ReplyKind::ChangeReject,
        len,
    }
}
