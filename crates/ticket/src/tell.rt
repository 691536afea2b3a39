// Writes the report of an event at the start of the lent rest of a report area, and answers how many bytes it takes: at most 512.
// The table is the one after the event; the texts of the cause stand in the message or in the table.
ghost use Rattle.std.specs.Prelude.{◌≡◌, ◌≤◌, length};
ghost use Rattle.octets.specs.Written.{Wrote};
ghost use Rattle.ticket.specs.Tickets.{ticket_of};
ghost use Rattle.ticket.specs.Legible.{Legible};

use crate::{Cause, order_of, shown_on, stamp_on, told_of};
use matching::Event;
use report::write::close;
use rows::write::put_execution;

// The report of event e, number n, caused by c.
pub fn tell(out: &mut [u8], t: &[u8], message: &[u8], n: u64, c: Cause, e: Event) -> usize
    requires legible { Legible t.now message.now n c e }
    requires in_bounds { 512 ≤ length out.old }
    ensures { Wrote out.old 0 (ticket_of t.now message.now n c e) result out.new }
{
    let time = c.time;
    let orig = c.orig;
    let s = stamp_on(t, n, time);
    let i = order_of(e) as usize;
    let o = shown_on(t, i);
    let v = told_of(t, n, orig, e, i, o);
    let end = put_execution(out, 16, s, o, v, message, t);
    close(out, end)
}
