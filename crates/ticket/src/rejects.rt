// Writes the reports of what is refused, each at the start of the lent rest of a report area, and answers how many bytes it takes: at
// most 512. Number n, of a message with this 52. The three that tell share all but the row: to pass that one in, with what it promises
// of its length, would take more lines than the three that each has.
ghost use Rattle.std.specs.Prelude.{◌≡◌, ◌≤◌, length};
ghost use Rattle.octets.specs.Written.{Wrote};
ghost use Rattle.report.specs.Fields.{row_bytes};
ghost use Rattle.report.specs.Frame.{report_bytes};
ghost use Rattle.ticket.specs.Tickets.{refused_row, unchanged_on, unchanged_row, faulty_row};
ghost use Rattle.ticket.specs.Legible.{LegibleRefused, LegibleUnchanged, Holder, LegibleFaulty};

use crate::stamp_on;
use report::Place;
use rows::{Faulty, Refused, Unchanged};

// A new order that is rejected.
pub fn tell_refused(
    out: &mut [u8],
    t: &[u8],
    message: &[u8],
    n: u64,
    time: Place,
    r: Refused,
) -> usize
    requires legible_refused { LegibleRefused t.now message.now n time r }
    requires in_bounds { 512 ≤ length out.old }
    ensures { Wrote out.old 0 (report_bytes (row_bytes message.now t.now (refused_row t.now n time r))) result out.new }
{
    let s = stamp_on(t, n, time);
    let row = rows::rejected_row(s, r);
    report::write::write_report(out, row, message, t)
}

// What is said of a cancel or replacement that is rejected, where record i has its 41, or none, which is 0.
pub fn unchanged_on(
    t: &[u8],
    i: usize,
    id: Place,
    orig: Place,
    reason: u64,
    response: u64,
) -> Unchanged
    requires { Holder t.now i }
    ensures { result ≡ unchanged_on t.now i id orig reason response }
{
    let (orderid, status) = if i == 0 {
        (0, 8)
    } else {
        let o = table::record::load(t, i);
        (table::record::order_id(t, i), rows::status_of(o))
    };
    Unchanged {
        id,
        orderid,
        status,
        orig,
        reason,
        response,
    }
}

// A cancel or replacement that is rejected.
pub fn tell_unchanged(
    out: &mut [u8],
    t: &[u8],
    message: &[u8],
    n: u64,
    time: Place,
    u: Unchanged,
) -> usize
    requires legible_unchanged { LegibleUnchanged t.now message.now n time u }
    requires in_bounds { 512 ≤ length out.old }
    ensures { Wrote out.old 0 (report_bytes (row_bytes message.now t.now (unchanged_row t.now n time u))) result out.new }
{
    let s = stamp_on(t, n, time);
    let row = rows::cancel_reject_row(s, u);
    report::write::write_report(out, row, message, t)
}

// A message with a fault.
pub fn tell_faulty(
    out: &mut [u8],
    t: &[u8],
    message: &[u8],
    n: u64,
    time: Place,
    f: Faulty,
) -> usize
    requires legible_faulty { LegibleFaulty t.now message.now n time f }
    requires in_bounds { 512 ≤ length out.old }
    ensures { Wrote out.old 0 (report_bytes (row_bytes message.now t.now (faulty_row t.now n time f))) result out.new }
{
    let s = stamp_on(t, n, time);
    let row = rows::session_reject_row(s, f);
    report::write::write_report(out, row, message, t)
}
