// Events that happen on a table while Run works: each changes its order and is told in a report at once.
ghost use Rattle.std.specs.Prelude.{◌≡◌, [], ◌∷◌, ◌+◌, ◌≤◌, length};
ghost use Rattle.table.specs.Places.{table_bytes};
ghost use Rattle.ticket.specs.Tickets.{kept_cause};
ghost use Rattle.turns.specs.Turns.{Telling, Tellings, Reported};

use matching::Event;
use report::Place;
use table::event::apply;
use table::places;
use ticket::tell::tell;
use ticket::{Cause, order_of};

// What was written of some events: how many bytes, and how many reports.
#[derive(Clone, Copy)]
pub struct Told {
    pub bytes: usize,
    pub reports: u64,
}

// What causes the reports of a step: the message whose 52 the heading keeps.
fn kept_cause(t: &[u8]) -> Cause
    requires { length t.now ≡ table_bytes }
    ensures { result ≡ kept_cause t.now }
{
    let length = octets::wide(t[places::STAMP]) as usize;
    let time = Place {
        sent: false,
        start: places::STAMP_TEXT,
        length,
    };
    let orig = Place {
        sent: false,
        start: 0,
        length: 0,
    };
    Cause { time, orig }
}

// One event, with report number n.
pub fn one(table: &mut [u8], out: &mut [u8], n: u64, e: Event) -> Told
    requires { Telling table.old n e × (512 ≤ length out.old) }
    ensures { Reported table.old out.old n (e ∷ []) result table.new out.new }
{
    let k = order_of(e) as usize;
    apply(table, k, e);
    let c = kept_cause(table);
    let bytes = tell(out, table, b"", n, c, e);
    Told { bytes, reports: 1 }
}

// One event and then another, with report numbers n and n + 1: the second report starts where the first ended.
pub fn two(table: &mut [u8], out: &mut [u8], n: u64, e: Event, f: Event) -> Told
    requires { Tellings table.old n (e ∷ f ∷ []) × (1024 ≤ length out.old) }
    ensures { Reported table.old out.old n (e ∷ f ∷ []) result table.new out.new }
{
    let first = one(table, out, n, e);
    let a = first.bytes;
    let second = one(table, &mut out[a..], n + 1, f);
    Told {
        bytes: a + second.bytes,
        reports: 2,
    }
}
