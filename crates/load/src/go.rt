// The messages of a buffer, one after another.
ghost use Rattle.std.specs.Prelude.{◌≡◌, ◌≤◌, length, drop};
ghost use Rattle.table.specs.Places.{table_bytes};
ghost use Rattle.load.specs.Turn.{Idle, next_for, Went};

use crate::Stop;
use crate::find::length_at;
use crate::take::take;
use decimal::Instrument;
use octets::part::part_at;
use table::heading::{next, work};

// How far the messages were taken: why no more are, the place of the first one not submitted, how many were finished, and the bytes of
// their reports.
#[derive(Clone, Copy)]
pub struct Halt {
    pub stop: Stop,
    pub place: usize,
    pub finished: u64,
    pub bytes: usize,
}

// The length of the message at a place that can be taken with so many bytes of the report area free, or why none can.
fn next_at(t: &[u8], buffer: &[u8], place: usize, free: usize) -> Result<usize, Stop>
    requires { (length t.now ≡ table_bytes) × (place ≤ length buffer.now) }
    ensures { result ≡ next_for t.now (drop place buffer.now) free }
{
    if place == buffer.len() {
        return Err(Stop::Done);
    }
    if free < 1024 {
        return Err(Stop::Full);
    }
    let Some(n) = length_at(buffer, place) else {
        return Err(Stop::Unread);
    };
    if 999998976 < next(t) {
        return Err(Stop::Spent);
    }
    Ok(n)
}

// Takes the messages of the buffer until no more can be taken; the reports of each start where those of the one before ended. A loop:
// how far it moves on depends on each message.
pub fn go(q: Instrument, table: &mut [u8], buffer: &[u8], area: &mut [u8]) -> Halt
    requires { Idle q table.old }
    ensures { Went q table.old buffer.now area.old result table.new area.new }
{
    let room = area.len();
    let mut place: usize = 0;
    let mut finished: u64 = 0;
    let mut at: usize = 0;
    loop {
        let n = match next_at(table, buffer, place, room - at) {
            Ok(n) => n,
            Err(stop) => {
                return Halt {
                    stop,
                    place,
                    finished,
                    bytes: at,
                };
            }
        };
        let more = take(q, table, part_at(buffer, place, n), &mut area[at..]);
        place += n;
        at += more;
        if work(table) != 0 {
            return Halt {
                stop: Stop::Full,
                place,
                finished,
                bytes: at,
            };
        }
        finished += 1;
    }
}
