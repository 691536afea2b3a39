// Load: the messages of a buffer, one behind another, each submitted and run to its end. The table is checked once for the whole call.
#![tactic(auto)]

pub mod find;
pub mod go;
pub mod take;

ghost use Rattle.std.specs.Prelude.{◌≡◌, length};
ghost use Rattle.calls.specs.Told.{area_after};
ghost use Rattle.load.specs.Load.{loaded, stop_number};

use crate::go::{Halt, go};
use audit::is_market_of;
use decimal::Instrument;
use refusals::Refusal;
use table::heading::{next, work};

// Why no more messages are taken: the buffer ends, there is no room, the numbers are spent, a length cannot be read.
#[derive(Clone, Copy, PartialEq, Eq)]
pub enum Stop {
    Done,
    Full,
    Spent,
    Unread,
}

impl From<Stop> for u64 {
    ghost from_gives = { λ stop number. number ≡ stop_number stop };

    // The number that Load answers.
    fn from(stop: Stop) -> u64 {
        match stop {
            Stop::Done => 0,
            Stop::Full => 1,
            Stop::Spent => 4,
            Stop::Unread => 5,
        }
    }
}

// What Load answers where it is not refused: where and why it stopped, and how many reports it wrote.
#[derive(Clone, Copy)]
pub struct LoadProgress {
    pub halt: Halt,
    pub reports: u64,
}

// Each message of the buffer is submitted and run to its end. Refused if the area is below 1,024 bytes, the table is no market of
// bonds or of equities, as asked, or an order is in work.
pub fn load(
    q: Instrument,
    table: &mut [u8],
    buffer: &[u8],
    area: &mut [u8],
) -> Result<LoadProgress, Refusal>
    ensures value { result ≡ (loaded q table.old buffer.now (length area.old)).answer }
    ensures table_after { table.new ≡ (loaded q table.old buffer.now (length area.old)).table }
    ensures area_after { area.new ≡ area_after area.old (loaded q table.old buffer.now (length area.old)).reports }
{
    if area.len() < 1024 {
        return Err(Refusal::NoRoom);
    }
    if !is_market_of(q, table) {
        return Err(Refusal::NoMarket);
    }
    if work(table) != 0 {
        return Err(Refusal::InWork);
    }
    let first = next(table);
    let halt = go(q, table, buffer, area);
    let reports = next(table) - first;
    Ok(LoadProgress { halt, reports })
}
