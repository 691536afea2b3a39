// Run: steps of the order in work until nothing is in work, the budget is spent, or there is no room for a step's reports.
ghost use Rattle.std.specs.Prelude.{◌≡◌, length};
ghost use Rattle.matching.specs.Matching.{partner};
ghost use Rattle.table.specs.Places.{table_bytes};
ghost use Rattle.table.specs.Heading.{work_of};
ghost use Rattle.table.specs.Orders.{book_of};
ghost use Rattle.table.specs.Facts.{Market};
ghost use Rattle.calls.specs.Told.{area_after};
ghost use Rattle.calls.specs.Run.{stops, ran};
ghost use Rattle.turns.specs.Turns.{Walked};

use crate::step::{step_among, step_with};
use audit::is_market_of;
use calls::Progress;
use decimal::Instrument;
use refusals::Refusal;
use table::facing::{END, alone, face};
use table::heading::work;

// Whether no step is taken: nothing is in work, or fewer than 1,024 bytes are free.
fn rests(t: &[u8], free: usize) -> bool
    requires { length t.now ≡ table_bytes }
    ensures { result ≡ stops t.now free }
{
    (work(t) == 0) | (free < 1024)
}

// The one step of an order in work that meets nobody, if the budget and the room allow it.
fn last_step(table: &mut [u8], area: &mut [u8], budget: u64) -> Progress
    requires { Market table.old × (partner (book_of table.old) (work_of table.old) ≡ 0) }
    ensures { Walked table.old area.old budget result table.new area.new }
{
    if (budget == 0) | rests(table, area.len()) {
        return Progress {
            bytes: 0,
            reports: 0,
            steps: 0,
        };
    }
    let told = step_with(table, area, 0);
    Progress {
        bytes: told.bytes,
        reports: told.reports,
        steps: 1,
    }
}

// Steps within a budget of an order in work that meets somebody; the reports of each start where those of the one before ended.
fn steps_among(table: &mut [u8], area: &mut [u8], budget: u64) -> Progress
    requires { Market table.old }
    ensures { Walked table.old area.old budget result table.new area.new }
{
    let room = area.len();
    let mut turns: [u64; 256] = [END; 256];
    let mut firsts: [usize; 16] = [0; 16];
    let m = face(table, &mut turns, &mut firsts);
    let mut at: usize = 0;
    let mut reports: u64 = 0;
    for taken in 0..budget {
        if rests(table, room - at) {
            return Progress {
                bytes: at,
                reports,
                steps: taken,
            };
        }
        let told = step_among(table, &mut area[at..], &mut turns, &mut firsts, m);
        at += told.bytes;
        reports += told.reports;
    }
    Progress {
        bytes: at,
        reports,
        steps: budget,
    }
}

// Steps within a budget; the reports of each start where those of the one before ended. For callers that know that their table is a market: it
// is not looked at again.
pub fn steps(table: &mut [u8], area: &mut [u8], budget: u64) -> Progress
    requires { Market table.old }
    ensures { Walked table.old area.old budget result table.new area.new }
{
    if alone(table) {
        return last_step(table, area, budget);
    }
    steps_among(table, area, budget)
}

// Steps of the order in work, at most as many as the budget, on a market of bonds or of equities. Refused if the area is below 1,024
// bytes, or the table is no such market.
pub fn run(
    q: Instrument,
    table: &mut [u8],
    area: &mut [u8],
    budget: u64,
) -> Result<Progress, Refusal>
    ensures value { result ≡ (ran q table.old (length area.old) budget).answer }
    ensures table_after { table.new ≡ (ran q table.old (length area.old) budget).table }
    ensures area_after { area.new ≡ area_after area.old (ran q table.old (length area.old) budget).reports }
{
    if area.len() < 1024 {
        return Err(Refusal::NoRoom);
    }
    if !is_market_of(q, table) {
        return Err(Refusal::NoMarket);
    }
    Ok(steps(table, area, budget))
}
