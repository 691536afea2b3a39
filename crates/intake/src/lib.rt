// Submit: one message is taken or refused, and its first report is written, on a market of bonds or of equities.
#![tactic(auto)]

mod checks;
mod handle;
mod rejects;
mod takes;

ghost use Rattle.std.specs.Prelude.{◌≡◌, ◌≤◌, length};
ghost use Rattle.calls.specs.Told.{area_after};
ghost use Rattle.calls.specs.Submit.{submitted};
ghost use Rattle.intake.specs.Intake.{Ready, Left};

use audit::is_market_of;
use calls::Reply;
use decimal::Instrument;
use handle::handle;
use refusals::Refusal;
use request::asks::asked;
use table::heading::{next, port, venue, work};

// One message is submitted to a market that can take it. For callers that know this of their table: it is not looked at again.
pub fn hear(
    q: Instrument,
    table: &mut [u8],
    message: &[u8],
    area: &mut [u8],
) -> Result<Reply, Refusal>
    requires { Ready q table.old × (1024 ≤ length area.old) }
    ensures { Left (submitted q table.old message.now (length area.old)) area.old result table.new area.new }
{
    let a = asked(q, venue(table), port(table), message);
    handle(table, message, area, a)
}

// One message is submitted, and its report, if it has one, is written at the start of the report area.
pub fn submit(
    q: Instrument,
    table: &mut [u8],
    message: &[u8],
    area: &mut [u8],
) -> Result<Reply, Refusal>
    ensures value { result ≡ (submitted q table.old message.now (length area.old)).answer }
    ensures table_after { table.new ≡ (submitted q table.old message.now (length area.old)).table }
    ensures area_after { area.new ≡ area_after area.old (submitted q table.old message.now (length area.old)).reports }
{
    if area.len() < 1024 {
        return Err(Refusal::NoRoom);
    }
    if !is_market_of(q, table) {
        return Err(Refusal::NoMarket);
    }
    if work(table) != 0 {
        return Err(Refusal::InWork);
    }
    if 999998976 < next(table) {
        return Err(Refusal::NumbersSpent);
    }
    hear(q, table, message, area)
}
