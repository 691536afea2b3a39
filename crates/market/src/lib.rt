// The six calls of a market: open, submit, run, depth, top, read, each for bonds or for equities. They ask nothing of their caller: a
// table, a message, a report area may be any bytes of any length. Each contract says what is answered and what every lent byte is
// afterwards, by the definitions of the crate calls.
#![tactic(auto)]

pub mod front;
pub mod ladder;
pub mod levels;

ghost use Rattle.std.specs.Prelude.{◌≡◌, length, cond, not, eqb};
ghost use Rattle.refusals.specs.declared.Refusal.TheVariants.{InWork, BadSide};
ghost use Rattle.table.specs.Places.{table_bytes};
ghost use Rattle.table.specs.Heading.{work_of};
ghost use Rattle.table.specs.Opened.{opened};
ghost use Rattle.report.specs.Reports.{read_of};
ghost use Rattle.calls.specs.Told.{area_after};
ghost use Rattle.calls.specs.Open.{open_answer};
ghost use Rattle.calls.specs.Run.{ran};
ghost use Rattle.calls.specs.Submit.{submitted};
ghost use Rattle.market.specs.Depth.{is_side, depth_answer};
ghost use Rattle.market.specs.Top.{top_answer};

use crate::front::{Kept, has_heading, in_words};
use crate::levels::level;
use audit::is_market_of;
use calls::{Progress, Reply};
use decimal::Instrument;
use matching::Level;
use refusals::Refusal;
use report::Reading;
use table::best::best_at;
use table::heading::work;
use table::places;

// Opens a market: writes the whole table from the settings and the lists of MPIDs and modes, or changes nothing.
pub fn open(
    q: Instrument,
    table: &mut [u8],
    venue: &[u8],
    port: &[u8],
    code: &[u8],
    first: u64,
    mpids: &[u64],
    modes: &[u64],
) -> Result<(), Refusal>
    ensures { (result ≡ open_answer q table.old venue.now port.now code.now first mpids.now modes.now)
        × (table.new ≡ opened q table.old venue.now port.now code.now first mpids.now modes.now) }
{
    table::opening::open_table(q, table, venue, port, code, first, mpids, modes)
}

// Takes one message: refuses it, or rejects it with a report, or does what it asks and writes its first report.
pub fn submit(
    q: Instrument,
    table: &mut [u8],
    message: &[u8],
    area: &mut [u8],
) -> Result<Reply, Refusal>
    ensures { (result ≡ (submitted q table.old message.now (length area.old)).answer)
        × (table.new ≡ (submitted q table.old message.now (length area.old)).table)
        × (area.new ≡ area_after area.old (submitted q table.old message.now (length area.old)).reports) }
{
    intake::submit(q, table, message, area)
}

// Takes steps of the order in work, at most as many as the budget, while there is room for their reports in the area.
pub fn run(
    q: Instrument,
    table: &mut [u8],
    area: &mut [u8],
    budget: u64,
) -> Result<Progress, Refusal>
    ensures { (result ≡ (ran q table.old (length area.old) budget).answer)
        × (table.new ≡ (ran q table.old (length area.old) budget).table)
        × (area.new ≡ area_after area.old (ran q table.old (length area.old) budget).reports) }
{
    turns::run(q, table, area, budget)
}

// Whether a side is 1, the buys, or 2, all the sells. The side is a number, since a caller may lend any and `depth_answer` refuses the others.
fn is_side(side: u64) -> bool
    ensures { result ≡ is_side side }
{
    (side == 1) | (side == 2)
}

// Whether the levels of a side may be told of a table: refused while an order is in work, and if the side is none.
fn asked(table: &[u8], side: u64) -> Result<(), Refusal>
    requires { length table.now ≡ table_bytes }
    ensures { result ≡ cond (not (eqb (work_of table.now) 0)) (Err InWork) (cond (not (is_side side)) (Err BadSide) (Ok tt)) }
{
    if 0 < work(table) {
        return Err(Refusal::InWork);
    }
    if !is_side(side) {
        return Err(Refusal::BadSide);
    }
    Ok(())
}

// The k-th level of a side from the best, the best itself as the heading keeps it, or that there is none. Refused if the table is no such
// market, an order is in work, or the side is none.
pub fn depth(q: Instrument, table: &[u8], side: u64, k: u64) -> Result<Option<Level>, Refusal>
    ensures { result ≡ depth_answer q table.now side k }
{
    if !is_market_of(q, table) {
        return Err(Refusal::NoMarket);
    }
    asked(table, side)?;
    if k == 0 {
        return Ok(in_words(best_at(table, side)));
    }
    Ok(level(table, side, k))
}

// The best level of a side, as the heading says, or that there is none. Refused if the length of the table or its heading is wrong, an order is
// in work, or the side is none. No record is looked at; on a market the answer is that of depth for k = 0.
pub fn top(q: Instrument, table: &[u8], side: u64) -> Result<Option<Level>, Refusal>
    ensures { result ≡ top_answer q table.now side }
{
    if table.len() != places::TABLE {
        return Err(Refusal::NoMarket);
    }
    let kept = Kept::of(table);
    if !has_heading(q, table, kept) {
        return Err(Refusal::NoMarket);
    }
    asked(table, side)?;
    Ok(in_words(kept.of_side(side)))
}

// The kind and the fields of a report, or that the bytes are none.
pub fn read(q: Instrument, report: &[u8]) -> Reading
    ensures { result ≡ read_of q report.now }
{
    report::read::read(q, report)
}
