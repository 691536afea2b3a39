// Each call for C that there is of bonds and of equities, once for both: q says which. An answer becomes the paper's number, and each of its
// values is written through a pointer, 0 where it has none.
ghost use Rattle.std.specs.Prelude.{◌≡◌, ◌≤◌, length};
ghost use Rattle.matching.specs.Depth.{total_of, orders_of};
ghost use Rattle.table.specs.Opened.{opened};
ghost use Rattle.refusals.specs.Refusals.{answer_number};
ghost use Rattle.calls.specs.Open.{open_answer};
ghost use Rattle.calls.specs.Told.{area_after};
ghost use Rattle.calls.specs.Submit.{submitted, submit_number, submit_length};
ghost use Rattle.calls.specs.Run.{ran, run_bytes, run_reports, run_steps};
ghost use Rattle.market.specs.Depth.{depth_answer, depth_number, has_level, level_is};
ghost use Rattle.market.specs.Top.{top_answer};
ghost use Rattle.report.specs.Reports.{read_of};
ghost use Rattle.calls.specs.Read.{read_number, kind_number};
ghost use Rattle.octets.specs.Octets.{put};
ghost use Rattle.feed.specs.Copies.{fed, copy_number, copy_length, copy_next, read_copy_of};
ghost use Rattle.kamurjesh.specs.Numbers.{level_in, quote_of};

use crate::numbers::{
    copy_length, copy_next, copy_number, has_level, kind_number, level_in, orders_of, quote_of,
    read_number, run_done, submit_number, total_of,
};
use calls::submit_length;
use decimal::Instrument;
use feed::{copy, read_copy};
use kinds::kind_read;
use market::{depth, open, run, submit, top};
use matching::Level;
use refusals::{Refusal, answer_number};

// Opens a market in the table: 0, or refusal 9 with nothing changed.
pub fn open_of(
    q: Instrument,
    table: &mut [u8],
    venue: &[u8],
    port: &[u8],
    code: &[u8],
    first: u64,
    mpids: &[u64],
    modes: &[u64],
) -> u64
    ensures { (result ≡ answer_number (open_answer q table.old venue.now port.now code.now first mpids.now modes.now))
        × (table.new ≡ opened q table.old venue.now port.now code.now first mpids.now modes.now) }
{
    answer_number(&open(q, table, venue, port, code, first, mpids, modes))
}

// Takes one message: 0, or a refusal; with the length of the report that it writes, 0 where it writes none.
pub fn submit_of(
    q: Instrument,
    table: &mut [u8],
    message: &[u8],
    area: &mut [u8],
    len: &mut u64,
) -> u64
    ensures { (result ≡ submit_number (submitted q table.old message.now (length area.old)).answer)
        × (len.new ≡ submit_length (submitted q table.old message.now (length area.old)).answer)
        × (table.new ≡ (submitted q table.old message.now (length area.old)).table)
        × (area.new ≡ area_after area.old (submitted q table.old message.now (length area.old)).reports) }
{
    let answer = submit(q, table, message, area);
    *len = submit_length(answer) as u64;
    submit_number(answer)
}

// Takes steps of the order in work: 0 with the bytes and reports written and the steps taken, or a refusal.
pub fn run_of(
    q: Instrument,
    table: &mut [u8],
    area: &mut [u8],
    budget: u64,
    bytes: &mut u64,
    reports: &mut u64,
    steps: &mut u64,
) -> u64
    ensures { (result ≡ answer_number (ran q table.old (length area.old) budget).answer)
        × (bytes.new ≡ run_bytes (ran q table.old (length area.old) budget).answer)
        × (reports.new ≡ run_reports (ran q table.old (length area.old) budget).answer)
        × (steps.new ≡ run_steps (ran q table.old (length area.old) budget).answer)
        × (table.new ≡ (ran q table.old (length area.old) budget).table)
        × (area.new ≡ area_after area.old (ran q table.old (length area.old) budget).reports) }
{
    let answer = run(q, table, area, budget);
    let done = run_done(answer);
    *bytes = done.bytes as u64;
    *reports = done.reports;
    *steps = done.steps;
    answer_number(&answer)
}

// What Depth or Top answers: 0 with whether there is a level, its yield or price, total and number of orders; or a refusal.
fn told(
    q: Instrument,
    answer: Result<Option<Level>, Refusal>,
    found: &mut u64,
    quote: &mut i64,
    total: &mut u64,
    orders: &mut u64,
) -> u64
    requires { level_is (level_in answer) ≤ 1_999_999_999 }
    ensures { (result ≡ depth_number answer)
        × (found.new ≡ has_level (level_in answer))
        × (quote.new ≡ quote_of q (level_in answer))
        × (total.new ≡ total_of (level_in answer))
        × (orders.new ≡ orders_of (level_in answer)) }
{
    let level = level_in(answer);
    *found = has_level(level);
    *quote = quote_of(q, level);
    *total = total_of(level);
    *orders = orders_of(level);
    answer_number(&answer)
}

// The k-th level of a side from the best: 0 with whether there is one, its yield or price, total and number of orders; or a refusal.
pub fn depth_of(
    q: Instrument,
    table: &[u8],
    side: u64,
    k: u64,
    found: &mut u64,
    quote: &mut i64,
    total: &mut u64,
    orders: &mut u64,
) -> u64
    ensures { (result ≡ depth_number (depth_answer q table.now side k))
        × (found.new ≡ has_level (level_in (depth_answer q table.now side k)))
        × (quote.new ≡ quote_of q (level_in (depth_answer q table.now side k)))
        × (total.new ≡ total_of (level_in (depth_answer q table.now side k)))
        × (orders.new ≡ orders_of (level_in (depth_answer q table.now side k))) }
{
    told(q, depth(q, table, side, k), found, quote, total, orders)
}

// The best level of a side, from the heading: 0 with whether there is one, its yield or price, total and number of orders; or a refusal.
pub fn top_of(
    q: Instrument,
    table: &[u8],
    side: u64,
    found: &mut u64,
    quote: &mut i64,
    total: &mut u64,
    orders: &mut u64,
) -> u64
    ensures { (result ≡ depth_number (top_answer q table.now side))
        × (found.new ≡ has_level (level_in (top_answer q table.now side)))
        × (quote.new ≡ quote_of q (level_in (top_answer q table.now side)))
        × (total.new ≡ total_of (level_in (top_answer q table.now side)))
        × (orders.new ≡ orders_of (level_in (top_answer q table.now side))) }
{
    told(q, top(q, table, side), found, quote, total, orders)
}

// The kind of a report: 0 and the kind, or refusal 11.
pub fn read_of(q: Instrument, report: &[u8], kind: &mut u64) -> u64
    ensures { (result ≡ read_number (read_of q report.now).kind) × (kind.new ≡ kind_number (read_of q report.now).kind) }
{
    let is = kind_read(q, report);
    *kind = kind_number(is);
    read_number(is)
}

// Hands a feed one report: 0 with the length of its copy, 0 where it is not copied, and the feed's next number; or a refusal.
pub fn copy_of(
    q: Instrument,
    report: &[u8],
    subscription: u64,
    shows: u64,
    port: &[u8],
    group: &[u8],
    next: u64,
    area: &mut [u8],
    len: &mut u64,
    after: &mut u64,
) -> u64
    ensures { (result ≡ copy_number (fed q report.now subscription shows port.now group.now next (length area.old)).answer)
        × (len.new ≡ copy_length (fed q report.now subscription shows port.now group.now next (length area.old)).answer)
        × (after.new ≡ copy_next (fed q report.now subscription shows port.now group.now next (length area.old)).answer)
        × (area.new ≡ put area.old 0 (fed q report.now subscription shows port.now group.now next (length area.old)).bytes) }
{
    let answer = copy(q, report, subscription, shows, port, group, next, area);
    *len = copy_length(answer);
    *after = copy_next(answer);
    copy_number(answer)
}

// The kind of a copy: 0 and the kind, or refusal 11.
pub fn copy_read_of(q: Instrument, copy: &[u8], kind: &mut u64) -> u64
    ensures { (result ≡ read_number (read_copy_of q copy.now).kind) × (kind.new ≡ kind_number (read_copy_of q copy.now).kind) }
{
    let reading = read_copy(q, copy);
    let is = reading.kind;
    *kind = kind_number(is);
    read_number(is)
}
