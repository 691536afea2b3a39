// The calls of the market as programs in C make them (include/kamurjesh.h), which kamurjesh_c exports. Each call stands twice, of bonds and of
// equities, because C has a name for either: both are the one call of module both, told which. It writes each value of an answer through a
// pointer, 0 where it has none. Load is in loads, and the calls that keep a market overnight are in images.
#![tactic(auto)]

ghost use Rattle.std.specs.Prelude.{◌≡◌, length};
ghost use Rattle.decimal.specs.declared.Instrument.TheVariants.{Bonds, Equities};
ghost use Rattle.matching.specs.Depth.{total_of, orders_of};
ghost use Rattle.table.specs.Opened.{opened};
ghost use Rattle.refusals.specs.Refusals.{answer_number};
ghost use Rattle.calls.specs.Open.{open_answer};
ghost use Rattle.calls.specs.Told.{area_after};
ghost use Rattle.calls.specs.Submit.{submitted, submit_number, submit_length};
ghost use Rattle.calls.specs.Run.{ran, run_bytes, run_reports, run_steps};
ghost use Rattle.load.specs.Load.{loaded, load_number, load_place, load_finished, load_bytes, load_reports};
ghost use Rattle.market.specs.Depth.{depth_answer, depth_number, has_level};
ghost use Rattle.market.specs.Top.{top_answer};
ghost use Rattle.report.specs.Reports.{read_of, part_of};
ghost use Rattle.calls.specs.Read.{read_number, kind_number};
ghost use Rattle.octets.specs.Octets.{put};
ghost use Rattle.feed.specs.Copies.{fed, copy_number, copy_length, copy_next, read_copy_of};
ghost use Rattle.kamurjesh.specs.Numbers.{level_in, quote_of, is_there, start_of, len_of};

pub mod both;
pub mod images;
pub mod loads;
pub mod numbers;

use crate::both::{copy_of, copy_read_of, depth_of, open_of, read_of, run_of, submit_of, top_of};
use crate::loads::load_of;
use crate::numbers::{is_there, len_of, start_of};
use decimal::Instrument;
use report::read::field;

// Opens a market of bonds in the table: 0, or refusal 9 with nothing changed.
pub fn kamurjesh_open(
    table: &mut [u8],
    venue: &[u8],
    port: &[u8],
    code: &[u8],
    first: u64,
    mpids: &[u64],
    modes: &[u64],
) -> u64
    ensures { (result ≡ answer_number (open_answer Bonds table.old venue.now port.now code.now first mpids.now modes.now))
        × (table.new ≡ opened Bonds table.old venue.now port.now code.now first mpids.now modes.now) }
{
    open_of(
        Instrument::Bonds,
        table,
        venue,
        port,
        code,
        first,
        mpids,
        modes,
    )
}

// Opens a market of equities in the table: 0, or refusal 9 with nothing changed.
pub fn kamurjesh_equities_open(
    table: &mut [u8],
    venue: &[u8],
    port: &[u8],
    symbol: &[u8],
    first: u64,
    mpids: &[u64],
    modes: &[u64],
) -> u64
    ensures { (result ≡ answer_number (open_answer Equities table.old venue.now port.now symbol.now first mpids.now modes.now))
        × (table.new ≡ opened Equities table.old venue.now port.now symbol.now first mpids.now modes.now) }
{
    open_of(
        Instrument::Equities,
        table,
        venue,
        port,
        symbol,
        first,
        mpids,
        modes,
    )
}

// Takes one message to a market of bonds: 0, or a refusal; with the length of the report that it writes, 0 where it writes none.
pub fn kamurjesh_submit(table: &mut [u8], message: &[u8], area: &mut [u8], len: &mut u64) -> u64
    ensures { (result ≡ submit_number (submitted Bonds table.old message.now (length area.old)).answer)
        × (len.new ≡ submit_length (submitted Bonds table.old message.now (length area.old)).answer)
        × (table.new ≡ (submitted Bonds table.old message.now (length area.old)).table)
        × (area.new ≡ area_after area.old (submitted Bonds table.old message.now (length area.old)).reports) }
{
    submit_of(Instrument::Bonds, table, message, area, len)
}

// Takes one message to a market of equities: 0, or a refusal; with the length of the report that it writes, 0 where it writes none.
pub fn kamurjesh_equities_submit(
    table: &mut [u8],
    message: &[u8],
    area: &mut [u8],
    len: &mut u64,
) -> u64
    ensures { (result ≡ submit_number (submitted Equities table.old message.now (length area.old)).answer)
        × (len.new ≡ submit_length (submitted Equities table.old message.now (length area.old)).answer)
        × (table.new ≡ (submitted Equities table.old message.now (length area.old)).table)
        × (area.new ≡ area_after area.old (submitted Equities table.old message.now (length area.old)).reports) }
{
    submit_of(Instrument::Equities, table, message, area, len)
}

// Takes steps of the order in work on a market of bonds: 0 with the bytes and reports written and the steps taken, or a refusal.
pub fn kamurjesh_run(
    table: &mut [u8],
    area: &mut [u8],
    budget: u64,
    bytes: &mut u64,
    reports: &mut u64,
    steps: &mut u64,
) -> u64
    ensures { (result ≡ answer_number (ran Bonds table.old (length area.old) budget).answer)
        × (bytes.new ≡ run_bytes (ran Bonds table.old (length area.old) budget).answer)
        × (reports.new ≡ run_reports (ran Bonds table.old (length area.old) budget).answer)
        × (steps.new ≡ run_steps (ran Bonds table.old (length area.old) budget).answer)
        × (table.new ≡ (ran Bonds table.old (length area.old) budget).table)
        × (area.new ≡ area_after area.old (ran Bonds table.old (length area.old) budget).reports) }
{
    run_of(
        Instrument::Bonds,
        table,
        area,
        budget,
        bytes,
        reports,
        steps,
    )
}

// Takes steps of the order in work on a market of equities: 0 with the bytes and reports written and the steps taken, or a refusal.
pub fn kamurjesh_equities_run(
    table: &mut [u8],
    area: &mut [u8],
    budget: u64,
    bytes: &mut u64,
    reports: &mut u64,
    steps: &mut u64,
) -> u64
    ensures { (result ≡ answer_number (ran Equities table.old (length area.old) budget).answer)
        × (bytes.new ≡ run_bytes (ran Equities table.old (length area.old) budget).answer)
        × (reports.new ≡ run_reports (ran Equities table.old (length area.old) budget).answer)
        × (steps.new ≡ run_steps (ran Equities table.old (length area.old) budget).answer)
        × (table.new ≡ (ran Equities table.old (length area.old) budget).table)
        × (area.new ≡ area_after area.old (ran Equities table.old (length area.old) budget).reports) }
{
    run_of(
        Instrument::Equities,
        table,
        area,
        budget,
        bytes,
        reports,
        steps,
    )
}

// Takes the messages of a buffer to a market of bonds, each submitted and run to its end: 0, or why it stopped, with the place of the
// first message not submitted, the messages finished, and the bytes and reports written; or a refusal.
pub fn kamurjesh_load(
    table: &mut [u8],
    buffer: &[u8],
    area: &mut [u8],
    place: &mut u64,
    finished: &mut u64,
    bytes: &mut u64,
    reports: &mut u64,
) -> u64
    ensures { (result ≡ load_number (loaded Bonds table.old buffer.now (length area.old)).answer)
        × (place.new ≡ load_place (loaded Bonds table.old buffer.now (length area.old)).answer)
        × (finished.new ≡ load_finished (loaded Bonds table.old buffer.now (length area.old)).answer)
        × (bytes.new ≡ load_bytes (loaded Bonds table.old buffer.now (length area.old)).answer)
        × (reports.new ≡ load_reports (loaded Bonds table.old buffer.now (length area.old)).answer)
        × (table.new ≡ (loaded Bonds table.old buffer.now (length area.old)).table)
        × (area.new ≡ area_after area.old (loaded Bonds table.old buffer.now (length area.old)).reports) }
{
    load_of(
        Instrument::Bonds,
        table,
        buffer,
        area,
        place,
        finished,
        bytes,
        reports,
    )
}

// Takes the messages of a buffer to a market of equities, each submitted and run to its end: 0, or why it stopped, with the place of the
// first message not submitted, the messages finished, and the bytes and reports written; or a refusal.
pub fn kamurjesh_equities_load(
    table: &mut [u8],
    buffer: &[u8],
    area: &mut [u8],
    place: &mut u64,
    finished: &mut u64,
    bytes: &mut u64,
    reports: &mut u64,
) -> u64
    ensures { (result ≡ load_number (loaded Equities table.old buffer.now (length area.old)).answer)
        × (place.new ≡ load_place (loaded Equities table.old buffer.now (length area.old)).answer)
        × (finished.new ≡ load_finished (loaded Equities table.old buffer.now (length area.old)).answer)
        × (bytes.new ≡ load_bytes (loaded Equities table.old buffer.now (length area.old)).answer)
        × (reports.new ≡ load_reports (loaded Equities table.old buffer.now (length area.old)).answer)
        × (table.new ≡ (loaded Equities table.old buffer.now (length area.old)).table)
        × (area.new ≡ area_after area.old (loaded Equities table.old buffer.now (length area.old)).reports) }
{
    load_of(
        Instrument::Equities,
        table,
        buffer,
        area,
        place,
        finished,
        bytes,
        reports,
    )
}

// The k-th level of a side from the best, of a market of bonds: 0 with whether there is one, its yield, total and number of orders; or a
// refusal.
pub fn kamurjesh_depth(
    table: &[u8],
    side: u64,
    k: u64,
    found: &mut u64,
    yield_thousandths: &mut i64,
    total: &mut u64,
    orders: &mut u64,
) -> u64
    ensures { (result ≡ depth_number (depth_answer Bonds table.now side k))
        × (found.new ≡ has_level (level_in (depth_answer Bonds table.now side k)))
        × (yield_thousandths.new ≡ quote_of Bonds (level_in (depth_answer Bonds table.now side k)))
        × (total.new ≡ total_of (level_in (depth_answer Bonds table.now side k)))
        × (orders.new ≡ orders_of (level_in (depth_answer Bonds table.now side k))) }
{
    depth_of(
        Instrument::Bonds,
        table,
        side,
        k,
        found,
        yield_thousandths,
        total,
        orders,
    )
}

// The k-th level of a side from the best, of a market of equities: 0 with whether there is one, its price, total and number of orders;
// or a refusal.
pub fn kamurjesh_equities_depth(
    table: &[u8],
    side: u64,
    k: u64,
    found: &mut u64,
    price_tenths: &mut i64,
    total: &mut u64,
    orders: &mut u64,
) -> u64
    ensures { (result ≡ depth_number (depth_answer Equities table.now side k))
        × (found.new ≡ has_level (level_in (depth_answer Equities table.now side k)))
        × (price_tenths.new ≡ quote_of Equities (level_in (depth_answer Equities table.now side k)))
        × (total.new ≡ total_of (level_in (depth_answer Equities table.now side k)))
        × (orders.new ≡ orders_of (level_in (depth_answer Equities table.now side k))) }
{
    depth_of(
        Instrument::Equities,
        table,
        side,
        k,
        found,
        price_tenths,
        total,
        orders,
    )
}

// The best level of a side, from the heading of a market of bonds: 0 with whether there is one, its yield, total and number of orders;
// or a refusal.
pub fn kamurjesh_top(
    table: &[u8],
    side: u64,
    found: &mut u64,
    yield_thousandths: &mut i64,
    total: &mut u64,
    orders: &mut u64,
) -> u64
    ensures { (result ≡ depth_number (top_answer Bonds table.now side))
        × (found.new ≡ has_level (level_in (top_answer Bonds table.now side)))
        × (yield_thousandths.new ≡ quote_of Bonds (level_in (top_answer Bonds table.now side)))
        × (total.new ≡ total_of (level_in (top_answer Bonds table.now side)))
        × (orders.new ≡ orders_of (level_in (top_answer Bonds table.now side))) }
{
    top_of(
        Instrument::Bonds,
        table,
        side,
        found,
        yield_thousandths,
        total,
        orders,
    )
}

// The best level of a side, from the heading of a market of equities: 0 with whether there is one, its price, total and number of
// orders; or a refusal.
pub fn kamurjesh_equities_top(
    table: &[u8],
    side: u64,
    found: &mut u64,
    price_tenths: &mut i64,
    total: &mut u64,
    orders: &mut u64,
) -> u64
    ensures { (result ≡ depth_number (top_answer Equities table.now side))
        × (found.new ≡ has_level (level_in (top_answer Equities table.now side)))
        × (price_tenths.new ≡ quote_of Equities (level_in (top_answer Equities table.now side)))
        × (total.new ≡ total_of (level_in (top_answer Equities table.now side)))
        × (orders.new ≡ orders_of (level_in (top_answer Equities table.now side))) }
{
    top_of(
        Instrument::Equities,
        table,
        side,
        found,
        price_tenths,
        total,
        orders,
    )
}

// The kind of a report of bonds: 0 and the kind, or refusal 11.
pub fn kamurjesh_read(report: &[u8], kind: &mut u64) -> u64
    ensures { (result ≡ read_number (read_of Bonds report.now).kind) × (kind.new ≡ kind_number (read_of Bonds report.now).kind) }
{
    read_of(Instrument::Bonds, report, kind)
}

// The kind of a report of equities: 0 and the kind, or refusal 11.
pub fn kamurjesh_equities_read(report: &[u8], kind: &mut u64) -> u64
    ensures { (result ≡ read_number (read_of Equities report.now).kind) × (kind.new ≡ kind_number (read_of Equities report.now).kind) }
{
    read_of(Instrument::Equities, report, kind)
}

// Where the value of a tag stands in a report or a copy of either: 1 with its first byte and its length, or 0 where no field has the tag.
pub fn kamurjesh_field(report: &[u8], tag: u64, start: &mut u64, len: &mut u64) -> u64
    ensures { (result ≡ is_there (part_of report.now tag))
        × (start.new ≡ start_of (part_of report.now tag))
        × (len.new ≡ len_of (part_of report.now tag)) }
{
    let part = field(report, tag);
    *start = start_of(part);
    *len = len_of(part);
    is_there(part)
}

// Hands a feed one report of bonds: 0 with the length of its copy, 0 where it is not copied, and the feed's next number; or a refusal.
pub fn kamurjesh_copy(
    report: &[u8],
    subscription: u64,
    shows: u64,
    port: &[u8],
    group: &[u8],
    next: u64,
    area: &mut [u8],
    len: &mut u64,
    after: &mut u64,
) -> u64
    ensures { (result ≡ copy_number (fed Bonds report.now subscription shows port.now group.now next (length area.old)).answer)
        × (len.new ≡ copy_length (fed Bonds report.now subscription shows port.now group.now next (length area.old)).answer)
        × (after.new ≡ copy_next (fed Bonds report.now subscription shows port.now group.now next (length area.old)).answer)
        × (area.new ≡ put area.old 0 (fed Bonds report.now subscription shows port.now group.now next (length area.old)).bytes) }
{
    copy_of(
        Instrument::Bonds,
        report,
        subscription,
        shows,
        port,
        group,
        next,
        area,
        len,
        after,
    )
}

// Hands a feed one report of equities: 0 with the length of its copy, 0 where it is not copied, and the feed's next number; or a refusal.
pub fn kamurjesh_equities_copy(
    report: &[u8],
    subscription: u64,
    shows: u64,
    port: &[u8],
    group: &[u8],
    next: u64,
    area: &mut [u8],
    len: &mut u64,
    after: &mut u64,
) -> u64
    ensures { (result ≡ copy_number (fed Equities report.now subscription shows port.now group.now next (length area.old)).answer)
        × (len.new ≡ copy_length (fed Equities report.now subscription shows port.now group.now next (length area.old)).answer)
        × (after.new ≡ copy_next (fed Equities report.now subscription shows port.now group.now next (length area.old)).answer)
        × (area.new ≡ put area.old 0 (fed Equities report.now subscription shows port.now group.now next (length area.old)).bytes) }
{
    copy_of(
        Instrument::Equities,
        report,
        subscription,
        shows,
        port,
        group,
        next,
        area,
        len,
        after,
    )
}

// The kind of a copy of a report of bonds: 0 and the kind, or refusal 11.
pub fn kamurjesh_copy_read(copy: &[u8], kind: &mut u64) -> u64
    ensures { (result ≡ read_number (read_copy_of Bonds copy.now).kind) × (kind.new ≡ kind_number (read_copy_of Bonds copy.now).kind) }
{
    copy_read_of(Instrument::Bonds, copy, kind)
}

// The kind of a copy of a report of equities: 0 and the kind, or refusal 11.
pub fn kamurjesh_equities_copy_read(copy: &[u8], kind: &mut u64) -> u64
    ensures { (result ≡ read_number (read_copy_of Equities copy.now).kind) × (kind.new ≡ kind_number (read_copy_of Equities copy.now).kind) }
{
    copy_read_of(Instrument::Equities, copy, kind)
}
