// Drop copies: a feed is handed one written report at a time with its own next number, and writes a copy of it for a back office or
// does not; and copies are read back. Both ask nothing of their caller: a report, the identifiers, the area may be any bytes of any
// length. Nothing is kept between calls.
#![tactic(auto)]

pub mod force;
pub mod rows;
pub mod settings;

ghost use Rattle.std.specs.Prelude.{◌≡◌, true, ◌≤◌, length};
ghost use Rattle.octets.specs.Octets.{put};
ghost use Rattle.octets.specs.Written.{Wrote};
ghost use Rattle.report.specs.Fields.{row_bytes};
ghost use Rattle.feed.specs.Rows.{copy_row};
ghost use Rattle.feed.specs.Settings.{client_of};
ghost use Rattle.feed.specs.Copies.{fed, copy_bytes, read_copy_of};

use crate::rows::{copy_row, copy_slots};
use crate::settings::{client_text, copy_kind, is_copied, is_none, is_setting};
use decimal::Instrument;
use refusals::Refusal;
use report::read::{kind_of, read, read_as};
use report::slots::slots_of;
use report::write::write_report;
use report::{Field, Reading};

// What a feed that does not refuse answers: how long the copy is, or that there is none; and the feed's next number, which is the same
// where there is none.
#[derive(Clone, Copy, PartialEq, Eq)]
pub struct Answer {
    pub len: Option<usize>,
    pub next: u64,
}

// Writes the copy of a report with these fields.
fn write_copy(
    area: &mut [u8],
    fields: [Field; 36],
    report: &[u8],
    shows: u64,
    port: &[u8],
    group: &[u8],
    number: u64,
) -> usize
    requires group_len_bound { length (client_of shows port.now group.now) ≤ 30 }
    requires fields_len_bound { length (row_bytes report.now (client_of shows port.now group.now) (copy_row number (length (client_of shows port.now group.now)) fields)) ≤ 489 }
    requires in_bounds { 512 ≤ length area.old }
    ensures { Wrote area.old 0 (copy_bytes report.now number (client_of shows port.now group.now) fields) result area.new }
{
    let mut text = [0u8; 30];
    let width = client_text(&mut text, shows, port, group);
    write_report(
        area,
        copy_row(fields, number, width),
        report,
        &text[..width],
    )
}

// Hands a feed one report of its market: its copy at the start of the area, or nothing written. A feed that cannot be set up so is refused as
// a bad feed.
pub fn copy(
    q: Instrument,
    report: &[u8],
    subscription: u64,
    shows: u64,
    port: &[u8],
    group: &[u8],
    next: u64,
    area: &mut [u8],
) -> Result<Answer, Refusal>
    ensures { (result ≡ (fed q report.now subscription shows port.now group.now next (length area.old)).answer)
        × (area.new ≡ put area.old 0 (fed q report.now subscription shows port.now group.now next (length area.old)).bytes) }
{
    if area.len() < 1024 {
        return Err(Refusal::NoRoom);
    }
    let reading = read(q, report);
    let kind = reading.kind;
    if is_none(kind) {
        return Err(Refusal::NoReport);
    }
    if !is_setting(q, subscription, shows, port, group) {
        return Err(Refusal::BadFeed);
    }
    if (next == 0) | (next > 999999999) {
        return Err(Refusal::NumbersSpent);
    }
    if is_copied(subscription, kind) {
        let fields = reading.fields;
        let len = write_copy(area, fields, report, shows, port, group, next);
        return Ok(Answer {
            len: Some(len),
            next: next + 1,
        });
    }
    Ok(Answer { len: None, next })
}

// The kind and fields of a copy of a market's report; what is none is refused, which is the paper's refusal 11.
pub fn read_copy(q: Instrument, s: &[u8]) -> Reading
    ensures { result ≡ read_copy_of q s.now }
{
    let kind = copy_kind(kind_of(s));
    read_as(s, kind, copy_slots(q, slots_of(q, kind)))
}
