// Which kind of report bytes are, with no field kept: the fields of each kind are looked at one behind another, and only the place behind them is
// handed on. For the call of C, which tells the kind alone; `report::read::read` gives the fields as well.
#![tactic(auto)]

pub mod standing;

ghost use Rattle.std.specs.Prelude.{◌≡◌};
ghost use Rattle.report.specs.Slots.{slots_of};
ghost use Rattle.report.specs.Reports.{read_framed, read_of};
ghost use Rattle.kinds.specs.Standing.{is_row, is_canceled};

use crate::standing::row_end;
use decimal::Instrument;
use report::Kind;
use report::read::{body_at, kind_of, read_as, trailer_at};
use report::slots::slots_of;

// Whether a kind is the one whose fields depend on each other.
fn is_canceled(kind: Kind) -> bool
    ensures { result ≡ is_canceled kind }
{
    matches!(kind, Kind::Canceled)
}

// Whether the bytes are framed as a report, and the body has the fields of this kind.
fn is_framed(q: Instrument, s: &[u8], kind: Kind) -> bool
    ensures { result ≡ is_row (read_framed s.now (slots_of q kind)) }
{
    let Some(body) = body_at(s) else {
        return false;
    };
    let end = body.start + body.len;
    if !trailer_at(s, end) {
        return false;
    }
    row_end(q, kind, s, body.start) == end
}

// The kind of a report of a market, as `read` tells it, with no field kept.
pub fn kind_read(q: Instrument, s: &[u8]) -> Kind
    ensures { result ≡ (read_of q s.now).kind }
{
    let kind = kind_of(s);
    if is_canceled(kind) {
        let reading = read_as(s, kind, slots_of(q, kind));
        return reading.kind;
    }
    if is_framed(q, s, kind) {
        return kind;
    }
    Kind::Refused
}
