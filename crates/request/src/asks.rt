// What a message asks of a market.
ghost use Rattle.std.specs.Prelude.{◌≡◌, [], ◌∷◌, ℕ, ◌+◌, ◌-◌, ◌^◌, ◌≤◌, ◌<◌};
ghost use Rattle.octets.specs.Octets.{part_at};
ghost use Rattle.fix.specs.Fields.{fields_of};
ghost use Rattle.fix.specs.Steps.{Held};
ghost use Rattle.request.specs.Session.{kind_of};
ghost use Rattle.request.specs.Asks.{is_known, refusal_of, body_asked, head_asked, asked_of};
ghost use Rattle.request.specs.Gathers.{Admitted, Blank, request_row, outcome_row, completed_by, agreed_by};

use crate::body::{Rows, SLOTS, clashing, gather, missing};
use crate::{Asked, Cancellation, Fault, Kind, NewOrder, Reason, Refusal, Replacement};
use decimal::Instrument;
use fix::frame::{Head, framed_in};
use octets::part::{part_at, same};

// The type that the value of 35 names.
fn kind_of(v: &[u8]) -> Kind
    ensures { result ≡ kind_of v.now }
{
    if same(v, b"D") {
        return Kind::NewOrder;
    }
    if same(v, b"G") {
        return Kind::Replacement;
    }
    if same(v, b"F") {
        return Kind::Cancel;
    }
    Kind::Unknown
}

// Whether the market takes messages of the type.
fn is_known(kind: Kind) -> bool
    ensures { result ≡ is_known kind }
{
    !matches!(kind, Kind::Unknown)
}

// A session Reject of the message.
fn refuses(h: Head, fault: Fault) -> Asked
    ensures { result ≡ refusal_of h fault.reason fault.tag }
{
    let kind = h.kind;
    let time = h.time;
    Asked::Refused(Refusal {
        reason: u64::from(fault.reason),
        tag: fault.tag,
        number: h.number,
        kind,
        time,
    })
}

// What a complete message of the type asks, by the rows.
fn request(kind: Kind, h: Head, rows: &Rows) -> Asked
    ensures { result ≡ request_row kind h rows.now.says rows.now.lens }
{
    let time = h.time;
    let id = rows.text(11);
    let code = rows.text(55);
    match kind {
        Kind::NewOrder => Asked::Enters(NewOrder {
            time,
            id,
            account: rows.text(1),
            code,
            terms: rows.terms(),
        }),
        Kind::Replacement => Asked::Replaces(Replacement {
            time,
            id,
            original: rows.text(41),
            code,
            quantity: rows.says(38),
            level: rows.says(44),
            side: rows.says(54),
        }),
        Kind::Cancel => Asked::Cancels(Cancellation {
            time,
            id,
            original: rows.text(41),
            code,
            side: rows.says(54),
        }),
        Kind::Unknown => refuses(
            h,
            Fault {
                reason: Reason::InvalidMsgType,
                tag: 35,
            },
        ),
    }
}

// The verdict on fields that agree: a needed tag is missing, or they pass.
fn completes(q: Instrument, kind: Kind, rows: &Rows) -> Result<(), Fault>
    ensures { result ≡ completed_by q kind rows.now.lens }
{
    match missing(q, kind, rows) {
        Some(tag) => Err(Fault {
            reason: Reason::RequiredTagMissing,
            tag,
        }),
        None => Ok(()),
    }
}

// The verdict on fields of which each by itself passed: one clashes with others, or what follows decides.
fn agrees(q: Instrument, kind: Kind, rows: &Rows) -> Result<(), Fault>
    ensures { result ≡ agreed_by q kind rows.now.says rows.now.lens }
{
    match clashing(q, rows) {
        Some(tag) => Err(Fault {
            reason: Reason::ValueIncorrect,
            tag,
        }),
        None => completes(q, kind, rows),
    }
}

// The verdict on the body, a part from the middle of the message, which is handed on to the reader of fields. The rows take what its
// values say.
fn decides(
    q: Instrument,
    s: &[u8],
    kind: Kind,
    h: Head,
    row: &[u16; 1023],
    rows: &mut Rows,
) -> Result<(), Fault>
    requires { Held row.now h.body.start 7 (fields_of (part_at s.now h.body.start h.body.len)) × Blank rows.old.says rows.old.lens }
    ensures { outcome_row kind h rows.new.says rows.new.lens result ≡ body_asked q kind h (part_at s.now h.body.start h.body.len) h.body.start }
{
    let from = h.body.start;
    let body = part_at(s, from, h.body.len);
    gather(q, kind, body, from, row, rows)?;
    agrees(q, kind, rows)
}

// The verdict on a message that is not garbled: the type, the ids, then the body.
fn screens(
    q: Instrument,
    venue: &[u8],
    port: &[u8],
    s: &[u8],
    kind: Kind,
    h: Head,
    row: &[u16; 1023],
    rows: &mut Rows,
) -> Result<(), Fault>
    requires { Admitted s.now h row.now × (kind ≡ kind_of (part_at s.now h.kind.start h.kind.len)) × Blank rows.old.says rows.old.lens }
    ensures { outcome_row kind h rows.new.says rows.new.lens result ≡ head_asked q venue.now port.now s.now }
{
    if !is_known(kind) {
        return Err(Fault {
            reason: Reason::InvalidMsgType,
            tag: 35,
        });
    }
    if !same(part_at(s, h.sender.start, h.sender.len), port) {
        return Err(Fault {
            reason: Reason::CompIdProblem,
            tag: 49,
        });
    }
    if !same(part_at(s, h.target.start, h.target.len), venue) {
        return Err(Fault {
            reason: Reason::CompIdProblem,
            tag: 56,
        });
    }
    decides(q, s, kind, h, row, rows)
}

// What a message that is not garbled asks: a session Reject by the first verdict that fails, or the request.
fn admits(q: Instrument, venue: &[u8], port: &[u8], s: &[u8], h: Head, row: &[u16; 1023]) -> Asked
    requires { Admitted s.now h row.now }
    ensures { result ≡ head_asked q venue.now port.now s.now }
{
    let mut rows = Rows {
        says: [0; SLOTS],
        lens: [0; SLOTS],
    };
    let kind = kind_of(part_at(s, h.kind.start, h.kind.len));
    match screens(q, venue, port, s, kind, h, row, &mut rows) {
        Ok(()) => request(kind, h, &rows),
        Err(fault) => refuses(h, fault),
    }
}

// What a message asks of the market that trades q and has this venue id and this port id.
pub fn asked(q: Instrument, venue: &[u8], port: &[u8], s: &[u8]) -> Asked
    ensures { result ≡ asked_of q venue.now port.now s.now }
{
    let mut row: [u16; 1023] = [0; 1023];
    match framed_in(s, &mut row) {
        Some(h) => admits(q, venue, port, s, h, &row),
        None => Asked::Garbled,
    }
}
