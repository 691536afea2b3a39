// Answers as numbers.
ghost use Rattle.std.specs.Prelude.{◌≡◌, ◌≤◌};
ghost use Rattle.matching.specs.Depth.{total_of, orders_of};
ghost use Rattle.market.specs.Depth.{has_level, level_is};
ghost use Rattle.calls.specs.Submit.{submit_number};
ghost use Rattle.calls.specs.Run.{run_bytes, run_reports, run_steps};
ghost use Rattle.calls.specs.Read.{read_number, kind_number};
ghost use Rattle.feed.specs.Copies.{copy_number, copy_length, copy_next};
ghost use Rattle.kamurjesh.specs.Numbers.{level_in, signed_of, quote_of, is_there, start_of, len_of};

use calls::{Progress, Reply};
use decimal::Instrument;
use feed::Answer;
use fix::frame::Part;
use matching::Level;
use refusals::{Refusal, answer_number};
use report::Kind;

// The paper's number of Submit's answer: of its report, or of its refusal.
pub fn submit_number(answer: Result<Reply, Refusal>) -> u64
    ensures { result ≡ submit_number answer }
{
    match answer {
        Ok(reply) => u64::from(reply.kind),
        Err(refusal) => u64::from(refusal),
    }
}

// How far Run went: nowhere where it is refused.
pub fn run_done(answer: Result<Progress, Refusal>) -> Progress
    ensures { (result.bytes ≡ run_bytes answer) × (result.reports ≡ run_reports answer) × (result.steps ≡ run_steps answer) }
{
    answer.unwrap_or(Progress {
        bytes: 0,
        reports: 0,
        steps: 0,
    })
}

// The level that Depth's answer has, or none.
pub fn level_in(answer: Result<Option<Level>, Refusal>) -> Option<Level>
    ensures { result ≡ level_in answer }
{
    answer.unwrap_or(None)
}

// Whether there is a level.
pub fn has_level(level: Option<Level>) -> u64
    ensures { result ≡ has_level level }
{
    u64::from(level.is_some())
}

// The yield of a level in thousandths, or the price in tenths.
fn signed(q: Instrument, level: u64) -> i64
    requires { level ≤ 1_999_999_999 }
    ensures { result ≡ signed_of q level }
{
    match q {
        Instrument::Bonds => level as i64 - 1000000000,
        Instrument::Equities => 1000000000 - level as i64,
    }
}

// Its yield in thousandths, or its price in tenths.
pub fn quote_of(q: Instrument, level: Option<Level>) -> i64
    requires { level_is level ≤ 1_999_999_999 }
    ensures { result ≡ quote_of q level }
{
    match level {
        Some(l) => signed(q, l.level),
        None => 0,
    }
}

// Its total open quantity.
pub fn total_of(level: Option<Level>) -> u64
    ensures { result ≡ total_of level }
{
    level.map_or(0, |l| l.total)
}

// Its number of orders.
pub fn orders_of(level: Option<Level>) -> u64
    ensures { result ≡ orders_of level }
{
    level.map_or(0, |l| l.orders)
}

// The paper's number of what Read says: 0, or refusal 11.
pub fn read_number(kind: Kind) -> u64
    ensures { result ≡ read_number kind }
{
    match kind {
        Kind::Accepted => 0,
        Kind::Replaced => 0,
        Kind::Canceled => 0,
        Kind::Trade => 0,
        Kind::Rejected => 0,
        Kind::CancelReject => 0,
        Kind::SessionReject => 0,
        Kind::Refused => 11,
    }
}

// The number of a kind of report.
pub fn kind_number(kind: Kind) -> u64
    ensures { result ≡ kind_number kind }
{
    match kind {
        Kind::Accepted => 1,
        Kind::Replaced => 2,
        Kind::Canceled => 3,
        Kind::Trade => 4,
        Kind::Rejected => 5,
        Kind::CancelReject => 6,
        Kind::SessionReject => 7,
        Kind::Refused => 0,
    }
}

// Whether a field is there.
pub fn is_there(part: Option<Part>) -> u64
    ensures { result ≡ is_there part }
{
    u64::from(part.is_some())
}

// The first byte of its value.
pub fn start_of(part: Option<Part>) -> u64
    ensures { result ≡ start_of part }
{
    part.map_or(0, |part| part.start as u64)
}

// The length of its value.
pub fn len_of(part: Option<Part>) -> u64
    ensures { result ≡ len_of part }
{
    part.map_or(0, |part| part.len as u64)
}

// The paper's number of a feed's answer.
pub fn copy_number(answer: Result<Answer, Refusal>) -> u64
    ensures { result ≡ copy_number answer }
{
    answer_number(&answer)
}

// The length of the copy, 0 where there is none.
pub fn copy_length(answer: Result<Answer, Refusal>) -> u64
    ensures { result ≡ copy_length answer }
{
    match answer {
        Ok(copied) => copied.len.map_or(0, |len| len as u64),
        Err(_) => 0,
    }
}

// The feed's next number after it, 0 where it is refused.
pub fn copy_next(answer: Result<Answer, Refusal>) -> u64
    ensures { result ≡ copy_next answer }
{
    match answer {
        Ok(copied) => copied.next,
        Err(_) => 0,
    }
}
