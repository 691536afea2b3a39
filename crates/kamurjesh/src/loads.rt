// Load for C, once for bonds and equities: q says which. Its answer becomes the paper's number, and the place, the messages finished, the
// bytes and the reports are each written through a pointer, 0 where the whole call is refused.
ghost use Rattle.std.specs.Prelude.{◌≡◌, length};
ghost use Rattle.calls.specs.Told.{area_after};
ghost use Rattle.load.specs.Load.{loaded, load_number, load_place, load_finished, load_bytes, load_reports};

use decimal::Instrument;
use load::go::Halt;
use load::{LoadProgress, Stop, load};
use refusals::Refusal;

// The paper's number of Load's answer: of why it stopped, or of its refusal.
fn load_number(answer: Result<LoadProgress, Refusal>) -> u64
    ensures { result ≡ load_number answer }
{
    match answer {
        Ok(loading) => u64::from(loading.halt.stop),
        Err(refusal) => u64::from(refusal),
    }
}

// What a load that is refused comes to.
const NOTHING_LOADED: LoadProgress = LoadProgress {
    halt: Halt {
        stop: Stop::Done,
        place: 0,
        finished: 0,
        bytes: 0,
    },
    reports: 0,
};

// How far Load went: nowhere where it is refused.
fn load_done(answer: Result<LoadProgress, Refusal>) -> LoadProgress
    ensures { (result.halt.place ≡ load_place answer) × (result.halt.finished ≡ load_finished answer)
        × (result.halt.bytes ≡ load_bytes answer) × (result.reports ≡ load_reports answer) }
{
    answer.unwrap_or(NOTHING_LOADED)
}

// Takes the messages of a buffer: 0, or why it stopped, with the place of the first message not submitted, the messages finished, and
// the bytes and reports written; or a refusal.
pub fn load_of(
    q: Instrument,
    table: &mut [u8],
    buffer: &[u8],
    area: &mut [u8],
    place: &mut u64,
    finished: &mut u64,
    bytes: &mut u64,
    reports: &mut u64,
) -> u64
    ensures { (result ≡ load_number (loaded q table.old buffer.now (length area.old)).answer)
        × (place.new ≡ load_place (loaded q table.old buffer.now (length area.old)).answer)
        × (finished.new ≡ load_finished (loaded q table.old buffer.now (length area.old)).answer)
        × (bytes.new ≡ load_bytes (loaded q table.old buffer.now (length area.old)).answer)
        × (reports.new ≡ load_reports (loaded q table.old buffer.now (length area.old)).answer)
        × (table.new ≡ (loaded q table.old buffer.now (length area.old)).table)
        × (area.new ≡ area_after area.old (loaded q table.old buffer.now (length area.old)).reports) }
{
    let answer = load(q, table, buffer, area);
    let went = load_done(answer);
    *place = went.halt.place as u64;
    *finished = went.halt.finished;
    *bytes = went.halt.bytes as u64;
    *reports = went.reports;
    load_number(answer)
}
