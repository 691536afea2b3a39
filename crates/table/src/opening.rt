// Opening: the settings are looked at, and the whole table is written from them.
ghost use Rattle.std.specs.Prelude.{◌≡◌, true, ℕ, ◌+◌, ◌≤◌, ◌<◌, length, get_or};
ghost use Rattle.table.specs.Places.{table_bytes, code_room};
ghost use Rattle.table.specs.Heading.{put_mpids, put_modes};
ghost use Rattle.table.specs.Market.{every, is_between, is_code_character};
ghost use Rattle.table.specs.Opened.{is_name, is_new, is_given, are_given, are_names, are_settings, named_table, fresh_table, opened, open_answer};

use crate::heading::{put_kind, put_next};
use crate::places;
use decimal::Instrument;
use refusals::Refusal;

// The settings of a market: what it trades, its names, its first report number, and its MPIDs with a mode for each.
#[derive(Clone, Copy)]
struct Settings<'a> {
    kind: Instrument,
    venue: &'a [u8],
    port: &'a [u8],
    code: &'a [u8],
    first: u64,
    mpids: &'a [u64],
    modes: &'a [u64],
}

// Whether every byte is from low to high.
pub fn all_between(s: &[u8], low: u8, high: u8) -> bool
    ensures { result ≡ every (is_between low high) s.now }
{
    s.iter().all(|b| (low <= *b) & (*b <= high))
}

// Whether a text has 1 to room characters from low to high.
fn is_name(s: &[u8], room: usize, low: u8, high: u8) -> bool
    ensures { result ≡ is_name (is_between low high) room s.now }
{
    let n = s.len();
    (1 <= n) & (n <= room) & all_between(s, low, high)
}

// Whether a code is one that such a market may have.
fn is_code(q: Instrument, code: &[u8]) -> bool
    ensures { result ≡ is_name (is_code_character q) code_room code.now }
{
    match q {
        Instrument::Bonds => is_name(code, places::CODE_ROOM, 48, 57),
        Instrument::Equities => is_name(code, places::CODE_ROOM, 33, 126),
    }
}

// Whether no MPID before entry k is that of entry k.
fn is_new(mpids: &[u64], k: usize) -> bool
    requires { k < length mpids.now }
    ensures { result ≡ is_new mpids.now k }
{
    let m = mpids[k];
    !mpids[..k].contains(&m)
}

// Whether entry k is good.
fn is_given(mpids: &[u64], modes: &[u64], k: usize) -> bool
    requires { (k < length mpids.now) × (k < length modes.now) }
    ensures { result ≡ is_given mpids.now modes.now k }
{
    let m = mpids[k];
    let d = modes[k];
    (1 <= m) & (m <= 999999) & (1 <= d) & (d <= 3) & is_new(mpids, k)
}

// Whether the lists are good: 1 to 8 MPIDs, each with its mode.
fn are_given(mpids: &[u64], modes: &[u64]) -> bool
    ensures { result ≡ are_given mpids.now modes.now }
{
    let n = mpids.len();
    if !((1 <= n) & (n <= places::MOST_MPIDS) & (modes.len() == n)) {
        return false;
    }
    for k in 0..n {
        if !is_given(mpids, modes, k) {
            return false;
        }
    }
    true
}

// Writes the list of MPIDs.
fn put_mpids(t: &mut [u8], mpids: &[u64])
    requires { (length t.old ≡ table_bytes) × (length mpids.now ≤ 8) }
    ensures { t.new ≡ put_mpids t.old mpids.now }
{
    for (k, &m) in mpids.iter().enumerate() {
        octets::put_le(t, places::MPIDS + 4 * k, 4, m);
    }
}

// Writes the list of modes.
fn put_modes(t: &mut [u8], modes: &[u64])
    requires { (length t.old ≡ table_bytes) × (length modes.now ≤ 8) × ((k : ℕ) → get_or modes.now k 0 < 256) }
    ensures { t.new ≡ put_modes t.old modes.now }
{
    for (k, &d) in modes.iter().enumerate() {
        t[places::MODES + k] = d as u8;
    }
}

impl Settings<'_> {
    // Whether venue, port and code are good.
    fn are_names(self) -> bool
        ensures { result ≡ are_names self.entry.kind self.entry.venue.now self.entry.port.now self.entry.code.now }
    {
        is_name(self.venue, places::ID_ROOM, 33, 126)
            & is_name(self.port, places::ID_ROOM, 33, 126)
            & is_code(self.kind, self.code)
    }

    // Whether every setting is good.
    fn are_good(self) -> bool
        ensures { result ≡ are_settings self.entry.kind self.entry.venue.now self.entry.port.now self.entry.code.now self.entry.first self.entry.mpids.now self.entry.modes.now }
    {
        self.are_names()
            & (1 <= self.first)
            & (self.first <= 999999999)
            & are_given(self.mpids, self.modes)
    }

    // Makes the table zero, but for venue, port and code.
    fn write_names(self, t: &mut [u8])
        requires { (length t.old ≡ table_bytes) × are_names self.kind self.venue.now self.port.now self.code.now ≡ true }
        ensures { t.new ≡ named_table self.entry.venue.now self.entry.port.now self.entry.code.now }
    {
        octets::clear(t);
        octets::put_text(t, places::VENUE, places::ID_ROOM, self.venue);
        octets::put_text(t, places::PORT, places::ID_ROOM, self.port);
        octets::put_text(t, places::CODE, places::CODE_ROOM, self.code);
    }

    // Writes both lists.
    fn write_lists(self, t: &mut [u8])
        requires { (length t.old ≡ table_bytes) × are_given self.mpids.now self.modes.now ≡ true }
        ensures { t.new ≡ put_modes (put_mpids t.old self.entry.mpids.now) self.entry.modes.now }
    {
        put_mpids(t, self.mpids);
        put_modes(t, self.modes);
    }

    // Writes the whole table.
    fn write_fresh(self, t: &mut [u8])
        requires { (length t.old ≡ table_bytes) × are_settings self.kind self.venue.now self.port.now self.code.now self.first self.mpids.now self.modes.now ≡ true }
        ensures { t.new ≡ fresh_table self.entry.kind self.entry.venue.now self.entry.port.now self.entry.code.now self.entry.first self.entry.mpids.now self.entry.modes.now }
    {
        self.write_names(t);
        put_next(t, self.first);
        put_kind(t, self.kind);
        self.write_lists(t);
    }
}

// Opens a market of bonds or of equities in the table, or refuses with nothing changed.
pub fn open_table(
    q: Instrument,
    t: &mut [u8],
    venue: &[u8],
    port: &[u8],
    code: &[u8],
    first: u64,
    mpids: &[u64],
    modes: &[u64],
) -> Result<(), Refusal>
    ensures { (result ≡ open_answer q t.old venue.now port.now code.now first mpids.now modes.now) × (t.new ≡ opened q t.old venue.now port.now code.now first mpids.now modes.now) }
{
    let settings = Settings {
        kind: q,
        venue,
        port,
        code,
        first,
        mpids,
        modes,
    };
    if t.len() != places::TABLE {
        return Err(Refusal::BadSetting);
    }
    if !settings.are_good() {
        return Err(Refusal::BadSetting);
    }
    settings.write_fresh(t);
    Ok(())
}
