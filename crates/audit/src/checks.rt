// Whether a table is a market: texts, and the clauses on the heading.
ghost use Rattle.std.specs.Prelude.{◌≡◌, ◌+◌, ◌<◌, ◌≤◌, not, length, ◌==◌};
ghost use Rattle.octets.specs.Octets.{all_zero, part_at};
ghost use Rattle.octets.specs.Tests.{all_up_to};
ghost use Rattle.table.specs.Places.{table_bytes, code_byte, code_room};
ghost use Rattle.table.specs.Heading.{instrument_of, mpid_at, entries};
ghost use Rattle.table.specs.Orders.{filled};
ghost use Rattle.audit.specs.Rows.{list_ends};
ghost use Rattle.table.specs.Market.{is_code_character, is_text, has_names, is_entry, has_list, has_settings, has_next, has_stamp, has_work, has_kind};

use crate::characters::Characters;
use decimal::Instrument;
use table::entries::{mode_at, mpid_at};
use table::heading::{next, stamp, work};
use table::places;

// Whether the n bytes from place p on are zero, as one number.
pub fn zeros_at(t: &[u8], p: usize, n: usize) -> bool
    requires { (p + n ≤ length t.now) × (n ≤ 8) }
    ensures { result ≡ all_zero (part_at t.now p n) }
{
    octets::le_at(t, p, n) == 0
}

// Whether the code is one that such a market may have.
fn has_code(q: Instrument, t: &[u8]) -> bool
    requires { length t.now ≡ table_bytes }
    ensures { result ≡ is_text (is_code_character q) 1 code_room t.now code_byte }
{
    match q {
        Instrument::Bonds => Characters::between(b'0', b'9').is_text(
            t,
            places::CODE,
            1,
            places::CODE_ROOM,
        ),
        Instrument::Equities => Characters::between(b'!', b'~').is_text(
            t,
            places::CODE,
            1,
            places::CODE_ROOM,
        ),
    }
}

// Whether venue, port and code are such; q is what the market trades.
fn has_names(q: Instrument, t: &[u8]) -> bool
    requires { (length t.now ≡ table_bytes) × (q ≡ instrument_of t.now) }
    ensures { result ≡ has_names t.now }
{
    let characters = Characters::between(b'!', b'~');
    characters.is_text(t, places::VENUE, 1, places::ID_ROOM)
        & characters.is_text(t, places::PORT, 1, places::ID_ROOM)
        & has_code(q, t)
}

// Whether none of the entries before entry k has its MPID.
fn is_fresh_mpid(t: &[u8], k: usize) -> bool
    requires { (length t.now ≡ table_bytes) × (k < 8) }
    ensures { result ≡ all_up_to (λ j. not (mpid_at t.now j == mpid_at t.now k)) k }
{
    let m = mpid_at(t, k);
    for j in 0..k {
        if mpid_at(t, j) == m {
            return false;
        }
    }
    true
}

// Whether entry k is in its ranges, and its MPID not listed before.
fn is_entry(t: &[u8], k: usize) -> bool
    requires { (length t.now ≡ table_bytes) × (k < 8) }
    ensures { result ≡ is_entry t.now k }
{
    let d = mode_at(t, k);
    (mpid_at(t, k) <= 999999) & (1 <= d) & (d <= 3) & is_fresh_mpid(t, k)
}

// Whether each of the n entries is.
fn are_entries(t: &[u8], n: usize) -> bool
    requires { (length t.now ≡ table_bytes) × (n ≤ 8) }
    ensures { result ≡ all_up_to (is_entry t.now) n }
{
    for k in 0..n {
        if !is_entry(t, k) {
            return false;
        }
    }
    true
}

// Whether zeros stand behind the n entries: from entry n on no MPID and no mode.
fn ends_list(t: &[u8], n: usize) -> bool
    requires { (length t.now ≡ table_bytes) × (n ≤ 8) }
    ensures { result ≡ list_ends t.now n }
{
    for k in n..places::MOST_MPIDS {
        if mpid_at(t, k) + mode_at(t, k) != 0 {
            return false;
        }
    }
    true
}

// Whether the list of n MPIDs is one, with zeros behind it.
fn has_list(t: &[u8], n: usize) -> bool
    requires { (length t.now ≡ table_bytes) × (n ≡ entries t.now) × (n ≤ 8) }
    ensures { result ≡ has_list t.now }
{
    (1 <= n) & are_entries(t, n) & ends_list(t, n)
}

// Whether the settings keep the ranges of opening; q is what the market trades, n the number of MPIDs.
pub fn has_settings(q: Instrument, t: &[u8], n: usize) -> bool
    requires { (length t.now ≡ table_bytes) × (q ≡ instrument_of t.now) × (n ≡ entries t.now) × (n ≤ 8) }
    ensures { result ≡ has_settings t.now }
{
    has_names(q, t) & has_list(t, n)
}

// Whether the next number is in its range.
pub fn has_next(t: &[u8]) -> bool
    requires { length t.now ≡ table_bytes }
    ensures { result ≡ has_next t.now }
{
    let n = next(t);
    (1 <= n) & (n <= 1000000000)
}

// Whether the 52 of the order in work is a time, and that of none zeros.
pub fn has_stamp(t: &[u8]) -> bool
    requires { length t.now ≡ table_bytes }
    ensures { result ≡ has_stamp t.now }
{
    if work(t) == 0 {
        return octets::all_zero(octets::part_at(t, places::STAMP, places::STAMP_BYTES));
    }
    let m = usize::from(t[places::STAMP]);
    decimal::read::is_time(stamp(t))
        & octets::all_zero(octets::part_at(
            t,
            places::STAMP_TEXT + m,
            places::STAMP_ROOM.saturating_sub(m),
        ))
}

// Whether nothing is in work, or one of the n filled records with its 52.
pub fn has_work(t: &[u8], n: usize) -> bool
    requires { (length t.now ≡ table_bytes) × (n ≡ filled t.now) }
    ensures { result ≡ has_work t.now }
{
    (work(t) <= n) & has_stamp(t)
}

// Whether it is noted what the market trades.
pub fn has_kind(t: &[u8]) -> bool
    requires { length t.now ≡ table_bytes }
    ensures { result ≡ has_kind t.now }
{
    t[places::KIND] <= 1
}
