// The heading of a table: the settings as parts of it, what it trades, the next report number, the order in work.
ghost use Rattle.std.specs.Prelude.{◌≡◌, ◌≤◌, ◌<◌, length};
ghost use Rattle.table.specs.Places.{table_bytes};
ghost use Rattle.table.specs.Heading.{venue_of, port_of, code_of, next_of, work_of, stamp_of, kind_number, instrument_of, decided_of, put_kind, put_next, put_work, put_decided, end_work};

use crate::places;
use decimal::Instrument;

// The venue id.
pub fn venue(t: &[u8]) -> &[u8]
    ensures { result.now ≡ venue_of t.now }
{
    octets::text_at(t, places::VENUE)
}

// The port id.
pub fn port(t: &[u8]) -> &[u8]
    ensures { result.now ≡ port_of t.now }
{
    octets::text_at(t, places::PORT)
}

// The code of the bond, or the symbol of the share.
pub fn code(t: &[u8]) -> &[u8]
    ensures { result.now ≡ code_of t.now }
{
    octets::text_at(t, places::CODE)
}

// The 52 of the message whose order is in work.
pub fn stamp(t: &[u8]) -> &[u8]
    ensures { result.now ≡ stamp_of t.now }
{
    octets::text_at(t, places::STAMP)
}

// The next report number.
pub fn next(t: &[u8]) -> u64
    requires { length t.now ≡ table_bytes }
    ensures { result ≡ next_of t.now }
{
    octets::le_at(t, places::NEXT, 4)
}

// The number of the order in work, 0 for none.
pub fn work(t: &[u8]) -> usize
    requires { length t.now ≡ table_bytes }
    ensures { (result ≡ work_of t.now) × (result < 256) }
{
    octets::wide(t[places::WORK]) as usize
}

// What the market trades.
pub fn instrument(t: &[u8]) -> Instrument
    requires { length t.now ≡ table_bytes }
    ensures { result ≡ instrument_of t.now }
{
    match t[places::KIND] {
        0 => Instrument::Bonds,
        _ => Instrument::Equities,
    }
}

// The decision on the minimum of the order in work: 0, or 1 once it is made.
pub fn decided(t: &[u8]) -> u64
    requires { length t.now ≡ table_bytes }
    ensures { (result ≡ decided_of t.now) × (result < 256) }
{
    octets::wide(t[places::DECIDED])
}

// How it is noted. No `From`: the bytes are the table's, and `Instrument` is decimal's.
pub fn kind_number(q: Instrument) -> u8
    ensures { result ≡ kind_number q }
{
    match q {
        Instrument::Bonds => 0,
        Instrument::Equities => 1,
    }
}

// Notes what the market trades.
pub fn put_kind(t: &mut [u8], q: Instrument)
    requires { length t.old ≡ table_bytes }
    ensures { t.new ≡ put_kind t.old q }
{
    t[places::KIND] = kind_number(q);
}

// Sets the next report number.
pub fn put_next(t: &mut [u8], n: u64)
    requires { length t.old ≡ table_bytes }
    ensures { t.new ≡ put_next t.old n }
{
    octets::put_le(t, places::NEXT, 4, n);
}

// Puts order w in work, with the 52 of its message.
pub fn put_work(t: &mut [u8], w: u8, stamp: &[u8])
    requires { (length t.old ≡ table_bytes) × (length stamp.now ≤ 21) }
    ensures { t.new ≡ put_work t.old w stamp.now }
{
    t[places::WORK] = w;
    octets::put_text(t, places::STAMP, places::STAMP_ROOM, stamp);
}

// Notes the decision on the minimum of the order in work.
pub fn put_decided(t: &mut [u8], d: u8)
    requires { length t.old ≡ table_bytes }
    ensures { t.new ≡ put_decided t.old d }
{
    t[places::DECIDED] = d;
}

// Ends the work: nothing is in work, the 52 is zeros, and nothing is decided.
pub fn end_work(t: &mut [u8])
    requires { length t.old ≡ table_bytes }
    ensures { t.new ≡ end_work t.old }
{
    octets::put_zeros(t, places::WORK, places::WORK_BYTES);
    put_decided(t, 0);
}
