// Searches among the records of a market: how many are filled, by halving, and which has a ClOrdID, eight bytes at a time.
ghost use Rattle.std.specs.Prelude.{◌≡◌, ◌+◌, ◌≤◌, length};
ghost use Rattle.octets.specs.Octets.{same_bytes, text_at};
ghost use Rattle.table.specs.Orders.{cl_ord_id_at, filled, record_with};
ghost use Rattle.table.specs.Facts.{Market};
ghost use Rattle.table.specs.Keys.{Keyed, Halved};

use crate::places;
use crate::record::eight_at;

// The first 32 bytes of a ClOrdID as a record holds it, its length, its characters and zeros behind them, as four numbers.
#[derive(Clone, Copy)]
pub struct Key {
    pub first: u64,
    pub second: u64,
    pub third: u64,
    pub fourth: u64,
}

// One step of halving: where `from` records are filled and fewer than twice so many behind them, as many as come back are, and fewer
// than so many behind those.
fn beyond(t: &[u8], from: usize, many: usize) -> usize
    requires { Market t.now × Halved t.now from (many + many) × (1 ≤ many) × (many ≤ 128) }
    ensures { Halved t.now result many }
{
    let k = from + many;
    if t[places::RECORD * k] == 0 { from } else { k }
}

// The number of filled records of a market.
pub fn count(t: &[u8]) -> usize
    requires { Market t.now }
    ensures { (result ≡ filled t.now) × (result ≤ 255) }
{
    let a = beyond(t, 0, 128);
    let b = beyond(t, a, 64);
    let c = beyond(t, b, 32);
    let d = beyond(t, c, 16);
    let e = beyond(t, d, 8);
    let f = beyond(t, e, 4);
    let g = beyond(t, f, 2);
    beyond(t, g, 1)
}

// The key of a ClOrdID.
fn key_of(m: &[u8]) -> Key
    requires { length m.now ≤ 32 }
    ensures { Keyed m.now result }
{
    let mut held: [u8; 33] = [0; 33];
    octets::put_text(&mut held, 0, places::CL_ORD_ID_ROOM, m);
    Key {
        first: eight_at(&held, 0),
        second: eight_at(&held, 8),
        third: eight_at(&held, 16),
        fourth: eight_at(&held, 24),
    }
}

// Whether the text at place p is m. Asked only where the keys are the same: the loop over the records is shorter where this is no part of it.
#[inline(never)]
fn text_is(t: &[u8], p: usize, m: &[u8]) -> bool
    ensures { result ≡ same_bytes (text_at t.now p) m.now }
{
    octets::text_is(t, p, m)
}

// Whether the ClOrdID of record i is m: the numbers of its key are compared first, and its characters only where those are the same. The second
// number comes before the first, since it differs oftener; `==` of two keys would read all four of each record.
fn is_named(t: &[u8], i: usize, key: Key, m: &[u8]) -> bool
    requires { Market t.now × (1 ≤ i) × (i ≤ filled t.now) × (i ≤ 255) × Keyed m.now key }
    ensures { result ≡ same_bytes (cl_ord_id_at t.now i) m.now }
{
    let p = places::RECORD * i;
    if eight_at(t, p + 8) != key.second {
        return false;
    }
    if eight_at(t, p) != key.first {
        return false;
    }
    if eight_at(t, p + 16) != key.third {
        return false;
    }
    if eight_at(t, p + 24) != key.fourth {
        return false;
    }
    text_is(t, p, m)
}

// The record among the n of a market whose ClOrdID is m; 0 if none has it: the definition `record_with`, of which theorems
// speak, has 0 for none.
pub fn find_id(t: &[u8], n: usize, m: &[u8]) -> usize
    requires { Market t.now × (n ≡ filled t.now) }
    ensures { (result ≡ record_with t.now n m.now) × (result ≤ n) }
{
    if n == 0 {
        return 0;
    }
    if places::CL_ORD_ID_ROOM < m.len() {
        return 0;
    }
    let key = key_of(m);
    for k in 0..n {
        if is_named(t, k + 1, key, m) {
            return k + 1;
        }
    }
    0
}
