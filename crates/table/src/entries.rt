// The list of MPIDs in the heading: its entries, and who is listed with which mode.
ghost use Rattle.std.specs.Prelude.{◌≡◌, ◌≤◌, ◌<◌, length};
ghost use Rattle.table.specs.Places.{table_bytes};
ghost use Rattle.table.specs.Heading.{mpid_at, mode_at, entries, entry_of, is_listed, mode_of};

use crate::places;
use crate::record::four_at;

// The MPID of entry k.
pub fn mpid_at(t: &[u8], k: usize) -> u64
    requires { (length t.now ≡ table_bytes) × (k < 8) }
    ensures { (result ≡ mpid_at t.now k) × (result < 4294967296) }
{
    four_at(t, places::MPIDS + 4 * k)
}

// The mode of entry k.
pub fn mode_at(t: &[u8], k: usize) -> u64
    requires { (length t.now ≡ table_bytes) × (k < 8) }
    ensures { (result ≡ mode_at t.now k) × (result < 256) }
{
    octets::wide(t[places::MODES + k])
}

// The number of entries.
pub fn entries(t: &[u8]) -> usize
    requires { length t.now ≡ table_bytes }
    ensures { (result ≡ entries t.now) × (result ≤ 8) }
{
    for k in 0..places::MOST_MPIDS {
        if mpid_at(t, k) == 0 {
            return k;
        }
    }
    places::MOST_MPIDS
}

// The entry that has MPID m; the number of entries, n, if none has, as the definition `entry_of` says it.
pub fn entry_of(t: &[u8], n: usize, m: u64) -> usize
    requires { (length t.now ≡ table_bytes) × (n ≡ entries t.now) × (n ≤ 8) }
    ensures { (result ≡ entry_of t.now m) × (result ≤ n) }
{
    for k in 0..n {
        if mpid_at(t, k) == m {
            return k;
        }
    }
    n
}

// Whether MPID m is listed among the n entries.
pub fn is_listed(t: &[u8], n: usize, m: u64) -> bool
    requires { (length t.now ≡ table_bytes) × (n ≡ entries t.now) × (n ≤ 8) }
    ensures { result ≡ is_listed t.now m }
{
    entry_of(t, n, m) < n
}

// The mode of MPID m; 0 if it is not listed.
pub fn mode_of(t: &[u8], m: u64) -> u64
    requires { length t.now ≡ table_bytes }
    ensures { (result ≡ mode_of t.now m) × (result < 256) }
{
    let n = entries(t);
    let k = entry_of(t, n, m);
    if k < n { mode_at(t, k) } else { 0 }
}
