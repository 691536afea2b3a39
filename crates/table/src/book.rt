// Lookups in the records of a table: how many are filled, which a new order takes.
ghost use Rattle.std.specs.Prelude.{◌≡◌, ◌+◌, ◌≤◌, ◌<◌, length};
ghost use Rattle.table.specs.Places.{table_bytes};
ghost use Rattle.table.specs.Orders.{filled, record_for};

use crate::places;
use crate::record::open_at;

// The number of filled records. Record by record, for bytes that need not be a market: `ids::count` halves, which asks for one.
pub fn filled(t: &[u8]) -> usize
    requires { length t.now ≡ table_bytes }
    ensures { (result ≡ filled t.now) × (result ≤ 255) }
{
    for k in 0..places::MOST_ORDERS {
        if t[places::RECORD * (k + 1)] == 0 {
            return k;
        }
    }
    places::MOST_ORDERS
}

// The record that a new order takes, n records being filled; 0 if every order is open: the definition `record_for`,
// of which theorems speak, has 0 for none.
pub fn record_for(t: &[u8], n: usize) -> usize
    requires { (length t.now ≡ table_bytes) × (n ≡ filled t.now) }
    ensures { (result ≡ record_for t.now) × (result ≤ 255) }
{
    if n < places::MOST_ORDERS {
        return n + 1;
    }
    for k in 0..places::MOST_ORDERS {
        if !open_at(t, k + 1) {
            return k + 1;
        }
    }
    0
}
