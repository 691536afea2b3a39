// All blocks of an image: written, looked through for a bad one, and read, to stay if that makes a market.
ghost use Rattle.std.specs.Prelude.{◌≡◌, cond, ◌<◌, length, MatchOption, ◌+◌, ◌≤◌, take};
ghost use Rattle.table.specs.Places.{table_bytes};
ghost use Rattle.table.specs.Market.{is_market_of};
ghost use Rattle.image.specs.Image.{image_bytes, image_of, first_bad, table_in};

use crate::block::{is_good, put_block, read_block};
use crate::places;
use audit::is_market_of;
use decimal::Instrument;
use table::places::TABLE;

// Writes the image of a table.
pub fn put_image(image: &mut [u8], table: &[u8])
    requires { (length image.old ≡ image_bytes) × (length table.now ≡ table_bytes) }
    ensures { image.new ≡ image_of table.now }
{
    for k in 0..places::BLOCKS {
        put_block(image, table, k);
    }
}

// The first block that is not good, if there is one.
pub fn first_bad(image: &[u8]) -> Option<usize>
    requires { length image.now ≡ image_bytes }
    ensures { MatchOption result (first_bad image.now ≡ 65) (λ k. (k ≡ first_bad image.now) × (k < 65)) }
{
    for k in 0..places::BLOCKS {
        if !is_good(image, k) {
            return Some(k);
        }
    }
    None
}

// Reads the table that an image holds.
pub fn read_image(t: &mut [u8], image: &[u8])
    requires { (length t.old ≡ table_bytes) × (length image.now ≡ image_bytes) }
    ensures { t.new ≡ table_in image.now }
{
    for k in 0..places::BLOCKS {
        read_block(t, image, k);
    }
}

// Copies a piece of a table, from place p on, up to which the table is copied already.
fn copy_piece(to: &mut [u8], from: &[u8], p: usize)
    requires { (length to.old ≡ table_bytes) × (length from.now ≡ table_bytes) × (p + 4096 ≤ table_bytes)
        × (take p to.old ≡ take p from.now) }
    ensures { take (p + 4096) to.new ≡ take (p + 4096) from.now }
{
    for j in 0..places::PIECE {
        to[p + j] = from[p + j];
    }
}

// Copies a table. It goes by pieces of one length, known to the compiler: copy_from_slice over the whole takes some 25,000 instructions more.
fn copy_table(to: &mut [u8], from: &[u8])
    requires { (length to.old ≡ table_bytes) × (length from.now ≡ table_bytes) }
    ensures { to.new ≡ from.now }
{
    for k in 0..places::PIECES {
        copy_piece(to, from, places::PIECE * k);
    }
}

// Reads the table that an image holds, and answers whether it is a market of the instrument. Where it is not, the caller's table is put back
// as it was, from a copy that is made first.
pub fn read_market(q: Instrument, table: &mut [u8], image: &[u8]) -> bool
    requires { (length table.old ≡ table_bytes) × (length image.now ≡ image_bytes) }
    ensures { (result ≡ is_market_of q (table_in image.now))
        × (table.new ≡ cond result (table_in image.now) table.old) }
{
    let mut before = [0u8; TABLE];
    copy_table(&mut before, table);
    read_image(table, image);
    if is_market_of(q, table) {
        return true;
    }
    copy_table(table, &before);
    false
}
