// One block of an image: written from a table, checked, and read.
ghost use Rattle.std.specs.Prelude.{◌≡◌, ◌++◌, ◌+◌, ◌*◌, ◌≤◌, ◌<◌, length, replicate};
ghost use Rattle.octets.specs.Octets.{part_at, put};
ghost use Rattle.table.specs.Places.{table_bytes};
ghost use Rattle.image.specs.Image.{image_bytes, weighed, block_data, block_of, kept_in, is_checked, is_good};

use crate::places;
use crate::weigh::weigh;
use table::places::TABLE;
use table::record::four_at;

// Writes the data of block k of a table, and zeros where its check belongs.
fn put_data(image: &mut [u8], table: &[u8], k: usize)
    requires { (length image.old ≡ image_bytes) × (length table.now ≡ table_bytes) × (k < 65) }
    ensures { image.new ≡ put image.old (512 * k) (block_data table.now k ++ replicate 4 0) }
{
    let data = octets::part_at(table, places::DATA * k, places::DATA);
    let next = octets::copy_into(image, places::BLOCK * k, data);
    octets::put_zeros(image, next, places::BLOCK - data.len());
}

// Writes block k of a table. What a block weighs is written out here and in is_checked: a function for it takes 64 instructions more a block.
pub fn put_block(image: &mut [u8], table: &[u8], k: usize)
    requires { (length image.old ≡ image_bytes) × (length table.now ≡ table_bytes) × (k < 65) }
    ensures { image.new ≡ put image.old (512 * k) (block_of table.now k) }
{
    put_data(image, table, k);
    let at = places::BLOCK * k;
    let check = (weigh(image, at) as u64) + (k as u64) * places::STEP;
    octets::put_le(image, at + places::DATA, places::CHECK, check);
}

// The four bytes of a check from place p on times their positions in the block.
fn weigh_check(t: &[u8], p: usize) -> u64
    requires { p + 4 ≤ length t.now }
    ensures { (result ≡ weighed 509 (part_at t.now p 4)) × (result < 1048576) }
{
    let a = octets::wide(t[p]);
    let b = octets::wide(t[p + 1]);
    let c = octets::wide(t[p + 2]);
    let d = octets::wide(t[p + 3]);
    509 * a + 510 * b + 511 * c + 512 * d
}

// Whether the check of block k is right: the whole block is weighed, and what its check weighs is set off.
fn is_checked(image: &[u8], k: usize) -> bool
    requires { (length image.now ≡ image_bytes) × (k < 65) }
    ensures { result ≡ is_checked image.now k }
{
    let at = places::BLOCK * k;
    let end = at + places::DATA;
    let sum = (weigh(image, at) as u64) + (k as u64) * places::STEP;
    four_at(image, end) + weigh_check(image, end) == sum
}

// Whether block k is good: its check is right, and its filling is zero.
pub fn is_good(image: &[u8], k: usize) -> bool
    requires { (length image.now ≡ image_bytes) × (k < 65) }
    ensures { result ≡ is_good image.now k }
{
    let data = octets::part_at(image, places::BLOCK * k, places::DATA);
    is_checked(image, k) & octets::rest_zero(data, TABLE - places::DATA * k)
}

// Reads the bytes of the table that block k has.
pub fn read_block(t: &mut [u8], image: &[u8], k: usize)
    requires { (length t.old ≡ table_bytes) × (length image.now ≡ image_bytes) × (k < 65) }
    ensures { t.new ≡ put t.old (508 * k) (kept_in image.now k) }
{
    let data = octets::part_at(image, places::BLOCK * k, places::DATA);
    let kept = octets::part_at(data, 0, TABLE - places::DATA * k);
    octets::copy_into(t, places::DATA * k, kept);
}
