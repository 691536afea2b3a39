// The commands that write the market into the image that is kept, and read it back.
use crate::say;
use crate::text::{at_most, number, part};
use decimal::Instrument;
use kamurjesh::images::{restore_of, save_of};
use octets::part_at;
use std::io::Result;
use table::record::four_at;

// The checks of an image's blocks, of which each is the last number in its block.
fn checks(out: &impl Print, image: &[u8]) -> Result<()> {
    for block in image.chunks_exact(512).take(65) {
        say::number(out, four_at(block, 508))?;
    }
    Ok(())
}

// Save, with as much of the table and of the image as the command lends.
pub fn save(
    out: &impl Print,
    q: Instrument,
    table: &[u8],
    image: &mut [u8],
    s: &[u8],
) -> Result<()> {
    let lent = at_most(number(part(s, 0)), table.len());
    let room = at_most(number(part(s, 1)), image.len());
    let refusal = save_of(q, part_at(table, 0, lent), &mut image[..room]);
    print!(out; "w {refusal}")?;
    if refusal == 0 {
        checks(out, image)?;
    }
    say::word(out, b"\n")
}

// Restore, with as much of both as the command lends.
pub fn restore(
    out: &impl Print,
    q: Instrument,
    table: &mut [u8],
    image: &[u8],
    s: &[u8],
) -> Result<()> {
    let mut block = 0;
    let room = at_most(number(part(s, 0)), table.len());
    let lent = at_most(number(part(s, 1)), image.len());
    let refusal = restore_of(q, &mut table[..room], part_at(image, 0, lent), &mut block);
    println!(out; "u {refusal} {block}")
}
