// The command that takes a buffer of messages in one call.
use crate::say;
use crate::text::{at_most, bytes_of, number, part};
use decimal::Instrument;
use kamurjesh::loads::load_of;
use octets::part_at;
use std::io::Result;

// Load, with as much of the area as the command lends.
fn load_in(
    out: &impl Print,
    q: Instrument,
    table: &mut [u8],
    buffer: &[u8],
    area: &mut [u8],
    lent: u64,
) -> Result<()> {
    let mut place = 0;
    let mut finished = 0;
    let mut bytes = 0;
    let mut reports = 0;
    let room = at_most(lent, area.len());
    let refusal = load_of(
        q,
        table,
        buffer,
        &mut area[..room],
        &mut place,
        &mut finished,
        &mut bytes,
        &mut reports,
    );
    print!(out; "l {refusal} {place} {finished} {bytes} {reports}")?;
    say::rest(out, part_at(area, 0, bytes as usize))
}

// Load.
pub fn load(out: &impl Print, q: Instrument, table: &mut [u8], s: &[u8]) -> Result<()> {
    let mut buffer = [0u8; 8192];
    let mut area = [0u8; 65536];
    let n = bytes_of(part(s, 1), &mut buffer);
    let lent = number(part(s, 0));
    load_in(out, q, table, part_at(&buffer, 0, n), &mut area, lent)
}
