// Where a message ends that lies in a buffer.
ghost use Rattle.std.specs.Prelude.{◌≡◌, ◌≤◌, length, drop};
ghost use Rattle.load.specs.Turn.{length_found};

use decimal::read::{byte_at, digit_run, read_number};
use octets::part::{part_at, same};

// The length of the message that s starts with, if it can be read.
fn length_found(s: &[u8]) -> Option<usize>
    ensures { result ≡ length_found s.now }
{
    if !same(part_at(s, 0, 12), b"8=FIX.4.2\x019=") {
        return None;
    }
    let k = digit_run(part_at(s, 12, s.len()));
    let n = read_number(part_at(s, 12, k), 4)?;
    if byte_at(s, 12 + k) != 1 {
        return None;
    }
    let end = 12 + k + 1 + n as usize + 7;
    if s.len() < end {
        return None;
    }
    Some(end)
}

// The length of the message that begins at a place of the buffer, if it can be read.
pub fn length_at(buffer: &[u8], place: usize) -> Option<usize>
    requires { place ≤ length buffer.now }
    ensures { result ≡ length_found (drop place buffer.now) }
{
    length_found(&buffer[place..])
}
