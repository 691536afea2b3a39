// The sum of each of 512 bytes times its position. They are taken as 32 columns of 16 rows: the compiler adds up 8 columns at once, in
// numbers of 16 bits, which no column outgrows.
ghost use Rattle.std.specs.Prelude.{◌≡◌, ◌+◌, ◌*◌, ◌≤◌, ◌<◌, length};
ghost use Rattle.octets.specs.Octets.{part_at};
ghost use Rattle.image.specs.Image.{weighed};
ghost use Rattle.image.specs.Columns.{down, turned, sum_to, column_part};

// Columns: two bytes of one are so many places apart.
const COLUMNS: usize = 32;

// Bytes of a column.
const ROWS: usize = 16;

// What a column comes to: the sum of its bytes, and the sum of each of them times its row, from 0 on.
#[derive(Clone, Copy)]
struct Added {
    sum: u16,
    turned: u16,
}

// A number of a column as a wider one, with the bound that adding up asks for.
fn wider(x: u16) -> u32
    ensures { (result ≡ x) × (result < 65536) }
{
    x as u32
}

// The column from place p on, from its last row up: what is summed so far counts once more for each row above it.
fn column(t: &[u8], p: usize) -> Added
    requires { p + 481 ≤ length t.now }
    ensures { (result.sum ≡ down t.now p 16) × (result.turned ≡ turned t.now p 16) }
{
    let mut sum: u16 = 0;
    let mut turned: u16 = 0;
    for r in (0..ROWS).rev() {
        turned = turned + sum;
        sum = sum + u16::from(t[p + COLUMNS * r]);
    }
    Added { sum, turned }
}

// What the columns come to: each row is 32 positions behind the one above it, each column one behind the one before.
fn come_to(sums: &[u16; 32], turns: &[u16; 32]) -> u32
    ensures { result ≡ sum_to (column_part sums.now turns.now) 32 }
{
    let mut r: u32 = 0;
    let mut w: u32 = 0;
    for c in 0..COLUMNS {
        w += 1;
        r = r + (32 * wider(turns[c]) + w * wider(sums[c]));
    }
    r
}

// Each of the 512 bytes from place p on times its position, from 1 on, summed up.
pub fn weigh(t: &[u8], p: usize) -> u32
    requires { p + 512 ≤ length t.now }
    ensures { result ≡ weighed 1 (part_at t.now p 512) }
{
    let mut sums = [0u16; 32];
    let mut turns = [0u16; 32];
    for c in 0..COLUMNS {
        let x = column(t, p + c);
        sums[c] = x.sum;
        turns[c] = x.turned;
    }
    come_to(&sums, &turns)
}
