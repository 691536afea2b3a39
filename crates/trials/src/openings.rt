// Opened markets, of bonds or of equities: Open is called for the first few of nine members, lent as a slice of structs, and writes a line
// for each: how many members were lent, Open's number, and how many the table then lists.
ghost use Rattle.std.specs.Prelude.{◌≡◌, ◌≤◌, take};
ghost use Rattle.table.specs.Opened.{opened, open_answer};
ghost use Rattle.refusals.specs.Refusals.{answer_number};
ghost use Rattle.members.specs.Members.{mpids_of, modes_of};

use decimal::Instrument;
use members::Member;
use refusals::answer_number;
use std::io::Result;
use table::entries::entries;

// Lends the first n of nine members to Open.
fn open_first(
    q: Instrument,
    table: &mut [u8],
    venue: &[u8],
    port: &[u8],
    code: &[u8],
    first: u64,
    nine: [Member; 9],
    n: usize,
) -> u64
    requires { n ≤ 9 }
    ensures { (result ≡ answer_number (open_answer q table.old venue.now port.now code.now first (mpids_of (take n nine)) (modes_of (take n nine))))
        × (table.new ≡ opened q table.old venue.now port.now code.now first (mpids_of (take n nine)) (modes_of (take n nine))) }
{
    let answer = members::open(q, table, venue, port, code, first, &nine[..n]);
    answer_number(&answer)
}

// Nine members: MPIDs 10 to 18, modes 1, 2 and 3 in turn.
fn nine() -> [Member; 9] {
    [
        Member { mpid: 10, mode: 1 },
        Member { mpid: 11, mode: 2 },
        Member { mpid: 12, mode: 3 },
        Member { mpid: 13, mode: 1 },
        Member { mpid: 14, mode: 2 },
        Member { mpid: 15, mode: 3 },
        Member { mpid: 16, mode: 1 },
        Member { mpid: 17, mode: 2 },
        Member { mpid: 18, mode: 3 },
    ]
}

// One line: n members lent.
fn line(out: &impl Print, q: Instrument, n: usize) -> Result<()>
    requires { n ≤ 9 }
{
    let mut table: [u8; 32768] = [0; 32768];
    let members = nine();
    let answer = open_first(q, &mut table, b"V", b"P", b"350", 1, members, n);
    let listed = entries(&table);
    println!(out; "{n} {answer} {listed}")
}

// All of them.
pub fn all(out: &impl Print, q: Instrument) -> Result<()> {
    line(out, q, 0)?;
    line(out, q, 1)?;
    line(out, q, 5)?;
    line(out, q, 8)?;
    line(out, q, 9)
}
