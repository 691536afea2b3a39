// The members of a market as a caller lends them to Open: a slice of MPIDs, each with its mode.
#![tactic(auto)]

ghost use Rattle.std.specs.Prelude.{◌≡◌, ◌≤◌, length, replicate};
ghost use Rattle.members.specs.Members.{mpids_of, modes_of};
ghost use Rattle.members.specs.Apart.{in_nine};
ghost use Rattle.table.specs.Opened.{opened, open_answer};

use decimal::Instrument;
use refusals::Refusal;
use table::opening::open_table;

// One member of the market: its MPID, and its mode when its own orders meet.
#[derive(Clone, Copy)]
pub struct Member {
    pub mpid: u64,
    pub mode: u64,
}

// Writes the MPIDs and the modes of at most nine members into two arrays of zeros: Open's own lists are two, as C lends them.
fn take_apart(members: &[Member], mpids: &mut [u64; 9], modes: &mut [u64; 9])
    requires { (length members.now ≤ 9) × (mpids.old ≡ replicate 9 0) × (modes.old ≡ replicate 9 0) }
    ensures { (mpids.new ≡ in_nine (mpids_of members.now)) × (modes.new ≡ in_nine (modes_of members.now)) }
{
    for (k, member) in members.iter().enumerate() {
        mpids[k] = member.mpid;
        modes[k] = member.mode;
    }
}

// Opens a market of bonds or of equities for the members lent, or refuses with nothing changed, as opening is defined for their MPIDs and modes.
// Nine members are looked at: so many show that there are too many.
pub fn open(
    q: Instrument,
    table: &mut [u8],
    venue: &[u8],
    port: &[u8],
    code: &[u8],
    first: u64,
    members: &[Member],
) -> Result<(), Refusal>
    ensures { (result ≡ open_answer q table.old venue.now port.now code.now first (mpids_of members.now) (modes_of members.now))
        × (table.new ≡ opened q table.old venue.now port.now code.now first (mpids_of members.now) (modes_of members.now)) }
{
    let n = members.len().min(9);
    let mut mpids = [0; 9];
    let mut modes = [0; 9];
    take_apart(&members[..n], &mut mpids, &mut modes);
    open_table(q, table, venue, port, code, first, &mpids[..n], &modes[..n])
}
