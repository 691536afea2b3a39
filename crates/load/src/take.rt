// One message: submitted and, if that puts an order in work, run to its end.
ghost use Rattle.std.specs.Prelude.{◌≡◌, ◌≤◌, length};
ghost use Rattle.intake.specs.Intake.{Ready};
ghost use Rattle.load.specs.Turn.{Took};

use calls::submit_length;
use decimal::Instrument;
use intake::hear;
use table::heading::work;
use turns::steps;

// One message to a market that can take it. Its reports start where the area does; how many bytes they have is given back.
pub fn take(q: Instrument, table: &mut [u8], message: &[u8], area: &mut [u8]) -> usize
    requires { Ready q table.old × (1024 ≤ length area.old) }
    ensures { Took q table.old message.now area.old result table.new area.new }
{
    let len = submit_length(hear(q, table, message, area));
    if work(table) == 0 {
        return len;
    }
    let more = steps(table, &mut area[len..], 256).bytes;
    len + more
}
