// A block as a whole: it is judged, and where nothing refuses it, its records are written. (01: "Running a block"; "A refused block writes nothing".)
#![tactic(auto)]

ghost use Rattle.std.specs.Prelude.{◌≡◌, ◌-◌, ◌≤◌, length};
ghost use Rattle.octets.specs.Bytes.{laid};
ghost use Rattle.moves.specs.Form.{header_size, record_start, room_of, row_from};
ghost use Rattle.block.specs.Worded.{Worded};
ghost use Rattle.state.specs.Known.{Sound};
ghost use Rattle.settings.specs.Known.{Table, InRange};
ghost use Rattle.machine.specs.Blocks.{block_records, outcome_of};

use block::Block;
use moves::Origin;
pub use putting;
pub use putting::{handing, opening, stages};
use settings::Settings;
use state::State;
pub use verdicts;
use verdicts::Verdict;
pub use writing;

// The state after a block that was done, and how many records are written by then.
#[derive(Clone, Copy)]
pub struct BlockDone {
    pub state: State,
    pub count: usize,
}

// A refusal is its alarm's number.
#[derive(Clone, Copy)]
pub enum BlockOutcome {
    Refused(u8),
    Done(BlockDone),
}

// Does a block, with k records written before it, and puts on each of its records the program and the block that it came from. Whoever calls it has judged the settings and the table (alarm 1) and the buffer (3), and has read the block.
pub fn run_block(
    table: &[i32],
    set: Settings,
    s: State,
    b: Block,
    buf: &mut [u8],
    k: usize,
    origin: Origin,
) -> BlockOutcome
    requires { Table table.now × InRange set × Sound s × Worded b × (header_size ≤ length buf.old) × (k ≤ room_of (length buf.old)) }
    ensures result { result ≡ outcome_of table.now set s b (room_of (length buf.old)) k }
    ensures records { buf.new ≡ laid buf.old (record_start k) (row_from origin (block_records table.now set s b (room_of (length buf.old) - k))) }
{
    let room_left = moves::list::room(buf.len()) - k;
    let verdict = verdicts::judge_block(table, set, s, b, room_left as u32);
    match verdict {
        Verdict::Refused(alarm) => BlockOutcome::Refused(alarm),
        Verdict::Goes(going) => {
            let settled = going.settled;
            let deed = going.deed;
            let count = putting::put_writes(buf, k, settled, b, deed, going.count as usize, origin);
            let state = writing::done_of(settled, deed);
            BlockOutcome::Done(BlockDone { state, count })
        }
    }
}
