// The blocks of a trial, run one after the other with the state and the count of records carried on, until one is refused.
// What a block asks of the runner is not done: the next line is run, so that a trial shows what each block does by itself.
#![tactic(auto)]

ghost use Rattle.std.specs.Prelude.{◌≡◌, ◌≤◌, length};
ghost use Rattle.moves.specs.Form.{header_size, room_of};
ghost use Rattle.settings.specs.Known.{Table};
ghost use Rattle.state.specs.Known.{Sound};
ghost use Rattle.trying.specs.Carried.{Carried, CameWith};

use block::Head;
use machine::BlockOutcome;
use moves::Origin;
use requests::Request;
use state::State;

// What came of a block: what it asks of the runner, or its alarm, and the state and the count of records after it.
#[derive(Clone, Copy)]
pub struct Tried {
    pub outcome: Result<Request, u8>,
    pub state: State,
    pub count: usize,
}

// A trial is no program: its records name none, and no block.
const NOWHERE: Origin = Origin {
    program: 0,
    block: 0,
};

// What stands before the first block.
fn begin() -> Tried
    ensures { Sound result.state × (result.count ≡ 0) }
{
    let set = panel::of_listmoves();
    Tried {
        outcome: Ok(Request::On),
        state: state::at_start(set.x, set.z),
        count: 0,
    }
}

// Runs the block of a line, after what the block before it did: nothing where the line cannot be read as a block.
fn run_line(line: &[u8], table: &[i32], before: Tried, buf: &mut [u8]) -> Option<Tried>
    requires { Table table.now × (header_size ≤ length buf.old) × Carried (room_of (length buf.old)) before }
    ensures { CameWith (room_of (length buf.old)) result }
{
    if line.len() > block::LONGEST_LINE {
        return None;
    }
    let read = block::read_line(line);
    let b = read.block;
    if read.faulty || !matches!(read.head, Head::BlockLine(_)) || rules::breaks_rules(b) {
        return None;
    }
    let state = before.state;
    let set = panel::of_listmoves();
    let outcome = machine::run_block(table, set, state, b, buf, before.count, NOWHERE);
    match outcome {
        BlockOutcome::Refused(alarm) => Some(Tried {
            outcome: Err(alarm),
            state,
            count: before.count,
        }),
        BlockOutcome::Done(done) => Some(Tried {
            outcome: Ok(requests::request_of(b)),
            state: done.state,
            count: done.count,
        }),
    }
}

// Runs the blocks of a trial, and answers what came of the last: nothing where a line cannot be read as a block.
pub fn run_lines(lines: &[u8], buf: &mut [u8]) -> Option<Tried>
    requires { header_size ≤ length buf.old }
    ensures { CameWith (room_of (length buf.old)) result }
{
    let table = panel::no_offsets();
    let mut tried = begin();
    let mut p = 0;
    while p < lines.len() {
        let line = tape::line::line_at(lines, p);
        tried = run_line(&lines[p..line.stop], &table, tried, buf)?;
        if tried.outcome.is_err() {
            return Some(tried);
        }
        p = line.after;
    }
    Some(tried)
}
