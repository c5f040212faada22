// One step of a run, taken without a buffer: the next block of a program is found, what it asks of the runner is looked up, and it is judged and opened. Its records are in hand as a cursor.
// (01, "Alarms and their order": "then blocks as run: 13, 14, 10, 11, 12, 15, 16, 17, 19, 18, 20".) Whoever takes the step writes its records, or hands them out one at a time.
// A block that has no words, or is a jump alone, is told by its text and done in quiet.rt; every other is opened by its words, in `wording`. Whoever writes the records asks for the two himself, so
// that nothing is built for a block that has none.
#![tactic(auto)]

pub mod quiet;

ghost use Rattle.std.specs.Prelude.{◌≡◌, ◌<◌};
ghost use Rattle.ahead.specs.Ahead.{onto};
ghost use Rattle.taking.specs.Steps.{alarm_by};
ghost use Rattle.taking.specs.Meets.{stopped_by, went_by};

use ahead::{Frame, Onward};
use machine::stages::Cursor;
pub use machine::{handing, opening, putting, stages, verdicts, writing};
use moves::Origin;
use state::State;

// The alarm that the runner is asked to stop with, 0 for none.
pub fn alarm_by(onward: Onward) -> u8
    ensures { result ≡ alarm_by onward }
{
    match onward {
        Onward::Stop(alarm, _) => alarm,
        Onward::On => 0,
        Onward::Call(_, _) => 0,
        Onward::Jump(_) => 0,
        Onward::Return => 0,
        Onward::End => 0,
    }
}

// A step that an alarm stops: the run is as it was.
pub fn stopped(alarm: u8, place: usize, run: Run, after: usize) -> StepDone
    ensures { result ≡ stopped_by alarm place run after }
{
    StepDone {
        onward: Onward::Stop(alarm, place),
        run,
        after,
    }
}

// A step whose block is done: the state is another, so many records are written by then, and one block fewer may be begun.
pub fn went(onward: Onward, state: State, run: Run, count: usize, after: usize) -> StepDone
    requires { 0 < run.blocks_left }
    ensures { result ≡ went_by onward state run count after }
{
    let fewer = run.blocks_left - 1;
    let then = Run {
        state,
        blocks_left: fewer,
        count,
    };
    StepDone {
        onward,
        run: then,
        after,
    }
}

// The frame at another place of its program.
pub fn onto(frame: Frame, at: usize) -> Frame
    ensures { result ≡ onto frame at }
{
    let program = frame.program;
    Frame {
        program,
        calls_left: frame.calls_left,
        at,
    }
}

// A run between two blocks: the machine's state, how many blocks may still be begun, and how many records are written.
#[derive(Clone, Copy)]
pub struct Run {
    pub state: State,
    pub blocks_left: u32,
    pub count: usize,
}

// What came of a step: where the run goes on, the run after it, and the place of the line behind the block.
#[derive(Clone, Copy)]
pub struct StepDone {
    pub onward: Onward,
    pub run: Run,
    pub after: usize,
}

// What a block that was opened has to hand out: nothing, or its records, by its cursor, and where they come from.
#[derive(Clone, Copy)]
pub enum Hand {
    Nothing,
    Block(Cursor, Origin),
}

// A step that was taken: what came of it, and what its block has to hand out. The run's count has the records in hand.
#[derive(Clone, Copy)]
pub struct Opened {
    pub done: StepDone,
    pub hand: Hand,
}
