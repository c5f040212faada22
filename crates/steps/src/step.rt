// The next block of a program, done, and its records written.
ghost use Rattle.std.specs.Prelude.{length};
ghost use Rattle.wording.specs.of_taking.Steps.{task_of};
ghost use Rattle.wording.specs.of_taking.Meets.{Next};
ghost use Rattle.steps.specs.Meets.{Needs, StepMeets};

use ahead::Frame;
use finding::BlockAt;
use settings::Settings;
use wording::taking::quiet::Met;
use wording::taking::{Hand, Run, StepDone};
use wording::{putting, taking};

// Does the block of a line that was found, by its words.
fn do_words(
    tape: &[u8],
    table: &[i32],
    set: Settings,
    places: &[u64],
    count: usize,
    first: usize,
    buf: &mut [u8],
    frame: Frame,
    line: BlockAt,
    run: Run,
) -> StepDone
    requires { Needs (task_of tape.now table.now set first (length buf.old)) (length buf.old) places.now count frame run × Next tape.now frame.at line }
    ensures { StepMeets (task_of tape.now table.now set first (length buf.old)) buf.old frame run result buf.new }
{
    let room = moves::list::room(buf.len());
    let opened = wording::open_words(tape, table, set, places, count, room, frame, line, run);
    let done = opened.done;
    let hand = opened.hand;
    match hand {
        Hand::Nothing => done,
        Hand::Block(cursor, origin) => {
            // 01: "written into the room after the header".
            let start = moves::HEADER_SIZE + moves::RECORD_SIZE * run.count;
            putting::put_rest(buf, start, cursor, origin);
            done
        }
    }
}

// Takes a step from the line at the frame's place on. The tape's first line, from which the definitions walk, stands at `first`; the code looks in the first `count` entries of `places`.
pub fn take_step(
    tape: &[u8],
    table: &[i32],
    set: Settings,
    places: &[u64],
    count: usize,
    first: usize,
    buf: &mut [u8],
    frame: Frame,
    run: Run,
) -> StepDone
    requires { Needs (task_of tape.now table.now set first (length buf.old)) (length buf.old) places.now count frame run }
    ensures { StepMeets (task_of tape.now table.now set first (length buf.old)) buf.old frame run result buf.new }
{
    let met = taking::quiet::meet_block(tape, frame.at, run.blocks_left);
    match met {
        Met::Known(quiet) => taking::quiet::do_quiet(places, count, set, frame, quiet, run),
        Met::Words(line) => do_words(
            tape, table, set, places, count, first, buf, frame, line, run,
        ),
    }
}
