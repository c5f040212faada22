// The next block as it is met. One without words, and one that is a jump alone, is told by its text, and done without its words being put together: it changes nothing but where the run goes on
// and how many blocks may still be begun.
ghost use Rattle.std.specs.Prelude.{◌≡◌, ◌≤◌, ◌<◌, length, take};
ghost use Rattle.taking.specs.Steps.{passed_by};
ghost use Rattle.taking.specs.Meets.{Starts, jump_on, met_from, JumpMeets, MetMeets, Begun, Jumped, QuietDone};

use crate::{Run, StepDone};
use ahead::{Frame, Onward};
use finding::{BlockAt, NextBlock};
use jumping::Jumping;
use requests::Request;
use settings::Settings;

// A step that is taken without a block's words: the program ends before a block; a block has no words; or it is a jump alone, to the block of a number. A block has its place, and that of the line
// behind it.
#[derive(Clone, Copy)]
pub enum Quiet {
    Ended,
    Bare(usize, usize),
    Jump(usize, u32, usize),
}

// The next block of a program, as it is met: told by its text, or a line whose words are to be put together.
#[derive(Clone, Copy)]
pub enum Met {
    Known(Quiet),
    Words(BlockAt),
}

// The jump of a block line that has no other words, by the text behind its block number. A line that is too long has no words.
fn jump_on(line: &[u8], behind: usize) -> Jumping
    requires { Starts line.now behind }
    ensures jump { result ≡ jump_on line.now behind }
    ensures words { JumpMeets line.now result }
{
    if line.len() > block::LONGEST_LINE {
        return Jumping::Other;
    }
    jumping::jump_in(&line[behind..])
}

// The next block from the line at `from` on, where so many blocks may still begin. Where none may, it is not told by its text: alarm 13 stands with its words.
pub fn meet_block(tape: &[u8], from: usize, left: u32) -> Met
    requires { from ≤ length tape.now }
    ensures met { result ≡ met_from tape.now from left }
    ensures known { MetMeets tape.now from left result }
{
    let next = finding::next_block(tape, from);
    match next {
        NextBlock::Nowhere => Met::Known(Quiet::Ended),
        NextBlock::At(line) => {
            if left == 0 {
                return Met::Words(line);
            }
            let at = line.at;
            let stop = line.stop;
            let after = line.after;
            if stop <= at + line.behind {
                return Met::Known(Quiet::Bare(at, after));
            }
            let jump = jump_on(&tape[at..stop], line.behind);
            match jump {
                Jumping::To(to) => Met::Known(Quiet::Jump(at, to, after)),
                Jumping::Other => Met::Words(line),
            }
        }
    }
}

// Passes a block that has no words.
fn pass_block(run: Run, after: usize) -> StepDone
    requires { 0 < run.blocks_left }
    ensures { result ≡ passed_by run after }
{
    let state = run.state;
    crate::went(Onward::On, state, run, run.count, after)
}

// Does a block that is a jump alone.
fn do_jump(
    places: &[u64],
    count: usize,
    set: Settings,
    frame: Frame,
    to: u32,
    run: Run,
    after: usize,
) -> StepDone
    requires { (count ≤ length places.now) × (0 < run.blocks_left) }
    ensures { Jumped (take count places.now) set frame to run after result }
{
    let onward = ahead::look_up(places, count, set, frame, Request::Jump(to));
    let asked = crate::alarm_by(onward);
    if asked != 0 {
        return crate::stopped(asked, frame.at, run, after);
    }
    let state = run.state;
    crate::went(onward, state, run, run.count, after)
}

// What comes of a step that is taken without a block's words: alarm 14 at the program's line where the program ends, alarm 11 where a jump's block is missing.
pub fn do_quiet(
    places: &[u64],
    count: usize,
    set: Settings,
    frame: Frame,
    quiet: Quiet,
    run: Run,
) -> StepDone
    requires { (count ≤ length places.now) × Begun run.blocks_left quiet }
    ensures { QuietDone (take count places.now) set frame quiet run result }
{
    match quiet {
        Quiet::Ended => {
            let program = frame.program;
            crate::stopped(alarms::WRONG_END, program.line, run, frame.at)
        }
        Quiet::Bare(_, after) => pass_block(run, after),
        Quiet::Jump(at, to, after) => {
            let there = crate::onto(frame, at);
            do_jump(places, count, set, there, to, run, after)
        }
    }
}
