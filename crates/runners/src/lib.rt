// The run of a program: its blocks one after the other, the calls in it, and the runs of a call, by two runners. (01: "Running a program runs its blocks, and a call block runs a program again".)
// They call each other; a loop inside goes along the blocks, so that the real stack is never deeper than the calls of the program are.
#![tactic(auto)]

ghost use Rattle.std.specs.Prelude.{length};
ghost use Rattle.steps.specs.of_taking.Steps.{task_of};
ghost use Rattle.runners.specs.Meets.{Begins, ProgramMeets, CallMeets};

use ahead::{Frame, Onward, ProgramAt};
use settings::Settings;
use steps::taking::Run;
pub use steps::{stages, taking, wording};

// How a program's run came to its end. An alarm has its number and its place.
#[derive(Clone, Copy)]
pub enum Ending {
    Returned,
    Ended,
    Stopped(u8, usize),
}

#[derive(Clone, Copy)]
pub struct Outcome {
    pub ending: Ending,
    pub run: Run,
}

// Runs the blocks of a program, with so many calls left, until it returns, the run ends or an alarm stops it.
#[cycle(run_call_run_program)]
pub fn run_program(
    tape: &[u8],
    table: &[i32],
    set: Settings,
    places: &[u64],
    count: usize,
    first: usize,
    buf: &mut [u8],
    program: ProgramAt,
    calls: u32,
    run: Run,
) -> Outcome
    requires { Begins (task_of tape.now table.now set first (length buf.old)) (length buf.old) places.now count program run }
    ensures { ProgramMeets (task_of tape.now table.now set first (length buf.old)) buf.old program calls run result buf.new }
{
    let line = tape::line::line_at(tape, program.line);
    let mut now = run;
    let mut at = line.after;
    loop {
        let frame = Frame {
            program,
            calls_left: calls,
            at,
        };
        let done = steps::step::take_step(tape, table, set, places, count, first, buf, frame, now);
        let onward = done.onward;
        let then = done.run;
        let after = done.after;
        match onward {
            Onward::On => {
                now = then;
                at = after;
            }
            Onward::Jump(place) => {
                now = then;
                at = place;
            }
            Onward::Call(called, times) => {
                let o = run_call(
                    tape, table, set, places, count, first, buf, called, calls, times, then,
                );
                let ending = o.ending;
                let back = o.run;
                match ending {
                    Ending::Returned => {
                        now = back;
                        at = after;
                    }
                    _ => {
                        return o;
                    }
                }
            }
            Onward::Return => {
                return Outcome {
                    ending: Ending::Returned,
                    run: then,
                };
            }
            Onward::End => {
                return Outcome {
                    ending: Ending::Ended,
                    run: then,
                };
            }
            Onward::Stop(alarm, place) => {
                return Outcome {
                    ending: Ending::Stopped(alarm, place),
                    run: then,
                };
            }
        }
    }
}

// Runs a program so many times. Who calls it has calls left: the eleventh call deep was refused (alarm 12).
#[cycle(run_call_run_program)]
fn run_call(
    tape: &[u8],
    table: &[i32],
    set: Settings,
    places: &[u64],
    count: usize,
    first: usize,
    buf: &mut [u8],
    program: ProgramAt,
    calls: u32,
    times: u32,
    run: Run,
) -> Outcome
    requires { Begins (task_of tape.now table.now set first (length buf.old)) (length buf.old) places.now count program run }
    ensures { CallMeets (task_of tape.now table.now set first (length buf.old)) buf.old program calls times run result buf.new }
{
    if calls == 0 {
        return Outcome {
            ending: Ending::Stopped(alarms::TOO_DEEP, program.line),
            run,
        };
    }
    let mut now = run;
    let mut n = times;
    while 0 < n {
        let o = run_program(
            tape,
            table,
            set,
            places,
            count,
            first,
            buf,
            program,
            calls - 1,
            now,
        );
        let ending = o.ending;
        let back = o.run;
        match ending {
            Ending::Returned => {
                now = back;
            }
            _ => {
                return o;
            }
        }
        n -= 1;
    }
    Outcome {
        ending: Ending::Returned,
        run: now,
    }
}
