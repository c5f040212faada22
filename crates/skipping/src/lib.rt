// The blocks that are told by their text are passed, up to a step that is not one of these. (02, request 12: the engine that hands out one record at a time.)
#![tactic(auto)]

ghost use Rattle.moves.specs.Form.{record_limit};
ghost use Rattle.returning.specs.of_taking.Hands.{Able};
ghost use Rattle.skipping.specs.Passed.{PassMeets};

use ahead::{Frame, Onward};
pub use returning;
use returning::taking::quiet::Met;
use returning::taking::{Hand, Opened, Run};
use returning::{taking, wording};
pub use returning::{answers, paused};
use settings::Settings;

// A step, and where it was taken.
#[derive(Clone, Copy)]
pub struct Passed {
    pub frame: Frame,
    pub run: Run,
    pub opened: Opened,
}

// Passes the blocks that are told by their text, and takes the first step that is not one of these or asks for more than another place of the program.
pub fn pass(
    tape: &[u8],
    table: &[i32],
    set: Settings,
    places: &[u64],
    count: usize,
    frame: Frame,
    run: Run,
) -> Passed
    requires { Able tape.now table.now set places.now count record_limit frame run }
    ensures { PassMeets tape.now table.now set places.now count frame run result }
{
    let mut at = frame.at;
    let mut now = run;
    loop {
        let here = taking::onto(frame, at);
        let met = taking::quiet::meet_block(tape, at, now.blocks_left);
        match met {
            Met::Known(quiet) => {
                let done = taking::quiet::do_quiet(places, count, set, here, quiet, now);
                let onward = done.onward;
                let then = done.run;
                let after = done.after;
                match onward {
                    Onward::On => {
                        now = then;
                        at = after;
                    }
                    Onward::Jump(p) => {
                        now = then;
                        at = returning::within(tape.len(), p);
                    }
                    _ => {
                        return Passed {
                            frame: here,
                            run: now,
                            opened: Opened {
                                done,
                                hand: Hand::Nothing,
                            },
                        };
                    }
                }
            }
            Met::Words(line) => {
                let opened = wording::open_words(
                    tape,
                    table,
                    set,
                    places,
                    count,
                    moves::RECORD_LIMIT,
                    here,
                    line,
                    now,
                );
                return Passed {
                    frame: here,
                    run: now,
                    opened,
                };
            }
        }
    }
}
