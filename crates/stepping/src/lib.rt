// The engine that hands out one record at a time. (02, request 12: "a second, plain engine that keeps the run's state, call places included, and hands out the next record or the alarm when asked".)
// It has no list, no buffer and no recursion. What it hands out of a block comes from the block's own cursor, as what the list engine writes does; what it hands out in all is held to the list
// engine's records by the laws of `resuming`.
// A turn: the blocks up to the next one that has words, that one, and where the run goes on behind it.
#![tactic(auto)]

ghost use Rattle.std.specs.Prelude.{◌≡◌, length};
ghost use Rattle.skipping.specs.of_paused.Kept.{Kept};
ghost use Rattle.skipping.specs.of_paused.declared.Phase.TheVariants.{Running};
ghost use Rattle.skipping.specs.of_returning.Moving.{gone_on};
ghost use Rattle.stepping.specs.Meets.{Fit, TurnMeets, Nearer, Stands};

use ahead::{Onward, ProgramAt};
pub use holding;
use holding::taking;
use holding::taking::{Hand, Run};
use settings::Settings;
use skipping::answers::Answer;
use skipping::paused::{Going, Phase};
use skipping::returning;

// What a turn has in hand, and where the run goes on once that is handed out.
#[derive(Clone, Copy)]
pub struct Turned {
    pub hand: Hand,
    pub going: Going,
}

// Where the run goes on behind a step.
fn go_on(tape: &[u8], g: Going, onward: Onward, run: Run, after: usize) -> Going
    requires { Kept g × (length tape.now ≡ g.end) }
    ensures { result ≡ gone_on tape.now g onward run after }
{
    let frame = g.frame;
    let program = frame.program;
    match onward {
        Onward::On => returning::moved(g, taking::onto(frame, after), run),
        Onward::Jump(p) => {
            let to = returning::within(tape.len(), p);
            returning::moved(g, taking::onto(frame, to), run)
        }
        Onward::Call(p, times) => {
            let line = returning::within(tape.len(), p.line);
            let called = ProgramAt {
                number: p.number,
                line,
            };
            returning::call(tape, g, run, called, times, after)
        }
        Onward::Return => returning::come_back(tape, returning::moved(g, frame, run)),
        Onward::End => {
            let count = run.count;
            returning::over(g, run, Answer::Complete(count))
        }
        Onward::Stop(alarm, place) => returning::stopped(g, run, alarm, place),
    }
}

// Takes a turn. The tape is the part that was read.
fn turn(tape: &[u8], table: &[i32], set: Settings, places: &[u64], g: Going) -> Turned
    requires { Fit tape.now table.now set places.now g × (g.phase ≡ Running) }
    ensures meets { TurnMeets tape.now table.now set places.now g result }
    ensures nearer { Nearer result.going.phase g.run result.going.run }
{
    let frame = g.frame;
    let run = g.run;
    let passed = skipping::pass(tape, table, set, places, g.filled, frame, run);
    let here = passed.frame;
    let before = passed.run;
    let opened = passed.opened;
    let done = opened.done;
    let opened_hand = opened.hand;
    let hand = holding::held(opened_hand);
    let onward = done.onward;
    let then = done.run;
    let there = returning::moved(g, here, before);
    let going = go_on(tape, there, onward, then, done.after);
    Turned { hand, going }
}

// Takes turns until a record is in hand or the run is over.
pub fn advance(tape: &[u8], table: &[i32], set: Settings, places: &[u64], g: Going) -> Turned
    requires { Fit tape.now table.now set places.now g × (g.phase ≡ Running) }
    ensures meets { TurnMeets tape.now table.now set places.now g result }
    ensures stands { Stands result.hand result.going.phase }
{
    let mut now = g;
    loop {
        let turned = turn(tape, table, set, places, now);
        let hand = turned.hand;
        let going = turned.going;
        let phase = going.phase;
        match hand {
            Hand::Block(_, _) => {
                return turned;
            }
            Hand::Nothing => match phase {
                Phase::Over(_) => {
                    return turned;
                }
                Phase::Running => {
                    now = going;
                }
            },
        }
    }
}
