// Whether a run that came from elsewhere is within its bounds: on the tape, and within what a run may do. What more a run is bound to is asked of it with the tape.
#![tactic(auto)]

ghost use Rattle.std.specs.Prelude.{◌≡◌, true, ℕ, ◌<◌, length, get_or};
ghost use Rattle.ahead.specs.Ahead.{most_calls};
ghost use Rattle.runwords.specs.of_paused.Kept.{nobody, Waits, Answers, Kept};

pub use runwords;
use runwords::answers;
use runwords::answers::Answer;
pub use runwords::paused;
use runwords::paused::{Going, Phase};
use runwords::resuming::Waiting;

// Whether each program that may wait has its line and the place to go on no further than the end of the tape.
fn wait_within(waiting: [Waiting; runwords::MOST_WAITING], end: usize) -> bool
    ensures sound { result ≡ true → (length waiting ≡ most_calls) × ((k : ℕ) → k < most_calls → Waits end (get_or waiting k nobody)) }
    ensures all { (length waiting ≡ most_calls) × ((k : ℕ) → k < most_calls → Waits end (get_or waiting k nobody)) → result ≡ true }
{
    waiting
        .iter()
        .all(|one| (one.program.line <= end) & (one.after <= end))
}

// Whether the place and the count of the answer, where the run has come to one, have 16 bits.
pub fn is_fitting(phase: Phase) -> bool
    ensures sound { result ≡ true → Answers phase }
    ensures all { Answers phase → result ≡ true }
{
    match phase {
        Phase::Running => true,
        Phase::Over(answer) => match answer {
            Answer::Complete(count) => count <= reading::LONGEST_TAPE,
            Answer::Alarm(_, place, count) => (place <= reading::LONGEST_TAPE)
                & (count <= reading::LONGEST_TAPE),
        },
    }
}

// Whether a run is within its bounds: true of each that is, and of no other.
pub fn is_kept(g: Going) -> bool
    ensures sound { result ≡ true → Kept g }
    ensures all { Kept g → result ≡ true }
{
    let frame = g.frame;
    let run = g.run;
    let waiting = g.waiting;
    let phase = g.phase;
    let here = frame.at <= g.end;
    let line = frame.program.line <= g.end;
    let calls = frame.calls_left <= ahead::MOST_CALLS;
    let blocks = run.blocks_left <= answers::BLOCKS_IN_ALL;
    let count = run.count <= moves::RECORD_LIMIT;
    let tape = g.end <= reading::LONGEST_TAPE;
    let filled = g.filled <= reading::LONGEST_TAPE;
    let wait = wait_within(waiting, g.end);
    let answer = is_fitting(phase);
    here & line & calls & blocks & count & tape & filled & wait & answer
}
