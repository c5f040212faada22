// What the interpreter answers: a complete list, or an alarm with its number and place; and where a run begins and ends.
// (01: "An alarm answers with number, place and records written"; "The header is written only when the run succeeds".)
#![tactic(auto)]

ghost use Rattle.std.specs.Prelude.{◌≡◌, ◌≤◌, length};
ghost use Rattle.moves.specs.Form.{header_size, record_limit};
ghost use Rattle.answers.specs.Answers.{answer_by, start_of, headed};

pub use runners;
use runners::Ending;
use runners::taking::Run;
pub use runners::{stages, taking, wording};
use settings::Settings;

#[derive(Clone, Copy)]
pub enum Answer {
    // the list is complete: how many records it has
    Complete(usize),
    // the alarm's number, the place on the tape, and how many records are written
    Alarm(u8, usize, usize),
}

// "A run begins at most 20,000 blocks"
pub const BLOCKS_IN_ALL: u32 = 20_000;

// "At the start: ..", with all blocks left to begin and no record written.
pub fn start_of(set: Settings) -> Run
    ensures { result ≡ start_of set }
{
    Run {
        state: state::at_start(set.x, set.z),
        blocks_left: BLOCKS_IN_ALL,
        count: 0,
    }
}

// The answer of a run that wrote so many records. The header is written where the list is complete.
pub fn finish(ending: Ending, count: usize, buf: &mut [u8]) -> Answer
    requires { (header_size ≤ length buf.old) × (count ≤ record_limit) }
    ensures result { result ≡ answer_by ending count }
    ensures records { buf.new ≡ headed (answer_by ending count) buf.old }
{
    match ending {
        Ending::Ended => {
            moves::list::put_header(buf, count as u16);
            Answer::Complete(count)
        }
        Ending::Stopped(alarm, place) => Answer::Alarm(alarm, place, count),
        Ending::Returned => Answer::Alarm(alarms::WRONG_END, 0, count),
    }
}
