// Words that a caller lends taken as where a run stands: each number has its place. (02, request 12: an engine "that keeps the run's state".) `runlaid` lays a run into them.
// Nothing is refused here: any words give some run; whether it is within its bounds is asked of it (`runbounds`).
#![tactic(auto)]

ghost use Rattle.std.specs.Prelude.{◌≡◌, ◌<◌, ◌%◌, length};
ghost use Rattle.ahead.specs.Ahead.{most_calls};
ghost use Rattle.runwords.specs.Taken.{going_words, motion_of, phase_of, frame_of, state_of, run_of, waiting_at, waiting_of, going_of};

use acts::Kept;
use ahead::{Frame, ProgramAt};
use codes::Motion;
pub use paused;
use paused::answers::Answer;
use paused::resuming::Waiting;
use paused::taking::Run;
pub use paused::{answers, resuming, taking};
use paused::{Going, Phase};
use state::State;

// What the run has come to: its tag, and of an answer the alarm, the place and the count of the records, 0 where it has none.
pub const PHASE: usize = 0;

pub const ALARM: usize = 1;

pub const PLACE: usize = 2;

pub const COUNT: usize = 3;

// How far the tape is read, and how many entries of the table of places are the tape's.
pub const END: usize = 4;

pub const FILLED: usize = 5;

// The program that runs, the calls that are left, and the place to go on.
pub const PROGRAM: usize = 6;

pub const LINE: usize = 7;

pub const CALLS_LEFT: usize = 8;

pub const FROM: usize = 9;

// The run: the blocks that may still begin, the records that were made, and what is kept between blocks.
pub const BLOCKS_LEFT: usize = 10;

pub const RECORDS: usize = 11;

pub const MOTION: usize = 12;

pub const G96: usize = 13;

pub const G95: usize = 14;

pub const SHIFT_GROUP3: usize = 15;

pub const SHIFT_GROUP5: usize = 16;

pub const CORRECTION: usize = 17;

pub const FEED: usize = 18;

pub const RAPID_DUE: usize = 19;

pub const X: usize = 20;

pub const Z: usize = 21;

// The programs that wait, each with four words: number, line, the place to go on, how often the called program is still to run.
pub const WAITING: usize = 22;

pub const WAITING_WORDS: usize = 4;

pub const MOST_WAITING: usize = ahead::MOST_CALLS as usize;

// How many words there are.
pub const GOING_WORDS: usize = 62;

// The tags of what a run has come to; all others are those of a run that goes on.
pub const COMPLETE: u32 = 1;

pub const STOPPED: u32 = 2;

// What is so; all other words say that it is not.
pub const YES: u32 = 1;

// The tags of the motions; all others are that of none.
pub const RAPID: u32 = 1;

pub const STRAIGHT: u32 = 2;

pub const CLOCKWISE: u32 = 3;

pub const COUNTERCLOCKWISE: u32 = 4;

pub const THREAD: u32 = 5;

pub const DWELL: u32 = 6;

pub const TURNING: u32 = 7;

pub const THREADING: u32 = 8;

pub const GROOVING: u32 = 9;

pub const CHIP_BREAKING: u32 = 10;

pub const REDRAWING: u32 = 11;

fn alarm_of(word: u32) -> u8
    ensures { result ≡ word % 256 }
{
    (word % 256) as u8
}

#[tactic(auto, unfolding(crate::specs::Taken::motion_of))]
fn motion_of(tag: u32) -> Kept
    ensures { result ≡ motion_of tag }
{
    match tag {
        RAPID => Kept::Of(Motion::Rapid),
        STRAIGHT => Kept::Of(Motion::Feed),
        CLOCKWISE => Kept::Of(Motion::Clockwise),
        COUNTERCLOCKWISE => Kept::Of(Motion::Counterclockwise),
        THREAD => Kept::Of(Motion::Thread),
        DWELL => Kept::Of(Motion::Dwell),
        TURNING => Kept::Of(Motion::Turning),
        THREADING => Kept::Of(Motion::Threading),
        GROOVING => Kept::Of(Motion::Grooving),
        CHIP_BREAKING => Kept::Of(Motion::ChipBreaking),
        REDRAWING => Kept::Of(Motion::Redrawing),
        _ => Kept::Nothing,
    }
}

#[tactic(auto, unfolding(crate::specs::Taken::phase_by))]
pub fn phase_of(words: &[u32]) -> Phase
    requires { length words.now ≡ going_words }
    ensures { result ≡ phase_of words.now }
{
    let tag = words[PHASE];
    let alarm = alarm_of(words[ALARM]);
    let place = words[PLACE] as usize;
    let count = words[COUNT] as usize;
    match tag {
        COMPLETE => Phase::Over(Answer::Complete(count)),
        STOPPED => Phase::Over(Answer::Alarm(alarm, place, count)),
        _ => Phase::Running,
    }
}

fn frame_of(words: &[u32]) -> Frame
    requires { length words.now ≡ going_words }
    ensures { result ≡ frame_of words.now }
{
    let program = ProgramAt {
        number: words[PROGRAM],
        line: words[LINE] as usize,
    };
    Frame {
        program,
        calls_left: words[CALLS_LEFT],
        at: words[FROM] as usize,
    }
}

// X and Z in two's complement, as in the records of a list.
#[tactic(auto, unfolding(octets::specs::Bytes::signed_of))]
fn state_of(words: &[u32]) -> State
    requires { length words.now ≡ going_words }
    ensures { result ≡ state_of words.now }
{
    State {
        motion: motion_of(words[MOTION]),
        g96: words[G96] == YES,
        g95: words[G95] == YES,
        shift_group3: words[SHIFT_GROUP3],
        shift_group5: words[SHIFT_GROUP5],
        correction: words[CORRECTION],
        f: words[FEED],
        rapid_due: words[RAPID_DUE] == YES,
        x: words[X].cast_signed(),
        z: words[Z].cast_signed(),
    }
}

fn run_of(words: &[u32]) -> Run
    requires { length words.now ≡ going_words }
    ensures { result ≡ run_of words.now }
{
    Run {
        state: state_of(words),
        blocks_left: words[BLOCKS_LEFT],
        count: words[RECORDS] as usize,
    }
}

// The program that waits as number k.
fn waiting_at(words: &[u32], k: usize) -> Waiting
    requires { (length words.now ≡ going_words) × (k < most_calls) }
    ensures { result ≡ waiting_at words.now k }
{
    let at = WAITING + k * WAITING_WORDS;
    let program = ProgramAt {
        number: words[at],
        line: words[at + 1] as usize,
    };
    Waiting {
        program,
        after: words[at + 2] as usize,
        times: words[at + 3],
    }
}

fn waiting_of(words: &[u32]) -> [Waiting; MOST_WAITING]
    requires { length words.now ≡ going_words }
    ensures { result ≡ waiting_of words.now }
{
    [
        waiting_at(words, 0),
        waiting_at(words, 1),
        waiting_at(words, 2),
        waiting_at(words, 3),
        waiting_at(words, 4),
        waiting_at(words, 5),
        waiting_at(words, 6),
        waiting_at(words, 7),
        waiting_at(words, 8),
        waiting_at(words, 9),
    ]
}

#[tactic(auto, unfolding(crate::specs::Taken::going_of))]
pub fn going_of(words: &[u32]) -> Going
    requires { length words.now ≡ going_words }
    ensures { result ≡ going_of words.now }
{
    Going {
        frame: frame_of(words),
        run: run_of(words),
        waiting: waiting_of(words),
        phase: phase_of(words),
        end: words[END] as usize,
        filled: words[FILLED] as usize,
    }
}
