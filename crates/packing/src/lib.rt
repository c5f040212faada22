// An answer as one number, as it goes to a caller in C; and what an ask for the next move comes to, as one number too. (02, request 12: "hands out the next record or the alarm when asked".)
#![tactic(auto)]

ghost use Rattle.std.specs.Prelude.{◌≡◌, ◌+◌, ◌*◌, ◌<◌};
ghost use Rattle.packing.specs.Packing.{Fits, Packed, answer_number, told_number, FitsTold, Bounded};

pub use answers;
use answers::Answer;
pub use answers::{stages, taking};

// What an ask comes to: a record, which is laid at the front of the lent bytes; the answer of the run; or that nothing was done: words that cannot be asked with what is lent, or bytes that have no room for a record.
#[derive(Clone, Copy)]
pub enum Told {
    Move,
    Over(Answer),
    Refused,
}

// Alarm, place and count as one number.
fn packed(alarm: u8, place: usize, count: usize) -> u64
    requires { (place < 65_536) × (count < 65_536) }
    ensures { result ≡ count + 65_536 * (place + 65_536 * alarm) }
{
    count as u64 + 65_536 * (place as u64 + 65_536 * alarm as u64)
}

// The same of an answer.
pub fn packed_answer(answer: Answer) -> u64
    requires { Fits answer }
    ensures bits { Packed answer result }
    ensures number { result ≡ answer_number answer }
{
    match answer {
        Answer::Complete(count) => packed(0, 0, count),
        Answer::Alarm(alarm, place, count) => packed(alarm, place, count),
    }
}

// What an ask tells, in bits 40 and 41: a record, the answer of the run, or that nothing was done.
pub const TOLD_OVER: u64 = 1_099_511_627_776;

pub const TOLD_REFUSED: u64 = 2_199_023_255_552;

pub fn told_number(told: Told) -> u64
    requires { FitsTold told }
    ensures number { result ≡ told_number told }
    ensures bits { Bounded told }
{
    match told {
        Told::Move => 0,
        Told::Over(answer) => TOLD_OVER + packed_answer(answer),
        Told::Refused => TOLD_REFUSED,
    }
}
