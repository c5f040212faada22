// An engine that hands out one record at a time, as definitions (specs/), and the law that its answers in turn are the list engine's records and then its answer. Of code there are only two types.
#![tactic(auto)]

use ahead::ProgramAt;
use interpreter::answers::Answer;
pub use interpreter::{answers, taking, wording};
use moves::Listed;

// A program that waits for a call to return: the place to go on in it, and how often the called program is still to run.
#[derive(Clone, Copy)]
pub struct Waiting {
    pub program: ProgramAt,
    pub after: usize,
    pub times: u32,
}

// What is handed out: a record with its program and block, or the answer of the run.
#[derive(Clone, Copy)]
pub enum Handed {
    Move(Listed),
    Over(Answer),
}
