// A run that waits between two blocks, for the engine that hands out one record at a time: where it stands, the programs that wait for a call to return, and what it has come to.
// (02, request 12: an engine "that keeps the run's state, call places included".)
#![tactic(auto)]

use ahead::Frame;
pub use resuming;
use resuming::Waiting;
use resuming::answers::Answer;
use resuming::taking::Run;
pub use resuming::{answers, taking, wording};

// Whether there is more to run, or the answer that the run has come to.
#[derive(Clone, Copy)]
pub enum Phase {
    Running,
    Over(Answer),
}

// The programs that wait are the first of `waiting`, as many as calls are under way, the last one last; the tape is read up to `end`, and `filled` entries of the table of places are the tape's.
#[derive(Clone, Copy)]
pub struct Going {
    pub frame: Frame,
    pub run: Run,
    pub waiting: [Waiting; 10],
    pub phase: Phase,
    pub end: usize,
    pub filled: usize,
}
