// The whole interpreter: settings, tape and buffer judged, the tape read, and the main program run.
// (01, "What the interpreter takes and gives" and "Alarms and their order".)
#![tactic(auto)]

pub mod interpret;

pub use answers;
pub use answers::{taking, wording};
