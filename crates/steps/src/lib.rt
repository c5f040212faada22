// One step of a run, with its records written: a step is taken, in `taking`, and the records that its block has in hand are written behind those of the blocks before it.
// (01: "A refused block writes nothing".) The runners, in `runners`, know nothing of words and records.
#![tactic(auto)]

pub mod step;

pub use wording;
pub use wording::{stages, taking};
