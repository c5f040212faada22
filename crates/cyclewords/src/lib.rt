// A cycle that is opened, as the 32-bit words of what is due, both ways: behind what is in hand and the tag of the cycle, the cursor's fields in their order, and zeros.
// Reading is total: any words are some cursor, and whether it is sound is asked elsewhere.
#![tactic(auto)]

pub mod cutting;
pub mod drilled;
pub mod grooved;
mod passing;
pub mod threaded;
pub mod turned;

// How many words what is due takes: those of the groove, which is the longest.
pub const DUE_WORDS: usize = 27;
