// The bytes of a tape: where its lines begin and end, and what is passed over between two words. (01: "Reading a tape".)
// What stands between the gaps the crate `addresses` reads.
#![tactic(auto)]

pub mod line;
