// A list of moves as text. (01: "It prints mark, version and count, then kind, flags, X, Z and value for each record; on an alarm the word ALARM, number, place, count." 02: "the listing gains two
// fields at the end of each record's line", program and block.)
// lines.rt makes the lines and the listing; records are read from the list by the crate `fields`, words and numbers are written by the crate `decimal`.
#![tactic(auto)]

pub mod lines;

pub use answers;
