// Where alarms come, said of the interpreter's definitions and proved: specs/ has the statements, proofs/ the proofs. There is no code here.
// Read specs/Tests.antt for the orders of the alarms, specs/Walking.antt for the block that follows, and specs/Alarmed.antt for the statement.
#![tactic(auto)]

pub use demands::{answers, interpreter};
