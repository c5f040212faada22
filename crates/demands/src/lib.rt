// What is owed of every run, said of the interpreter's definitions and proved: specs/ has the statements, proofs/ the proofs. There is no code here.
// Read specs/Demands.antt for the demands and specs/Table.antt for 01's pieces that must come out so.
#![tactic(auto)]

pub use interpreter;
pub use interpreter::answers;
