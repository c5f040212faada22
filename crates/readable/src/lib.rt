// Every list that a run writes is read back, with its records: said of the interpreter's definitions and of the reader's, and proved. There is no code here.
#![tactic(auto)]
