// A list of moves read back from its bytes. (02, request 6: "given bytes, either record k or a refusal"; request 7: "the reader takes both".)
// Below it `lawful` has what differs between the versions of a list and which records a list may have, `fields` takes a record from its bytes, and `judging` judges a list as a whole; read.rt
// answers record k or a refusal, and `numbered` does the same in plain numbers, for callers in C.
// Who reads more than one record of a list judges it once (`judging::judge_list`) and then reads its records one after the other (`read::read_judged`, or `fields::listed_at` where it is known
// that the list has the record).
#![tactic(auto)]

pub mod read;
