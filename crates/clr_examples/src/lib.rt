//! Worked examples: what the definitions of the rules give on a small network, answer by answer.
//! Each is a statement of `specs/`, or of `proofs/` where it needs lemmas. No function is here.
#![tactic(auto)]
