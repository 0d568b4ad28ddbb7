// Sets of points and tests over the numbers below a limit: definitions and lemmas that every crate above builds on.
// There is no code here: `specs/Points.antt` has the words, `proofs/` what is proved of them.
#![tactic(auto)]
