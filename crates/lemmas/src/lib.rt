// What contracts and proofs of several crates share: a writer's contract, what holds of each element of a list and what an Option is in the
// rules' words (specs/), and laws about lists, tests, buffers and the rules' definitions (proofs/).
#![tactic(auto)]
