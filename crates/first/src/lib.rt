// The first row of a table that is so, and what stores at such rows come to. No code.
#![tactic(auto)]
