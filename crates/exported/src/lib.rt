// The contracts of kajakulm's calls, which kajakulm_c exports, as the prover holds them. No code: specs/ says what they are.
#![tactic(auto)]
