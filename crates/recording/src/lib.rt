// Demand 3, "More memory never changes an answer", of lists of the public calls. There is no code here: the claim is in specs/.
#![tactic(auto)]
