// Demand 3, "More memory never changes an answer", and facts about lists of calls. There is no code here: the claim is in specs/.
#![tactic(auto)]
