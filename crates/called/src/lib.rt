// A public call: what it is handed, what it leaves, what it promises, and what follows from its tests. There is no code here.
#![tactic(auto)]
