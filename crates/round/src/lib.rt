// The round trip of the format of 01, "Octets on the air": what we write, we read back to the same fields. There is no code here: the
// claim is of the definitions of crate plain.
#![tactic(auto)]
