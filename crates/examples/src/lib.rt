// Files and numbers by which the definitions of the paper are tried, beside document 01's own examples, which stand in the paper itself. There is no code
// here: `proofs/` has what the calls answer for each file and what may be read of it, and the checker computes that the definitions give just that.
#![tactic(auto)]
