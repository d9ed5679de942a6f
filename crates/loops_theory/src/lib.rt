// Theory behind the code: what the loops over a word do, and the functions by their tests. No claim
// speaks of it. Definitions are in specs/, theorems in proofs/; there is no function here.
#![tactic(auto)]
