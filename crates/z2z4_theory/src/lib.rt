// Theory of the calls for C, by t and r. Definitions are in specs/, theorems in proofs/; there is no
// function here.
#![tactic(auto)]
