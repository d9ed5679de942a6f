// Theory behind the code: weighted sums of elements, folded level by level. No claim speaks of it.
// Definitions are in specs/, theorems in proofs/; there is no function here.
#![tactic(auto)]
