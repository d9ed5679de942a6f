// Theory of the group: what an element is, and how elements are added, numbered and told by sign.
// Definitions are in specs/, theorems in proofs/; there is no function here.
#![tactic(auto)]
