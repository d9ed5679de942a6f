// Theory of the words of a code: combining, syndrome, encoding, correction, the third place.
// Definitions are in specs/, theorems in proofs/; there is no function here.
#![tactic(auto)]
