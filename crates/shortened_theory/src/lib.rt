// Theory of shortened codes (request C-17). Definitions are in specs/, theorems in proofs/; there is
// no function here.
#![tactic(auto)]
