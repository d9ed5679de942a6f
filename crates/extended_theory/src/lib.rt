// Theory of extended words (request C-12): a word of a code, shortened or not, and one place more that makes the
// number of ones even. Definitions are in specs/, theorems in proofs/; there is no function here.
#![tactic(auto)]
