// The model of document 01 (specs/), and the third demand about it (proofs/). No code.

#![tactic(auto)]
