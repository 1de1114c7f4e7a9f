// The quorum tree of document 01, and the tree of commands (02, ticket 1): their meanings (specs/) and the theorems about them (proofs/). No code.

#![tactic(auto)]
