// Laws on Booleans, tests, lists and memberships that the other crates' meanings and proofs share. No code.

#![tactic(auto)]
