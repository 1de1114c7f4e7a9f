// What the tree's calls decide and write (01, "The tree"): fresh on any table of some rows, add, commit and path on one that is a tree.
#![tactic(auto)]

pub mod add;
pub mod call;
pub mod commit;
pub mod fresh;
pub mod path;
