// The cells of the member table of 01, "Members": its further refusals, and what its events change of the record.
#![tactic(auto)]

pub mod changes;
pub mod refusals;
