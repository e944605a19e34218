// Places, squared distances, and pending entries as keys.
#![tactic(auto)]

pub mod distance;
pub mod entry;
