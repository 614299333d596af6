// A bus as bytes, for a host to keep: sixteen rows of twenty-four bytes.
#![tactic(auto)]

pub mod reading;
pub mod writing;
