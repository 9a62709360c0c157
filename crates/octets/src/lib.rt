// Bytes: the numbers that they say, and what is written into them.
#![tactic(auto)]

pub mod reading;
pub mod writing;
