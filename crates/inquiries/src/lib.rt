// Questions on a session, which they leave as it is.
#![tactic(auto)]

pub mod claims;
pub mod why;
