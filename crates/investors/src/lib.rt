// Who stands behind the orders: the checks across one investor's orders, and the participants of a print.
#![tactic(auto)]

pub mod exclusion;
pub mod participants;
mod seen;
