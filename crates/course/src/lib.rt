// Lists of calls on a session, what two operators' lists have in common (demand 3), and how many fills their cranks make: definitions and theorems, and no
// code but their names.
#![tactic(auto)]

pub mod claims;
