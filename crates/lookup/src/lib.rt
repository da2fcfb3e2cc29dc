// Reading the tables: look up and show on the two lent tables, and look up on bytes, for C.
#![tactic(auto)]

pub mod bytes;
pub mod look;
pub mod show;
