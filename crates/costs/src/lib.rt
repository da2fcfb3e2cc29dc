// What the upstreams cost: the line of a hop, and which of two hops ranks before the other.
#![tactic(auto)]

pub mod ledger;
pub mod line;
pub mod order;
