// The lent memory: the cell kind, the sizes of what is lent, and segments.
#![tactic(auto)]

pub mod cell;
pub mod lent;
pub mod segments;
pub mod sizes;
