// When an update is refused, and what its tests found where none refuses.
#![tactic(auto)]

pub mod codes;
