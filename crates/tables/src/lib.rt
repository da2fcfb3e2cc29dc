// Changing the tables: painting, opening and closing a segment, each with the number of cells that differ. Withdrawal's repaint is the crate
// `unpaint`.
//
// What a caller's tests have found is handed in: the block, or the blocks, and the segment. The owner words, the territory and the prefix
// are handed down also where only a contract speaks of them: the language has no parameter that is there for a contract alone. A prefix that
// lies in the territory, and its blocks, stay parameters of their own: each of the few contracts that say so is about other values besides.
#![tactic(auto)]

pub mod change;
pub mod fill;
pub mod paint;
pub mod place;
