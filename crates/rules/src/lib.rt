// The lent rule words: read and made, their form and order tested, a prefix found, put in and taken out, and which lie in a block.
#![tactic(auto)]

pub mod blocks;
pub mod form;
pub mod list;
pub mod live;
pub mod word;
