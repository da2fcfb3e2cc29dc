// Refusal 1 of clear and the updates: the sizes of what is lent.
ghost use Rattle.std.specs.Prelude.{◌≡◌};
ghost use Rattle.cells.specs.Memory.{lent_to_update};

use prefix::Prefix;
use prefix::geometry::{Block, blocks_of};

// So many segments and rule words, no more.
#[derive(Drop)]
pub struct Most {}

impl Most {
    pub const SEGMENTS: usize = 32768;

    pub const RULES: usize = 65536;
    // The cells of so many segments.
    pub const LONG: usize = Block::CELLS * Most::SEGMENTS;
}

// Whether the numbers of cells and words lent are right for the territory.
pub fn lent(first: usize, long: usize, owners: usize, rules: usize, territory: Prefix) -> bool
    ensures { result ≡ lent_to_update first long owners rules territory }
{
    if Most::SEGMENTS < owners {
        return false;
    }
    if Most::RULES < rules {
        return false;
    }
    if long != Block::CELLS * owners {
        return false;
    }
    if !territory.is_territory() {
        return false;
    }
    first == blocks_of(territory.length)
}
