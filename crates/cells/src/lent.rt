// What is lent to an update, to be read.
ghost use Rattle.std.specs.Prelude.{◌≡◌};
ghost use Rattle.cells.specs.Memory.{held, is_lent};

use crate::sizes::lent;
use prefix::Prefix;

// The first and the long table, the owner words and the rule words.
#[derive(Clone, Copy)]
pub struct Lent<'a> {
    pub first: &'a [u32],
    pub long: &'a [u32],
    pub owners: &'a [u32],
    pub rules: &'a [u64],
}

impl<'a> Lent<'a> {
    // Whether the numbers of cells and words lent are right for the territory.
    pub fn fits(self, territory: Prefix) -> bool
        ensures { result ≡ is_lent territory (held self.entry) }
    {
        lent(
            self.first.len(),
            self.long.len(),
            self.owners.len(),
            self.rules.len(),
            territory,
        )
    }
}
