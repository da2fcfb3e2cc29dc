// Look up on tables that are bytes, four to a cell, the lowest first, as a C caller passes them.
ghost use Rattle.std.specs.Prelude.{◌≡◌};
ghost use Rattle.lookup.specs.Bytes.{look_up_bytes};

use crate::look::{Packed, read, standing};
use prefix::Prefix;

// How many bytes a cell has.
const CELL: usize = 4;

// The answer as one number; refusal 1 also where a table is no whole number of cells. The tables are tested in bytes, at once, and then are
// whole cells.
#[tactic(auto, using(crate::proofs::Words::bytes_lent, crate::proofs::Words::bytes_read, crate::proofs::Words::bytes_stop))]
pub fn look_up_bytes(first: &[u8], long: &[u8], territory: Prefix, address: u32) -> u32
    ensures { result ≡ look_up_bytes first.now long.now territory address }
{
    if let Err(refusal) = standing(CELL, first.len(), long.len(), territory, address) {
        return Packed::refused(refusal);
    }
    let (first, _) = first.as_chunks::<CELL>();
    let (long, _) = long.as_chunks::<CELL>();
    read(first, long, territory, address)
}
