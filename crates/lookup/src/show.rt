// Show: the run of lent cells that decides the block of an address, and the number of its refusal.
ghost use Rattle.std.specs.Prelude.{◌≡◌};
ghost use Rattle.ground.specs.Refusals.{code_of};
ghost use Rattle.lookup.specs.Show.{show_code, seen, shown};

use crate::look::standing_in_cells;
use cells::cell::Cell;
use ground::refusal::Refusal;
use prefix::Prefix;
use prefix::geometry::{Block, block_of};

// Refusal 1, 3 or 4, or that there is a part to show.
#[tactic(auto, using(crate::proofs::Reading::reads_past, crate::proofs::Reading::reads_block), unfolding(crate::specs::Show::show_code, crate::specs::inner::Standing::standing_of))]
pub fn show_code(
    first: &[u32],
    long: &[u32],
    territory: Prefix,
    address: u32,
) -> Result<(), Refusal>
    ensures { code_of result ≡ show_code first.now long.now territory address }
{
    standing_in_cells(first.len(), long.len(), territory, address)?;
    let cell = first[block_of(territory, address)];
    if Cell::is_pointer(cell) && long.len() / Block::CELLS <= Cell::segment(cell) {
        return Err(Refusal::Damage);
    }
    Ok(())
}

// The part: the one cell of the first table, or all cells of the segment that it points to; with any refusal the empty part at the
// start of the first table.
#[tactic(auto, using(crate::proofs::Reading::reads_past, crate::proofs::Reading::reads_block), unfolding(crate::specs::Show::shown, crate::specs::Show::show_code, crate::specs::inner::Standing::standing_of))]
pub fn show_cells<'a>(
    first: &'a [u32],
    long: &'a [u32],
    territory: Prefix,
    address: u32,
) -> &'a [u32]
    ensures { seen result ≡ shown (seen first.entry) (seen long.entry) territory address }
{
    if show_code(first, long, territory, address).is_err() {
        return &first[..0];
    }
    let block = block_of(territory, address);
    let cell = first[block];
    if !Cell::is_pointer(cell) {
        return &first[block..block + 1];
    }
    let start = Cell::segment(cell) * Block::CELLS;
    &long[start..start + Block::CELLS]
}
