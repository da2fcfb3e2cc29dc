// Segments: whether a prefix needs one, and the lowest that is free.
ghost use Rattle.std.specs.Prelude.{◌≡◌, not, ◌&&◌, ltb, ◌==◌, position};
ghost use Rattle.prefix.specs.Geometry.{width};
ghost use Rattle.cells.specs.Cells.{is_pointer};

use crate::cell::Cell;
use prefix::geometry::Block;

// Whether a prefix of this length needs a segment where its block's first cell is `cell`: it is longer than 24 and the cell is no pointer.
pub fn needs_segment(cell: u32, length: u32) -> bool
    ensures { result ≡ (ltb width length && not (is_pointer cell)) }
{
    if length <= Block::WIDTH {
        return false;
    }
    !Cell::is_pointer(cell)
}

// The lowest free segment, if one is free.
pub fn free_segment(owners: &[u32]) -> Option<usize>
    ensures { result ≡ position (λ owner. owner == 0) owners.now }
{
    owners.iter().position(|owner| *owner == 0)
}
