// Painting: announce and re-home put a new cell in the place of each cell of a prefix that is 0 or at most as long as the prefix.
ghost use Rattle.std.specs.Prelude.{◌≡◌, ◌+◌};
ghost use Rattle.prefix.specs.Geometry.{touched};
ghost use Rattle.cells.specs.Memory.{tables_of};
ghost use Rattle.tables.specs.Cellwise.{paint_cell, repainted};
ghost use Rattle.tables.specs.Changes.{left, leaves};
ghost use Rattle.tables.specs.inner.Ready.{Repaintable};
ghost use Rattle.tables.specs.inner.Ranges.{BlocksReady, BlocksChanged};

use crate::change::{change_run, differ};
use crate::place;
use cells::cell::Cell;
use prefix::Prefix;
use prefix::geometry::{Block, Blocks};

// What becomes of one cell under a new cell of a prefix of this length. Both go on through the functions below, as two numbers that a closure takes
// as they are.
pub fn paint_cell(old: u32, new: u32, length: u32) -> u32
    ensures { result ≡ paint_cell length new old }
{
    if old == Cell::EMPTY {
        return new;
    }
    if Cell::length(old) <= length {
        return new;
    }
    old
}

// Paints the segment that the block's first cell points to, or else that cell.
fn paint_block(
    first: &mut [u32],
    long: &mut [u32],
    owners: &[u32],
    territory: Prefix,
    block: usize,
    new: u32,
    length: u32,
) -> u32
    requires { BlocksReady territory block (block + 1) (tables_of first.old long.old owners.now) }
    ensures { BlocksChanged territory (λ a. paint_cell length new) block (block + 1) (tables_of first.old long.old owners.now)
        first.new long.new result }
{
    let cell = first[block];
    if Cell::is_pointer(cell) {
        let run = place::segment_cells(cell);
        return change_run(long, run, |old| paint_cell(old, new, length));
    }
    let next = paint_cell(cell, new, length);
    first[block] = next;
    differ(cell, next)
}

// Paints the blocks from..to, and returns how many cells of both tables differ. They are two numbers, since over a Range in a variable the facts
// of the loop are an iterator's.
fn paint_blocks(
    first: &mut [u32],
    long: &mut [u32],
    owners: &[u32],
    territory: Prefix,
    from: usize,
    to: usize,
    new: u32,
    length: u32,
) -> u32
    requires { BlocksReady territory from to (tables_of first.old long.old owners.now) }
    ensures { BlocksChanged territory (λ a. paint_cell length new) from to (tables_of first.old long.old owners.now)
        first.new long.new result }
{
    let mut changed = 0;
    for block in from..to {
        changed += paint_block(first, long, owners, territory, block, new, length);
    }
    changed
}

// Paints each cell in the prefix, direct or in an open segment, and returns how many cells of both tables differ.
pub fn paint(
    first: &mut [u32],
    long: &mut [u32],
    owners: &[u32],
    territory: Prefix,
    prefix: Prefix,
    blocks: Blocks,
    new: u32,
) -> u32
    requires repaintable { Repaintable territory prefix (tables_of first.old long.old owners.now) }
    requires touched_blocks { blocks ≡ touched territory prefix }
    ensures { left result (tables_of first.new long.new owners.now)
        ≡ leaves (repainted territory prefix (λ a. paint_cell prefix.length new)) (tables_of first.old long.old owners.now) }
{
    let length = prefix.length;
    let block = blocks.from;
    if length <= Block::WIDTH {
        let to = block + blocks.count;
        return paint_blocks(first, long, owners, territory, block, to, new, length);
    }
    let run = place::prefix_cells(Cell::segment(first[block]), prefix);
    change_run(long, run, |old| paint_cell(old, new, length))
}
