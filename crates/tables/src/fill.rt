// Filling a segment: it is opened with the block's former cell and painted in the same pass, so that each cell is counted once; it is closed
// with 0.
ghost use Rattle.std.specs.Prelude.{◌≡◌, ◌+◌, get_or};
ghost use Rattle.prefix.specs.Geometry.{block_size, block_of};
ghost use Rattle.cells.specs.Cells.{segment_of};
ghost use Rattle.cells.specs.Memory.{tables_of};
ghost use Rattle.tables.specs.Cellwise.{paint_cell, repainted};
ghost use Rattle.tables.specs.Changes.{opened_at, closed_at, left, leaves};
ghost use Rattle.tables.specs.inner.Ready.{Openable, Closable};
ghost use Rattle.tables.specs.inner.Ranges.{InSegment, RunChanged, two_values};

use crate::change::{change_run, differ};
use crate::{paint, place};
use cells::cell::Cell;
use prefix::Prefix;
use prefix::geometry::Block;
use std::ops::Range;

// Fills the segment that starts at `at`: the cells of a run in it with one value, those around them with another.
fn fill_segment(cells: &mut [u32], at: usize, run: Range<usize>, inside: u32, around: u32) -> u32
    requires { InSegment at run.start run.end cells.old }
    ensures { RunChanged (λ i x. two_values run.start run.end inside around i) at (at + block_size) cells.old cells.new result }
{
    let end = run.end;
    let before = change_run(cells, at..run.start, |_| around);
    let within = change_run(cells, run, |_| inside);
    let after = change_run(cells, end..at + Block::CELLS, |_| around);
    before + within + after
}

// Opens the segment for the prefix's block and paints the prefix in it, and returns how many cells of both tables differ. The first cell
// always does: it becomes a pointer.
pub fn open_and_paint(
    first: &mut [u32],
    long: &mut [u32],
    owners: &mut [u32],
    territory: Prefix,
    prefix: Prefix,
    block: usize,
    segment: usize,
    new: u32,
) -> u32
    requires openable { Openable territory prefix segment (tables_of first.old long.old owners.old) }
    requires block_of_prefix { block ≡ block_of territory prefix.address }
    ensures { left result (tables_of first.new long.new owners.new)
        ≡ leaves (λ x. repainted territory prefix (λ a. paint_cell prefix.length new) (opened_at block segment x))
        (tables_of first.old long.old owners.old) }
{
    let cell = first[block];
    let painted = paint::paint_cell(cell, new, prefix.length);
    let at = place::segment_start(segment);
    let run = place::prefix_cells(segment, prefix);
    let changed = fill_segment(long, at, run, painted, cell);
    first[block] = Cell::point_to(segment);
    owners[segment] = block as u32 + 1;
    changed + 1
}

// Closes the segment of the prefix's block, whose first cell takes `cell`, and returns how many cells of both tables differ.
pub fn close(
    first: &mut [u32],
    long: &mut [u32],
    owners: &mut [u32],
    territory: Prefix,
    prefix: Prefix,
    block: usize,
    cell: u32,
) -> u32
    requires closable { Closable territory prefix (tables_of first.old long.old owners.old) }
    requires block_of_prefix { block ≡ block_of territory prefix.address }
    ensures { left result (tables_of first.new long.new owners.new)
        ≡ leaves (closed_at block (segment_of (get_or first.old block 0)) cell) (tables_of first.old long.old owners.old) }
{
    let pointer = first[block];
    let segment = Cell::segment(pointer);
    let run = place::segment_cells(pointer);
    let changed = change_run(long, run, |_| Cell::EMPTY);
    owners[segment] = 0;
    first[block] = cell;
    changed + differ(pointer, cell)
}
