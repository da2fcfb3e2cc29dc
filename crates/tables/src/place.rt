// Where cells stand in the long table: a segment's, and there those of a prefix longer than 24.
ghost use Rattle.std.specs.Prelude.{◌≡◌, ◌*◌, ◌<◌, ◌≤◌};
ghost use Rattle.prefix.specs.Geometry.{width, block_size};
ghost use Rattle.cells.specs.Cells.{pointer_bit, segment_of};
ghost use Rattle.tables.specs.inner.Ranges.{SegmentRun, PrefixRun};

use cells::cell::Cell;
use prefix::geometry::Block;
use prefix::{Prefix, span_of};
use std::ops::Range;

// The index of a segment's first cell.
pub fn segment_start(segment: usize) -> usize
    requires { segment < pointer_bit }
    ensures { result ≡ segment * block_size }
{
    segment * Block::CELLS
}

// The cells of the segment that a pointer points to.
pub fn segment_cells(pointer: u32) -> Range<usize>
    requires { pointer_bit ≤ pointer }
    ensures { SegmentRun (segment_of pointer) result.start result.end }
{
    let start = segment_start(Cell::segment(pointer));
    start..start + Block::CELLS
}

// The cells of a prefix longer than 24 in a segment.
pub fn prefix_cells(segment: usize, prefix: Prefix) -> Range<usize>
    requires segment_fits { segment < pointer_bit }
    requires is_long { (width < prefix.length) × (prefix.length ≤ 32) }
    ensures { PrefixRun prefix segment result.start result.end }
{
    let start = segment_start(segment) + (prefix.address % Block::SIZE) as usize;
    start..start + span_of(prefix.length) as usize
}
