// Withdrawal's repaint: each cell of a prefix with exactly its length takes the longest match of the rules that are left. That match is kept
// with the run of addresses that share it, so that the rules are asked again only past the run's end. Cells that stay are passed over
// first; those from there up to the run's end then take its cell in a loop that asks nothing.
#![tactic(auto)]

ghost use Rattle.std.specs.Prelude.{◌≡◌, ℕ, Bool, true, ◌+◌, ◌-◌, ◌^◌, ◌≤◌, ◌<◌, All, IfSome, MatchOption, length};
ghost use Rattle.prefix.specs.Geometry.{block_size, block_start, touched};
ghost use Rattle.cells.specs.Cells.{pointer_bit};
ghost use Rattle.cells.specs.Memory.{tables_of};
ghost use Rattle.rules.specs.Rules.{routes};
ghost use Rattle.tables.specs.Cellwise.{unpaint_cell, repainted};
ghost use Rattle.tables.specs.Changes.{left, leaves};
ghost use Rattle.tables.specs.inner.Ready.{Repaintable};
ghost use Rattle.tables.specs.inner.Ranges.{Within, BlocksReady};
ghost use Rattle.unpaint.specs.inner.Unpaint.{KeptAt, Found, stays, passed, replaced, Inside, Pass, Closed, PieceIs};
ghost use Rattle.unpaint.specs.inner.Unpaint.{RunUnpainted, BlocksUnpainted, SomeUnpainted};

use cells::cell::Cell;
use prefix::Prefix;
use prefix::geometry::{Block, Blocks, block_start};
use rules::live::Live;
use runs::Run;
use std::ops::Range;
use tables::change::change_run;
use tables::place;

// So many cells are passed over at once. With 64 a withdrawal took up to 1.13 of its time where runs of one cell are passed over.
const STRIDE: usize = 16;

// Whether a withdrawal of a prefix of this length leaves the cell.
#[tactic(auto, unfolding(crate::specs::inner::Unpaint::stays))]
fn stays(cell: u32, length: u32) -> bool
    ensures { result ≡ stays length cell }
{
    let own = Cell::length(cell);
    own != length || cell == Cell::EMPTY
}

// The new cell in the place of one that does not stay.
#[tactic(auto, unfolding(crate::specs::inner::Unpaint::replaced))]
fn replaced(old: u32, new: u32, length: u32) -> u32
    ensures { result ≡ replaced length new old }
{
    if stays(old, length) { old } else { new }
}

// Whether each of the cells passes the test. It looks at each, so that nothing waits for what was read and several are tested at once.
fn all_pass<F: Fn(u32) -> bool>(cells: &[u32], passes: F) -> bool
    requires { F.IsAlwaysCallable passes }
    ensures { (test : ℕ → Bool) → ((x : ℕ) (y : Bool) → F.post passes x y → y ≡ test x)
        → result ≡ true → Pass test 0 (length cells.now) cells.now }
{
    let mut all = true;
    for cell in cells {
        all = all & passes(*cell);
    }
    all
}

// Passes over those of the cells from..to that pass the test, up to the first that does not: by strides of which each cell passes, and then
// one by one. It stays a call, so that its loops count nothing but cells. One by one alone, a withdrawal took 1.5 to 2.1 times as long where
// two thirds of the cells or all are passed over.
#[inline(never)]
fn pass_over<F: Fn(u32) -> bool>(cells: &[u32], from: usize, to: usize, passes: F) -> Option<usize>
    requires inside { Inside from to cells.now }
    requires callable { F.IsAlwaysCallable passes }
    ensures found { IfSome result (λ at. (from ≤ at) × (at < to)) }
    ensures passed { (test : ℕ → Bool) → ((x : ℕ) (y : Bool) → F.post passes x y → y ≡ test x)
        → MatchOption result (Pass test from to cells.now) (λ at. Pass test from at cells.now) }
{
    let mut next = from;
    // No `for`: it ends at the first stride in which a cell does not pass.
    while STRIDE <= to - next && all_pass(&cells[next..next + STRIDE], &passes) {
        next += STRIDE;
    }
    for i in next..to {
        if !passes(cells[i]) {
            return Some(i);
        }
    }
    None
}

// Whether the block of this first cell is passed over: it is no pointer, and stays. Both are asked of each cell, so that a stride has no jump.
#[tactic(auto, unfolding(crate::specs::inner::Unpaint::passed))]
fn passed(cell: u32, length: u32) -> bool
    ensures { result ≡ passed length cell }
{
    !Cell::is_pointer(cell) & stays(cell, length)
}

// Whether none of these first cells is a pointer. It looks at each, so that nothing waits for what was read.
fn none_open(first: &[u32]) -> bool
    requires { length first.now ≤ block_size }
    ensures { result ≡ true → All (λ cell. cell < pointer_bit) first.now }
{
    first.iter().map(|cell| cell / Cell::POINTER).sum::<u32>() == 0
}

// Where a piece of the blocks block..to ends that takes one cell: all its blocks start within `room` addresses, and no first cell in it is
// a pointer. The first one is none; in sound memory no other is, since no rule starts in a block that lies whole in a run.
fn piece(first: &[u32], block: usize, to: usize, room: u64) -> usize
    requires inside { Inside block to first.now }
    requires some_blocks { (block < to) × (0 < room) }
    requires closed { Closed block (block + 1) first.now }
    ensures { PieceIs room block to first.now result }
{
    let whole = (room / Block::SPAN).max(1) as usize;
    let stop = block + Block::CELLS.min(to - block).min(whole);
    if none_open(&first[block..stop]) {
        return stop;
    }
    block + 1
}

// A withdrawal of a prefix of this length, and the rules that are left. Its functions repaint a part of the tables each, and go on from the
// run that they are lent.
#[derive(Clone, Copy)]
struct Withdrawal<'a> {
    live: Live<'a>,
    length: u32,
}

impl<'a> Withdrawal<'a> {
    // Goes on to the run of the address: past the end of the one that is kept it is the next.
    fn go_on(self, address: u32, run: &mut Run)
        requires { KeptAt self.live.words.now address run.old }
        ensures { Found self.entry.live.words.now address run.new }
    {
        if run.end <= address as u64 {
            *run = run.asked(self.live, address);
        }
    }

    // Repaints a part of the cells, those of the addresses from `start` on.
    fn unpaint_run(self, cells: &mut [u32], part: Range<usize>, start: u32, run: &mut Run) -> u32
        requires within { Within part.start part.end cells.old }
        requires in_range { start + (part.end - part.start) ≤ 2 ^ 32 }
        requires kept { KeptAt self.live.words.now start run.old }
        ensures { RunUnpainted self.entry.length self.entry.live.words.now start part.start part.end
            cells.old cells.new result run.new }
    {
        let length = self.length;
        let mut changed = 0;
        let mut next = part.start;
        // No `for`: a turn goes on by as many cells as it changed.
        while let Some(i) = pass_over(cells, next, part.end, move |cell| stays(cell, length)) {
            let address = start + (i - part.start) as u32;
            self.go_on(address, run);
            let end = i + (part.end - i).min((run.end - address as u64) as usize);
            let new = run.cell;
            changed += change_run(cells, i..end, move |old| replaced(old, new, length));
            next = end;
        }
        changed
    }

    // Repaints the first of the blocks block..to: the segment that its first cell points to, or else that cell and those after it that take
    // the same. It also returns where the blocks end that it has repainted.
    fn unpaint_some(
        self,
        first: &mut [u32],
        long: &mut [u32],
        owners: &[u32],
        territory: Prefix,
        block: usize,
        to: usize,
        run: &mut Run,
    ) -> (u32, usize)
        requires blocks_ready { BlocksReady territory block to (tables_of first.old long.old owners.now) }
        requires some_blocks { block < to }
        requires kept { KeptAt self.live.words.now (block_start territory block) run.old }
        ensures { SomeUnpainted territory self.entry.length self.entry.live.words.now block to (tables_of first.old long.old owners.now)
            first.new long.new result.0 run.new result.1 }
    {
        let start = block_start(territory, block);
        let cell = first[block];
        if Cell::is_pointer(cell) {
            let part = place::segment_cells(cell);
            let changed = self.unpaint_run(long, part, start, run);
            return (changed, block + 1);
        }
        self.go_on(start, run);
        let stop = piece(first, block, to, run.end - start as u64);
        let new = run.cell;
        let length = self.length;
        let changed = change_run(first, block..stop, move |old| replaced(old, new, length));
        (changed, stop)
    }

    // Repaints the blocks from..to: two numbers here, in `pass_over` and in `piece`, as in `tables::paint`.
    fn unpaint_blocks(
        self,
        first: &mut [u32],
        long: &mut [u32],
        owners: &[u32],
        territory: Prefix,
        from: usize,
        to: usize,
        run: &mut Run,
    ) -> u32
        requires blocks_ready { BlocksReady territory from to (tables_of first.old long.old owners.now) }
        requires kept { KeptAt self.live.words.now (block_start territory from) run.old }
        ensures { BlocksUnpainted territory self.entry.length self.entry.live.words.now from to (tables_of first.old long.old owners.now)
            first.new long.new result run.new }
    {
        let length = self.length;
        let mut changed = 0;
        let mut next = from;
        // No `for`: a turn goes on by as many blocks as it changed.
        while let Some(block) = pass_over(first, next, to, move |cell| passed(cell, length)) {
            let (some, stop) = self.unpaint_some(first, long, owners, territory, block, to, run);
            changed += some;
            next = stop;
        }
        changed
    }
}

// Repaints each cell in the prefix, direct or in an open segment, and returns how many cells of both tables differ. The rules are those
// that are left: the prefix is no longer among them.
pub fn unpaint(
    first: &mut [u32],
    long: &mut [u32],
    owners: &[u32],
    live: Live,
    territory: Prefix,
    prefix: Prefix,
    blocks: Blocks,
) -> u32
    requires repaintable { Repaintable territory prefix (tables_of first.old long.old owners.now) }
    requires touched_blocks { blocks ≡ touched territory prefix }
    ensures { left result (tables_of first.new long.new owners.now)
        ≡ leaves (repainted territory prefix (unpaint_cell prefix.length (routes live.entry.words.now)))
        (tables_of first.old long.old owners.now) }
{
    let withdrawal = Withdrawal {
        live,
        length: prefix.length,
    };
    let block = blocks.from;
    // The loops only go on from this run, so that the search stays a call in them.
    let mut run = runs::longest(live, prefix.address);
    if prefix.length <= Block::WIDTH {
        let to = block + blocks.count;
        return withdrawal.unpaint_blocks(first, long, owners, territory, block, to, &mut run);
    }
    let part = place::prefix_cells(Cell::segment(first[block]), prefix);
    withdrawal.unpaint_run(long, part, prefix.address, &mut run)
}
