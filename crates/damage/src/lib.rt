// Damage, refusal 4 of an update: one walk along the blocks that the prefix touches and the rules that lie in them.
#![tactic(auto)]

ghost use Rattle.std.specs.Prelude.{◌≡◌, ◌+◌, ◌*◌, ◌^◌, ◌<◌, length};
ghost use Rattle.prefix.specs.Geometry.{width, block_size};
ghost use Rattle.rules.specs.Rules.{routes};
ghost use Rattle.cells.specs.Memory.{Sized, held};
ghost use Rattle.damage.specs.Damage.{is_clean, segment_sound, sound_by};
ghost use Rattle.damage.specs.inner.Walk.{clean_run, sound_run, BlocksLent, MayWalk};

use cells::cell::Cell;
use cells::lent::Lent;
use prefix::Prefix;
use prefix::geometry::{Block, Blocks, block_start};
use rules::live::Live;

// Whether the cell is 0 or direct, with a length of at most `longest`.
fn is_clean(cell: u32, longest: u32) -> bool
    ensures { result ≡ is_clean longest cell }
{
    if cell == Cell::EMPTY {
        return true;
    }
    Cell::is_direct(cell, longest)
}

// Whether each of the cells is. An update over many blocks spends its time here, so there is no early way out: the loop has no jump on
// what was loaded, and several cells are tested at once.
fn all_clean(cells: &[u32], longest: u32) -> bool
    ensures { result ≡ clean_run longest cells.now 0 (length cells.now) }
{
    let mut clean = true;
    for cell in cells {
        clean = clean & is_clean(*cell, longest);
    }
    clean
}

// Whether the segment is lent, the block owns it, and each of its cells is 0 or direct.
fn segment_sound(lent: Lent, block: usize, segment: usize) -> bool
    requires { (length lent.long.now ≡ block_size * length lent.owners.now) × (block < 2 ^ width) }
    ensures { result ≡ segment_sound (held lent.entry).tables block segment }
{
    if lent.owners.len() <= segment {
        return false;
    }
    if lent.owners[segment] as usize != block + 1 {
        return false;
    }
    let from = segment * Block::CELLS;
    all_clean(&lent.long[from..from + Block::CELLS], 32)
}

// Whether the block is sound, where `opened` says that a live prefix longer than 24 lies in it: an answer that is handed on, with no value
// beside it.
fn block_sound(lent: Lent, block: usize, opened: bool) -> bool
    requires { (length lent.long.now ≡ block_size * length lent.owners.now) × (block < 2 ^ width) × (block < length lent.first.now) }
    ensures { result ≡ sound_by (held lent.entry).tables block opened }
{
    let cell = lent.first[block];
    if !Cell::is_pointer(cell) {
        if opened {
            return false;
        }
        return is_clean(cell, Block::WIDTH);
    }
    if !opened {
        return false;
    }
    segment_sound(lent, block, Cell::segment(cell))
}

// Whether each of the blocks is sound; the cursor stands where the first of them starts. A turn goes along the blocks up to that of the
// next rule, which are closed, and over that one.
fn walk(lent: Lent, live: Live, territory: Prefix, blocks: Blocks, at: usize) -> bool
    requires { MayWalk territory blocks (held lent).tables live.words.now (length live.words.now) at }
    ensures { result ≡ sound_run territory blocks (routes live.entry.words.now) (held lent.entry).tables }
{
    let end = blocks.from + blocks.count;
    let mut block = blocks.from;
    let mut here = at;
    // A turn goes on by as many blocks as it found closed, and by one.
    while block < end {
        let start = block_start(territory, block);
        let closed = live.stretch(here, start as u64, end - block);
        let stop = block + closed;
        if !all_clean(&lent.first[block..stop], Block::WIDTH) {
            return false;
        }
        if stop == end {
            return true;
        }
        let next = block_start(territory, stop);
        let cursor = live.pass(here, next as u64);
        if !block_sound(lent, stop, cursor.opened) {
            return false;
        }
        here = cursor.at;
        block = stop + 1;
    }
    true
}

// Whether each of the blocks is sound: the cursor is set where the first of them starts, and the walk does the rest.
pub fn blocks_sound(lent: Lent, live: Live, territory: Prefix, blocks: Blocks) -> bool
    requires { Sized territory (held lent).tables × BlocksLent blocks (held lent).tables }
    ensures { result ≡ sound_run territory blocks (routes live.entry.words.now) (held lent.entry).tables }
{
    let start = block_start(territory, blocks.from);
    walk(lent, live, territory, blocks, live.cursor_at(start))
}
