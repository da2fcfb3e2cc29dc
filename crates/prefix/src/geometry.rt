// The geometry of the tables: the width of the first one, blocks, and the blocks that a prefix touches in a territory.
ghost use Rattle.std.specs.Prelude.{◌≡◌, ◌-◌, ◌^◌, ◌<◌, ◌≤◌};
ghost use Rattle.prefix.specs.Geometry.{width, block_of, block_from, block_start, touched};

use crate::{Prefix, span_of};

// An aligned run of addresses that share their first WIDTH bits: its numbers, named once here.
#[derive(Drop)]
pub struct Block {}

impl Block {
    // The first table has a cell for each run of addresses that share so many bits.
    pub const WIDTH: u32 = 24;
    // So many addresses are in a block.
    pub const SIZE: u32 = 256;
    // The same among addresses that are counted in 64 bits.
    pub const SPAN: u64 = Block::SIZE as u64;
    // So many cells are in a segment, one for each address of a block.
    pub const CELLS: usize = 256;
}

// Blocks of a territory: `count` of them, from the number `from` on. No Range, since `touched`, by which the price of an update is told, names
// the count.
#[derive(Clone, Copy)]
pub struct Blocks {
    pub from: usize,
    pub count: usize,
}

// How many blocks a prefix of this length contains.
pub fn blocks_of(length: u32) -> usize
    requires { length ≤ width }
    ensures { result ≡ 2 ^ (width - length) }
{
    (span_of(length) / Block::SPAN) as usize
}

// The number of the block that holds the address, within the territory.
pub fn block_of(territory: Prefix, address: u32) -> usize
    requires { territory.address ≤ address }
    ensures { result ≡ block_of territory address }
{
    ((address - territory.address) / Block::SIZE) as usize
}

// The same for any address, counted from the base on. One before the base comes out past every block of the territory, so one test tells
// whether it is inside.
pub fn block_from(base: u32, address: u32) -> u32
    ensures { result ≡ block_from base address }
{
    address.wrapping_sub(base) / Block::SIZE
}

// The first address of a block.
pub fn block_start(territory: Prefix, block: usize) -> u32
    requires { block_start territory block < 2 ^ 32 }
    ensures { result ≡ block_start territory block }
{
    territory.address + Block::SIZE * block as u32
}

// The blocks that the prefix touches: those that it contains, or the one that it lies in.
pub fn touched(territory: Prefix, prefix: Prefix) -> Blocks
    requires { territory.address ≤ prefix.address }
    ensures { result ≡ touched territory prefix }
{
    let from = block_of(territory, prefix.address);
    let length = prefix.length;
    if Block::WIDTH < length {
        return Blocks { from, count: 1 };
    }
    Blocks {
        from,
        count: blocks_of(length),
    }
}
