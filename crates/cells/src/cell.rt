// The cell kind: its fixed numbers, named once here, and what a word of the tables holds.
ghost use Rattle.std.specs.Prelude.{◌≡◌, ◌<◌, ◌≤◌};
ghost use Rattle.prefix.specs.Routes.{last_hop};
ghost use Rattle.cells.specs.Cells.{pack, hop_of, length_of, is_direct, pointer_bit, point_to, is_pointer, segment_of};

use prefix::LAST_HOP;

// The kind of a table's words: its numbers and functions, on words that are plain u32. They are C's memory, so a word is taken apart here by
// hand; the paper asks for this type.
#[derive(Drop)]
pub struct Cell {}

impl Cell {
    // No route.
    pub const EMPTY: u32 = 0;
    // A direct cell is hop * RADIX + length.
    pub const RADIX: u32 = 64;
    // A pointer is POINTER + a segment's number: any word from here up, in the first table only.
    pub const POINTER: u32 = 0x8000_0000;

    // The direct cell of a hop and a length.
    pub fn pack(hop: u32, length: u32) -> u32
        requires { (hop ≤ last_hop) × (length ≤ 32) }
        ensures { result ≡ pack hop length }
    {
        hop * Cell::RADIX + length
    }

    pub fn hop(cell: u32) -> u32
        ensures { result ≡ hop_of cell }
    {
        cell / Cell::RADIX
    }

    pub fn length(cell: u32) -> u32
        ensures { result ≡ length_of cell }
    {
        cell % Cell::RADIX
    }

    // Whether the word is a direct cell of a table whose prefixes are at most `longest` long: 24 in the first table, 32 in the long one.
    pub fn is_direct(cell: u32, longest: u32) -> bool
        ensures { result ≡ is_direct longest cell }
    {
        let hop = Cell::hop(cell);
        if hop < 1 {
            return false;
        }
        if LAST_HOP < hop {
            return false;
        }
        Cell::length(cell) <= longest
    }

    pub fn is_pointer(cell: u32) -> bool
        ensures { result ≡ is_pointer cell }
    {
        Cell::POINTER <= cell
    }

    // The number of the segment that a pointer points to.
    pub fn segment(cell: u32) -> usize
        requires { pointer_bit ≤ cell }
        ensures { result ≡ segment_of cell }
    {
        (cell - Cell::POINTER) as usize
    }

    // The pointer to a segment: one number with a bound, where it is added.
    pub fn point_to(segment: usize) -> u32
        requires { segment < pointer_bit }
        ensures { result ≡ point_to segment }
    {
        Cell::POINTER + segment as u32
    }
}
