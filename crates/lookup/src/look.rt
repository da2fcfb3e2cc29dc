// Look up: the answer to an address, from the first and the long table.
ghost use Rattle.std.specs.Prelude.{◌≡◌, ℕ, ◌<◌, ◌≤◌, ◌^◌, length, map};
ghost use Rattle.std.specs.Int.{w32, from_le_bytes};
ghost use Rattle.ground.specs.Refusals.{number, code_of};
ghost use Rattle.prefix.specs.Geometry.{block_size};
ghost use Rattle.lookup.specs.Lookup.{refused, found, packed, unpacked_of, direct_or_damage, verdict_of, says_of, look_up, answer_of};
ghost use Rattle.lookup.specs.inner.Standing.{standing_by, standing_of};
ghost use Rattle.lookup.specs.inner.Outcomes.{outcome_of};

use cells::cell::Cell;
use cells::sizes::Most;
use ground::refusal::Refusal;
use prefix::Prefix;
use prefix::geometry::{Block, block_from, block_of, blocks_of};

// The prefix that won: its length and its hop.
#[derive(Clone, Copy, Debug, PartialEq, Eq)]
pub struct Won {
    pub length: u32,
    pub hop: u32,
}

// A cell as it is lent: a word, or the four bytes of one, the lowest first.
pub trait Word: Copy {
    ghost spelt: { Self → ℕ };

    fn word(self) -> u32
        ensures { result ≡ spelt self };
}

impl Word for u32 {
    ghost spelt = { λ n. n };

    fn word(self) -> u32 {
        self
    }
}

impl Word for [u8; 4] {
    ghost spelt = { from_le_bytes w32 };

    fn word(self) -> u32 {
        u32::from_le_bytes(self)
    }
}

// The kind of an answer as one number, code * CODE + length * LENGTH + hop: no other file knows how it is made. It is what C gets, and what is
// handed on inside too: with a Result there, and the number made at the edge, a model of it took 11.3 ns for 8.7.
#[derive(Drop)]
pub struct Packed {}

impl Packed {
    // What one more in the length adds, which is more than any hop.
    const LENGTH: u32 = 65536;
    // More than any length.
    const LENGTHS: u32 = 64;
    // What one more in the code adds.
    const CODE: u32 = Packed::LENGTHS * Packed::LENGTH;

    pub fn refused(refusal: Refusal) -> u32
        ensures { result ≡ packed (refused (number refusal)) }
    {
        u32::from(refusal) * Packed::CODE
    }

    // The prefix that won.
    fn found(length: u32, hop: u32) -> u32
        requires { (length < 2 ^ 6) × (hop < 2 ^ 16) }
        ensures { result ≡ packed (found length hop) }
    {
        length * Packed::LENGTH + hop
    }

    // The number of a refusal in a number, or 0.
    pub fn code(number: u32) -> u32
        ensures { result ≡ (unpacked_of number).code }
    {
        number / Packed::CODE
    }

    // The length in a number; that of a refusal is 0.
    pub fn length(number: u32) -> u32
        ensures { result ≡ (unpacked_of number).length }
    {
        number / Packed::LENGTH % Packed::LENGTHS
    }

    // The hop in a number; that of a refusal is 0.
    pub fn hop(number: u32) -> u32
        ensures { result ≡ (unpacked_of number).hop }
    {
        number % Packed::LENGTH
    }

    // What a number tells; look up refuses with no number beside these.
    #[tactic(auto, unfolding(crate::specs::inner::Outcomes::outcome_of, crate::specs::inner::Outcomes::outcome_by))]
    pub fn unpack(number: u32) -> Result<Won, Refusal>
        ensures { result ≡ outcome_of number }
    {
        match Packed::code(number) {
            0 => Ok(Won {
                length: Packed::length(number),
                hop: Packed::hop(number),
            }),
            1 => Err(Refusal::WrongSizes),
            3 => Err(Refusal::Outside),
            8 => Err(Refusal::NoRoute),
            _ => Err(Refusal::Damage),
        }
    }
}

// Refuses what is lent wrongly, and an address that is not in the territory. The tables are counted in cells, unit 1, or in bytes, unit 4: a
// table that is no whole number of cells has no right number of bytes.
#[tactic(auto, using(crate::proofs::Reading::inside_test), unfolding(crate::specs::inner::Standing::standing_by, crate::specs::inner::Standing::lent_by, prefix::specs::Geometry::is_territory))]
pub fn standing(
    unit: usize,
    first: usize,
    long: usize,
    territory: Prefix,
    address: u32,
) -> Result<(), Refusal>
    requires { (0 < unit) × (unit ≤ 4) }
    ensures { code_of result ≡ standing_by unit first long territory address }
{
    if !territory.is_territory() || unit * Most::LONG < long {
        return Err(Refusal::WrongSizes);
    }
    let blocks = blocks_of(territory.length);
    if first != unit * blocks || long % (unit * Block::CELLS) != 0 {
        return Err(Refusal::WrongSizes);
    }
    if blocks <= block_from(territory.address, address) as usize {
        return Err(Refusal::Outside);
    }
    Ok(())
}

// The same of tables that are counted in cells, as look up reads them.
#[tactic(auto, using(crate::proofs::Reading::in_cells))]
pub fn standing_in_cells(
    first: usize,
    long: usize,
    territory: Prefix,
    address: u32,
) -> Result<(), Refusal>
    ensures { code_of result ≡ standing_of first long territory address }
{
    standing(1, first, long, territory, address)
}

// The length and the hop of a direct cell, or refusal 4, as one number.
#[tactic(auto, unfolding(cells::specs::Cells::is_direct))]
fn direct_or_damage(cell: u32, longest: u32) -> u32
    ensures { result ≡ packed (direct_or_damage longest cell) }
{
    if Cell::is_direct(cell, longest) {
        return Packed::found(Cell::length(cell), Cell::hop(cell));
    }
    Packed::refused(Refusal::Damage)
}

// What a deciding cell says, as one number. Whether it is 0 is asked last, so that the answer is selected and not jumped to: no
// processor foresees whether the next address has a route.
#[tactic(auto, unfolding(crate::specs::Lookup::verdict_of))]
pub fn verdict(cell: u32, longest: u32) -> u32
    ensures { result ≡ packed (verdict_of longest cell) }
{
    let number = direct_or_damage(cell, longest);
    if cell == Cell::EMPTY {
        Packed::refused(Refusal::NoRoute)
    } else {
        number
    }
}

// What a cell of the first table says for an address whose last eight bits are low, as one number.
#[tactic(auto, unfolding(crate::specs::Lookup::says_of))]
pub fn says<W: Word>(long: &[W], low: usize, cell: u32) -> u32
    requires { low < block_size }
    ensures { result ≡ packed (says_of (map W.spelt long.now) low cell) }
{
    if !Cell::is_pointer(cell) {
        return verdict(cell, Block::WIDTH);
    }
    let segment = Cell::segment(cell);
    if long.len() / Block::CELLS <= segment {
        return Packed::refused(Refusal::Damage);
    }
    verdict(long[segment * Block::CELLS + low].word(), 32)
}

// The answer as one number, where nothing refuses what is lent. It reads just the one or two cells that decide.
#[tactic(auto, using(crate::proofs::Reading::reads_past, crate::proofs::Reading::reads_block, crate::proofs::Reading::reads))]
pub(crate) fn read<W: Word>(first: &[W], long: &[W], territory: Prefix, address: u32) -> u32
    requires { standing_of (length first.now) (length long.now) territory address ≡ 0 }
    ensures { result ≡ packed (look_up (map W.spelt first.now) (map W.spelt long.now) territory address) }
{
    let cell = first[block_of(territory, address)].word();
    says(long, (address % Block::SIZE) as usize, cell)
}

// The answer as one number.
#[tactic(auto, using(crate::proofs::Reading::refuses))]
pub fn answer<W: Word>(first: &[W], long: &[W], territory: Prefix, address: u32) -> u32
    ensures { result ≡ packed (look_up (map W.spelt first.now) (map W.spelt long.now) territory address) }
{
    if let Err(refusal) = standing_in_cells(first.len(), long.len(), territory, address) {
        return Packed::refused(refusal);
    }
    read(first, long, territory, address)
}

// The answer to an address: the length and the hop of the deciding cell, or refusal 1, 3, 4 or 8.
#[tactic(auto, using(crate::proofs::Answers::told_outcome))]
pub fn look_up(first: &[u32], long: &[u32], territory: Prefix, address: u32) -> Result<Won, Refusal>
    ensures { answer_of result ≡ look_up first.now long.now territory address }
{
    Packed::unpack(answer(first, long, territory, address))
}
