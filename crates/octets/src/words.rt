// The words of octets and of cents: how many there are, and how far one may go.
use prefix::LAST_HOP;

// The kind of these words: their numbers.
#[derive(Drop)]
pub struct Words {}

impl Words {
    // One for each hop.
    pub const HOPS: usize = LAST_HOP as usize;
    // One for each hop, and word 0.
    pub const COUNT: usize = Words::HOPS + 1;
    // 2^53: up to here an f64 holds every whole number.
    pub const MOST: u64 = 9007199254740992;
}
