// Which rules lie in a block: where they stand among the live words, and whether one of them opens it.
ghost use Rattle.std.specs.Prelude.{◌≡◌, ◌%◌, ◌^◌, ◌<◌, length};
ghost use Rattle.prefix.specs.Geometry.{block_size};
ghost use Rattle.prefix.specs.Price.{is_open};
ghost use Rattle.rules.specs.Rules.{routes};
ghost use Rattle.rules.specs.inner.Blocks.{CursorAt, StretchIs, PassedIs};

use crate::live::Live;
use crate::word::Rule;
use prefix::Prefix;
use prefix::geometry::Block;

// A place among the live words, and whether a rule longer than a block was passed on the way to it. Both always hold: neither says whether the
// other is meant, so that an Option would say less.
#[derive(Clone, Copy)]
pub struct Cursor {
    pub at: usize,
    pub opened: bool,
}

impl<'a> Live<'a> {
    // Where the cursor stands at an address: at the first rule that starts there or later.
    pub fn cursor_at(self, address: u32) -> usize
        ensures { CursorAt self.entry.words.now (length self.entry.words.now) address result }
    {
        self.position(Rule::key_of(Prefix { address, length: 0 }))
    }

    // Past the rules of the block that starts at the address `start`. The cursor stands at the first of them.
    pub fn pass(self, at: usize, start: u64) -> Cursor
        requires cursor_at { CursorAt self.words.now (length self.words.now) start at }
        requires aligned { (start % block_size ≡ 0) × (start < 2 ^ 63) }
        ensures { PassedIs self.entry.words.now (length self.entry.words.now) start result.at result.opened }
    {
        let words = self.words;
        let mut opened = false;
        // By index, since it is the answer.
        for i in at..words.len() {
            let word = words[i];
            if start + Block::SPAN <= Rule::address(word) as u64 {
                return Cursor { at: i, opened };
            }
            opened = opened | (Block::WIDTH < Rule::length(word));
        }
        Cursor {
            at: words.len(),
            opened,
        }
    }

    // How many of the `left` blocks from the address `start` on come before the next rule's. The cursor stands at that rule.
    pub fn stretch(self, at: usize, start: u64, left: usize) -> usize
        requires { CursorAt self.words.now (length self.words.now) start at }
        ensures { StretchIs self.entry.words.now (length self.entry.words.now) at start left result }
    {
        if at == self.words.len() {
            return left;
        }
        let ahead = ((Rule::address(self.words[at]) as u64 - start) / Block::SPAN) as usize;
        ahead.min(left)
    }

    // Whether a live prefix longer than a block lies in the one that starts at this address.
    pub fn is_open(self, start: u32) -> bool
        requires { start % block_size ≡ 0 }
        ensures { result ≡ is_open (routes self.entry.words.now) start }
    {
        self.pass(self.cursor_at(start), start as u64).opened
    }
}
