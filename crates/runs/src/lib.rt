// The longest match of an address in the live words, with the run of addresses that share it: by a search for the address itself, and a
// step up for each rule on the way that ends before the address, each looking backwards from the last, so that no pass over the words is
// needed.
#![tactic(auto)]

ghost use Rattle.std.specs.Prelude.{◌≡◌, ◌+◌, ◌<◌, ◌≤◌, length, MatchOption};
ghost use Rattle.prefix.specs.Routes.{IsLongest};
ghost use Rattle.rules.specs.Words.{route_of, key_of};
ghost use Rattle.rules.specs.Rules.{routes};
ghost use Rattle.runs.specs.inner.Kept.{Holds, RunIs};
ghost use Rattle.runs.specs.inner.Steps.{around, CountUpTo, SharedIs, NextIs, Matchless};

use cells::cell::Cell;
use prefix::{Prefix, span_of};
use rules::live::Live;
use rules::word::Rule;

pub mod onward;

// How many addresses there are.
const ADDRESSES: u64 = 0x1_0000_0000;

// The cell of the longest match of an address, and an end past the address up to which every address has the same. For what is past the
// end: where the prefix of the match ends, and how many of the live words are up to the address.
#[derive(Clone, Copy)]
pub struct Run {
    pub cell: u32,
    pub end: u64,
    pub until: u64,
    pub at: usize,
}

// The lowest key past the prefix of this length around the address.
#[tactic(auto, using(rules::proofs::Words::key_room))]
fn key_past(address: u32, length: u32) -> u64
    requires { length ≤ 32 }
    ensures { result ≡ key_of (around length address) + 1 }
{
    let around = Prefix {
        address: prefix::cleared(address, length),
        length,
    };
    Rule::key_of(around) + 1
}

// How many leading bits the two addresses share, of fewer than `limit`.
fn shared(address: u32, other: u32, limit: u32) -> u32
    requires { (0 < limit) × (limit ≤ 32) }
    ensures { SharedIs address other limit result }
{
    (other ^ address).leading_zeros().min(limit - 1)
}

// An address among the live words, and how many of them are up to it.
#[derive(Clone, Copy)]
struct Place<'a> {
    live: Live<'a>,
    address: u32,
    at: usize,
    ghost counted: { CountUpTo live.words.now (length live.words.now) 32 address at },
}

impl<'a> Place<'a> {
    // The word of the longest match. A last word that does not contain the address leaves only the shorter prefixes that contain both it
    // and the address.
    fn climb(self) -> Option<u64>
        ensures { MatchOption result (Matchless (routes self.entry.live.words.now) self.entry.address)
            (λ word. IsLongest (routes self.entry.live.words.now) self.entry.address (route_of word)) }
    {
        let mut length = 32;
        let mut count = self.at;
        // No `for`: each turn looks at the last of fewer words.
        while let Some(word) = self.live.words[..count].last() {
            let prefix = Rule::prefix(*word);
            if prefix.contains(self.address) {
                return Some(*word);
            }
            length = shared(self.address, prefix.address, length);
            let key = key_past(self.address, length);
            count = self.live.position_before(key, count);
        }
        None
    }

    // Where the next rule starts, or the number of addresses.
    fn next(self) -> u64
        ensures { NextIs (routes self.entry.live.words.now) self.entry.address result }
    {
        match self.live.words.get(self.at) {
            Some(word) => Rule::address(*word) as u64,
            None => ADDRESSES,
        }
    }

    // The run of a cell that holds before `until`, up to the next rule.
    fn run(self, cell: u32, until: u64) -> Run
        requires { Holds self.live.words.now (length self.live.words.now) self.address cell until self.at }
        ensures { RunIs self.entry.live.words.now (length self.entry.live.words.now) self.entry.address result }
    {
        Run {
            cell,
            end: self.next().min(until),
            until,
            at: self.at,
        }
    }
}

// The longest match of an address among the live words, and its run.
pub fn longest(live: Live, address: u32) -> Run
    ensures { RunIs live.entry.words.now (length live.entry.words.now) address result }
{
    let place = Place {
        live,
        address,
        at: live.position(key_past(address, 32)),
    };
    match place.climb() {
        Some(word) => {
            let length = Rule::length(word);
            let cell = Cell::pack(Rule::hop(word), length);
            place.run(cell, Rule::address(word) as u64 + span_of(length))
        }
        None => place.run(Cell::EMPTY, ADDRESSES),
    }
}
