// One rule word: of the code, only this file knows the layout.
ghost use Rattle.std.specs.Prelude.{◌≡◌, ◌≤◌};
ghost use Rattle.prefix.specs.Geometry.{Territory};
ghost use Rattle.prefix.specs.Routes.{IsRoute};
ghost use Rattle.rules.specs.Words.{prefix_of, route_of, word_of, key_of, is_rule};

use prefix::{LAST_HOP, Prefix, Route, cleared};

// The kind of a rule word: its numbers and functions, on words that are plain u64. They are C's memory, so a word is taken apart here by hand.
#[derive(Drop)]
pub struct Rule {}

impl Rule {
    // A word is address * ADDRESS + length * LENGTH + hop.
    const LENGTH: u64 = 0x1_0000;

    const ADDRESS: u64 = 0x1_0000_0000;

    // The word of a route.
    pub fn pack(route: Route) -> u64
        requires { IsRoute route }
        ensures { result ≡ word_of route }
    {
        let prefix = route.prefix;
        prefix.address as u64 * Rule::ADDRESS
            + prefix.length as u64 * Rule::LENGTH
            + route.hop as u64
    }

    pub fn address(word: u64) -> u32
        ensures { result ≡ (prefix_of word).address }
    {
        (word / Rule::ADDRESS) as u32
    }

    pub fn length(word: u64) -> u32
        ensures { result ≡ (prefix_of word).length }
    {
        (word / Rule::LENGTH % Rule::LENGTH) as u32
    }

    pub fn hop(word: u64) -> u32
        ensures { result ≡ (route_of word).hop }
    {
        (word % Rule::LENGTH) as u32
    }

    pub fn prefix(word: u64) -> Prefix
        ensures { result ≡ prefix_of word }
    {
        Prefix {
            address: Rule::address(word),
            length: Rule::length(word),
        }
    }

    // The number by which words are in order: what stands before the hop.
    pub fn key(word: u64) -> u64
        ensures { result ≡ key_of (prefix_of word) }
    {
        word / Rule::LENGTH
    }

    // The same number of a prefix.
    pub fn key_of(prefix: Prefix) -> u64
        requires { prefix.length ≤ 32 }
        ensures { result ≡ key_of prefix }
    {
        prefix.address as u64 * Rule::LENGTH + prefix.length as u64
    }

    // Whether the word is a rule of the territory. It is asked of every lent word, so the masks are by shifts. That the territory is one stands in
    // the clause, here and in the three functions that pass it on: C's calls may pass any, and the sizes that are tested first say it elsewhere.
    pub fn is_rule(word: u64, territory: Prefix) -> bool
        requires { Territory territory }
        ensures { result ≡ is_rule territory word }
    {
        let hop = Rule::hop(word);
        if hop < 1 {
            return false;
        }
        if LAST_HOP < hop {
            return false;
        }
        let length = Rule::length(word);
        if 32 < length {
            return false;
        }
        if length < territory.length {
            return false;
        }
        let address = Rule::address(word);
        if cleared(address, length) != address {
            return false;
        }
        cleared(address, territory.length) == territory.address
    }
}
