// The words that the sheet is made of, past its tests: each hop's octets and cents.
ghost use Rattle.std.specs.Prelude.{◌≡◌, ◌<◌};
ghost use Rattle.octets.specs.Words.{word_count};
ghost use Rattle.costs.specs.Ranks.{Sound, before};
ghost use Rattle.costs.specs.inner.Entries.{EntryOf};

use crate::order::Entry;

#[derive(Clone, Copy)]
pub struct Ledger<'a> {
    pub octets: &'a [u64],
    pub cents: &'a [u64],
    ghost sound: { Sound octets.now cents.now },
}

impl<'a> Ledger<'a> {
    // A hop with its two words.
    pub fn entry(self, hop: u32) -> Entry
        requires is_hop { (0 < hop) × (hop < word_count) }
        ensures hop { result.hop ≡ hop }
        ensures words { EntryOf self.entry.octets.now self.entry.cents.now result }
    {
        let word = hop as usize;
        Entry {
            hop,
            octets: self.octets[word],
            cents: self.cents[word],
        }
    }

    // Whether hop a ranks before the hop of b, whose two words are at hand.
    #[tactic(auto, using(crate::proofs::Costs::by_entries))]
    pub fn ranks_before_entry(self, a: u32, b: Entry) -> bool
        requires is_hop { (0 < a) × (a < word_count) }
        requires entry_of_b { EntryOf self.octets.now self.cents.now b }
        ensures { result ≡ before self.entry.octets.now self.entry.cents.now a b.hop }
    {
        self.entry(a).ranks_before(b)
    }

    // Whether hop a ranks before hop b.
    pub fn ranks_before(self, a: u32, b: u32) -> bool
        requires are_hops { ((0 < a) × (a < word_count)) × ((0 < b) × (b < word_count)) }
        ensures { result ≡ before self.entry.octets.now self.entry.cents.now a b }
    {
        self.ranks_before_entry(a, self.entry(b))
    }
}
