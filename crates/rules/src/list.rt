// The live words as an ordered list: a prefix found, put in and taken out.
//
// What is written takes all lent words and how many are live: the word after the live ones is written too, and lies outside a slice of them.
ghost use Rattle.std.specs.Prelude.{◌≡◌, true, false, ◌≤◌, ◌<◌, length, is_ok};
ghost use Rattle.prefix.specs.Prefixes.{WellFormed};
ghost use Rattle.prefix.specs.Routes.{IsRoute, with_route, without};
ghost use Rattle.rules.specs.Rules.{routes, words_of};
ghost use Rattle.rules.specs.inner.Places.{Listed, Bracket, PositionIs, PlaceIs, index_of, inserted_at, removed_at};

use crate::live::Live;
use crate::word::Rule;
use prefix::{Prefix, Route};

impl<'a> Live<'a> {
    // The first index whose key is at least `key`, or how many words there are, known to be in from..=to.
    fn between(self, key: u64, from: usize, to: usize) -> usize
        requires { Bracket self.words.now (length self.words.now) key from to }
        ensures { PositionIs self.entry.words.now (length self.entry.words.now) key result }
    {
        from + self.words[from..to].partition_point(|word| Rule::key(*word) < key)
    }

    // That index, of which nothing is known.
    pub fn position(self, key: u64) -> usize
        ensures { PositionIs self.entry.words.now (length self.entry.words.now) key result }
    {
        self.between(key, 0, self.words.len())
    }

    // That index, known to be `from` or before, and mostly not far: looked for backwards from there in growing strides.
    pub fn position_before(self, key: u64, from: usize) -> usize
        requires { Bracket self.words.now (length self.words.now) key 0 from }
        ensures { PositionIs self.entry.words.now (length self.entry.words.now) key result }
    {
        let mut high = from;
        let mut stride = 1;
        // No `for`: the strides grow.
        while stride <= high {
            let at = high - stride;
            if Rule::key(self.words[at]) < key {
                return self.between(key, at + 1, high);
            }
            high = at;
            stride += stride;
        }
        self.between(key, 0, high)
    }

    // Where the word of a live prefix stands, or, as an `Err`, where that of one that is not live would: the index of `position` in both cases.
    pub fn find(self, prefix: Prefix) -> Result<usize, usize>
        requires { WellFormed prefix }
        ensures { PlaceIs self.entry.words.now (length self.entry.words.now) prefix (index_of result) (is_ok result) }
    {
        let key = Rule::key_of(prefix);
        let at = self.position(key);
        if at == self.words.len() {
            return Err(at);
        }
        if Rule::key(self.words[at]) == key {
            Ok(at)
        } else {
            Err(at)
        }
    }
}

// Puts a word in at index `at`: the live words from there on move up by one.
fn insert_at(rules: &mut [u64], used: usize, at: usize, word: u64)
    requires { (at ≤ used) × (used < length rules.old) }
    ensures { rules.new ≡ inserted_at rules.old used at word }
{
    rules.copy_within(at..used, at + 1);
    rules[at] = word;
}

// Takes the word at index `at` out: the live words after it move down by one, and the last place is 0.
fn remove_at(rules: &mut [u64], used: usize, at: usize)
    requires { (at < used) × (used ≤ length rules.old) }
    ensures { rules.new ≡ removed_at rules.old used at }
{
    rules.copy_within(at + 1..used, at);
    rules[used - 1] = 0;
}

// Makes a route live, at the place that `find` answered: in the place of its word if it is live, else between the others,
// for which one word must be free.
pub fn put(rules: &mut [u64], used: usize, place: Result<usize, usize>, route: Route)
    requires listed { Listed rules.old used }
    requires place_is { PlaceIs rules.old used route.prefix (index_of place) (is_ok place) }
    requires route { IsRoute route }
    requires room { is_ok place ≡ false → used < length rules.old }
    ensures { rules.new ≡ words_of (length rules.old) (with_route route (routes rules.old)) }
{
    let word = Rule::pack(route);
    match place {
        Ok(at) => rules[at] = word,
        Err(at) => insert_at(rules, used, at, word),
    }
}

// Takes a live prefix out, at the index that `find` answered.
pub fn take_out(rules: &mut [u64], used: usize, at: usize, prefix: Prefix)
    requires listed { Listed rules.old used }
    requires well_formed { WellFormed prefix }
    requires place_is { PlaceIs rules.old used prefix at true }
    ensures { rules.new ≡ words_of (length rules.old) (without prefix (routes rules.old)) }
{
    remove_at(rules, used, at);
}
