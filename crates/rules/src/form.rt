// The form of the lent words: rules of the territory first, in order, and 0 after them.
ghost use Rattle.std.specs.Prelude.{◌≡◌, false, ◌&&◌, leb, ◌==◌, MatchOption};
ghost use Rattle.std.specs.List.{list_all};
ghost use Rattle.prefix.specs.Geometry.{Territory};
ghost use Rattle.rules.specs.Words.{prefix_of, key_of, is_rule};
ghost use Rattle.rules.specs.Rules.{formed};
ghost use Rattle.rules.specs.inner.Form.{CountIs, LiveFront};

use crate::live::Live;
use crate::word::Rule;
use prefix::Prefix;

// Whether the word is a rule of the territory and its key is at least `low`.
fn is_next(word: u64, low: u64, territory: Prefix) -> bool
    requires { Territory territory }
    ensures { result ≡ leb low (key_of (prefix_of word)) && is_rule territory word }
{
    if Rule::key(word) < low {
        return false;
    }
    Rule::is_rule(word, territory)
}

// How many words from the front are rules of the territory whose keys ascend. Before each word, `low` is just above the keys so far.
fn rules_in_order(rules: &[u64], territory: Prefix) -> usize
    requires { Territory territory }
    ensures { CountIs territory rules.now result }
{
    let mut low: u64 = 0;
    for (i, word) in rules.iter().enumerate() {
        if !is_next(*word, low, territory) {
            return i;
        }
        low = Rule::key(*word) + 1;
    }
    rules.len()
}

// Whether every word is 0.
fn all_zero(words: &[u64]) -> bool
    ensures { result ≡ list_all (λ word. word == 0) words.now }
{
    words.iter().all(|word| *word == 0)
}

// The live words, if the lent ones have their form. One pass over them: a word of 0 is no rule, so the rules in order are the live words
// exactly if all after them are 0.
pub fn form_of<'a>(rules: &'a [u64], territory: Prefix) -> Option<Live<'a>>
    requires { Territory territory }
    ensures { MatchOption result (formed territory rules.now ≡ false) (λ live. LiveFront territory rules.now live.words.now) }
{
    let used = rules_in_order(rules, territory);
    if !all_zero(&rules[used..]) {
        return None;
    }
    Some(Live {
        words: &rules[..used],
    })
}
