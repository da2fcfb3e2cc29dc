// Which of two lines of the sheet goes before the other.
ghost use Rattle.std.specs.Prelude.{◌≡◌, ◌<◌, ◌≤◌};
ghost use Rattle.octets.specs.Words.{most, word_count};
ghost use Rattle.costs.specs.Lines.{rate_of};
ghost use Rattle.costs.specs.Ranks.{class_of, tie_broken, ahead};
ghost use Rattle.costs.specs.inner.Classes.{number};

use crate::line::rate;

// The classes of lines, as they follow one another.
#[derive(Clone, Copy, PartialEq, Eq, PartialOrd, Ord)]
enum Class {
    // Cents without octets.
    CentsAlone,
    Traffic,
    Nothing,
}

// A hop with its two words.
#[derive(Clone, Copy)]
pub struct Entry {
    pub hop: u32,
    pub octets: u64,
    pub cents: u64,
    ghost is_hop: { (0 < hop) × (hop < word_count) },
    ghost small: { (octets ≤ most) × (cents ≤ most) },
}

// Whether a goes before b, where `there` says that cost alone puts it there, and `back` that it puts b before a: a tie goes to the lower number.
// By an Ordering in the place of the two, the sheet took 1.03 to 1.8 times as long.
#[tactic(auto, unfolding(crate::specs::Ranks::tie_broken))]
fn tie_broken(there: bool, back: bool, a: u32, b: u32) -> bool
    ensures { result ≡ tie_broken there back a b }
{
    if there {
        return true;
    }
    if back {
        return false;
    }
    a < b
}

impl Entry {
    #[tactic(auto, unfolding(crate::specs::Ranks::class_of))]
    fn class(self) -> Class
        ensures { number result ≡ class_of self.octets self.cents }
    {
        if self.octets != 0 {
            return Class::Traffic;
        }
        if self.cents != 0 {
            return Class::CentsAlone;
        }
        Class::Nothing
    }

    fn rate(self) -> f64
        ensures { result ≡ rate_of self.octets self.cents }
    {
        rate(self.octets, self.cents)
    }

    // Whether this line goes before the other: at equal cost the lower number does.
    #[tactic(auto, unfolding(crate::specs::Ranks::tie_broken, crate::specs::Ranks::ahead, crate::specs::Ranks::class_of, crate::specs::Ranks::dearer))]
    pub(crate) fn ranks_before(self, other: Entry) -> bool
        ensures { result
            ≡ tie_broken (ahead self.octets self.cents other.octets other.cents)
            (ahead other.octets other.cents self.octets self.cents) self.hop other.hop }
    {
        match (self.class(), other.class()) {
            (Class::Traffic, Class::Traffic) => {
                let (rate, other_rate) = (self.rate(), other.rate());
                tie_broken(other_rate < rate, rate < other_rate, self.hop, other.hop)
            }
            (Class::CentsAlone, Class::CentsAlone) | (Class::Nothing, Class::Nothing) => {
                tie_broken(
                    other.cents < self.cents,
                    self.cents < other.cents,
                    self.hop,
                    other.hop,
                )
            }
            (class, other_class) => class < other_class,
        }
    }
}
