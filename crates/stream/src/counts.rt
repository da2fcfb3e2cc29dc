// What the lent words count: the live prefixes, and the open segments.
ghost use Rattle.std.specs.Prelude.{◌≡◌};
ghost use Rattle.stream.specs.Stream.{used};

// A segment is open while its owner word is not 0.
#[tactic(auto, using(crate::proofs::Counting::used_counted))]
pub fn open_segments(owners: &[u32]) -> u64
    ensures { result ≡ used owners.now }
{
    owners.iter().filter(|owner| **owner != 0).count() as u64
}

// A rule word that is not 0 is a live prefix.
#[tactic(auto, using(crate::proofs::Counting::used_counted))]
pub fn live_prefixes(rules: &[u64]) -> u64
    ensures { result ≡ used rules.now }
{
    rules.iter().filter(|word| **word != 0).count() as u64
}
