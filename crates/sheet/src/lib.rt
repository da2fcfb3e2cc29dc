// The cost sheet: the hops from 1 to 32,767, dearest first.
#![tactic(auto)]

ghost use Rattle.ground.specs.Refusals.{code_of};
ghost use Rattle.std.specs.Prelude.{◌≡◌, drop, length};
ghost use Rattle.prefix.specs.Routes.{last_hop};
ghost use Rattle.sheet.specs.Sheet.{Hops, within, SheetIs};

mod heap;
mod quick;

use costs::ledger::Ledger;
use ground::refusal::Refusal;
use octets::words::Words;
use prefix::LAST_HOP;

// Whether no word has passed 2^53.
fn all_within(words: &[u64]) -> bool
    ensures { result ≡ within words.now }
{
    words.iter().all(|word| *word <= Words::MOST)
}

// Whether no word from an index on has.
fn within(words: &[u64], from: usize) -> bool
    ensures { result ≡ within (drop from words.now) }
{
    match words.get(from..) {
        Some(rest) => all_within(rest),
        None => true,
    }
}

// hops[i] = i + 1
#[tactic(auto, using(crate::proofs::Counts::numbered))]
fn number(hops: &mut [u32])
    requires { length hops.old ≡ last_hop }
    ensures { Hops hops.new }
{
    for i in 0..LAST_HOP {
        hops[i as usize] = i + 1;
    }
}

// Fills the room with the hops in order of cost, or answers refusal 1, 30 or 31.
#[tactic(auto, unfolding(crate::specs::Sheet::sheet_code))]
pub fn cost_sheet(octets: &[u64], cents: &[u64], hops: &mut [u32]) -> Result<(), Refusal>
    ensures { SheetIs octets.now cents.now hops.old (code_of result) hops.new }
{
    if octets.len() != Words::COUNT || cents.len() != Words::COUNT || hops.len() != Words::HOPS {
        return Err(Refusal::WrongSizes);
    }
    if !within(octets, 0) {
        return Err(Refusal::TooManyOctets);
    }
    // Word 0 of the cents is no hop's, and is not read.
    if !within(cents, 1) {
        return Err(Refusal::TooManyCents);
    }
    let ledger = Ledger { octets, cents };
    number(hops);
    // Quick sort is the faster. Where it would go too deep, heap sort does it all, so that no words make the call slow.
    if !quick::sort(ledger, hops, 48) {
        heap::sort(ledger, hops);
    }
    Ok(())
}
