// From a run to that of a later address. Past a run's end mostly the match that covered the rules there simply holds again: those that
// started since are skipped if they ended too, and only where one has not is the longest match searched for.
ghost use Rattle.std.specs.Prelude.{IfSome, length};
ghost use Rattle.runs.specs.inner.Kept.{Started, Covers, RunIs};
ghost use Rattle.runs.specs.inner.Steps.{SkippedIs};

use crate::{Place, Run, longest};
use rules::live::Live;
use rules::word::Rule;

// How many of the live words start at the address or before, if none of those from index `from` on contains it.
fn skip_ended(live: Live, from: usize, address: u32) -> Option<usize>
    requires { Started live.words.now (length live.words.now) address from }
    ensures { IfSome result (λ at. SkippedIs live.entry.words.now (length live.entry.words.now) address from at) }
{
    let words = live.words;
    // By index, since it is the answer.
    for i in from..words.len() {
        let prefix = Rule::prefix(words[i]);
        if address < prefix.address {
            return Some(i);
        }
        if prefix.contains(address) {
            return None;
        }
    }
    Some(words.len())
}

impl Run {
    // The longest match of a later address and its run: the cell holds again if its prefix reaches the address and no rule that started
    // since contains it.
    pub fn asked(self, live: Live, address: u32) -> Run
        requires { Covers live.words.now (length live.words.now) address self.cell self.until self.at }
        ensures { RunIs live.entry.words.now (length live.entry.words.now) address result }
    {
        if self.until <= address as u64 {
            return longest(live, address);
        }
        match skip_ended(live, self.at, address) {
            Some(at) => Place { live, address, at }.run(self.cell, self.until),
            None => longest(live, address),
        }
    }
}
