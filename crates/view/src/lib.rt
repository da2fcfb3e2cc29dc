// Look up as a view: it carries both lent tables and the territory, and answers address after address. The method takes the view apart
// and calls the look up on slices; who has slices and wants no view calls `look_in`.
#![tactic(auto)]

ghost use Rattle.std.specs.Prelude.{◌≡◌};
ghost use Rattle.lookup.specs.Lookup.{look_up, answer_of};

use ground::refusal::Refusal;
use lookup::look::Won;
use prefix::Prefix;

// Both tables, to be read only, and the territory.
#[derive(Clone, Copy)]
pub struct View<'a, 'b> {
    pub first: &'a [u32],
    pub long: &'b [u32],
    pub territory: Prefix,
}

pub fn view_of<'a, 'b>(first: &'a [u32], long: &'b [u32], territory: Prefix) -> View<'a, 'b>
    ensures { result ≡ record { first = first.entry; long = long.entry; territory = territory } }
{
    View {
        first,
        long,
        territory,
    }
}

impl<'a, 'b> View<'a, 'b> {
    // The answer to an address, as `lookup::look::look_up` gives it.
    pub fn look_up(self, address: u32) -> Result<Won, Refusal>
        ensures { answer_of result ≡ look_up self.entry.first.now self.entry.long.now self.entry.territory address }
    {
        lookup::look::look_up(self.first, self.long, self.territory, address)
    }
}

// A view is made and asked once.
pub fn look_in(first: &[u32], long: &[u32], territory: Prefix, address: u32) -> Result<Won, Refusal>
    ensures { answer_of result ≡ look_up first.now long.now territory address }
{
    view_of(first, long, territory).look_up(address)
}
