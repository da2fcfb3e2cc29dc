// Why each update is refused: the tests in their order, and the first that holds refuses.
ghost use Rattle.std.specs.Prelude.{◌≡◌, true, not, ◌&&◌, eqb};
ghost use Rattle.prefix.specs.Prefixes.{WellFormed, Encloses};
ghost use Rattle.prefix.specs.Routes.{is_route};
ghost use Rattle.cells.specs.Memory.{IsLent, held};
ghost use Rattle.ground.specs.Refusals.{code_of};
ghost use Rattle.refusals.specs.Codes.{announces, withdraws, re_homes, clear_code};
ghost use Rattle.refusals.specs.inner.Checks.{CheckedIs, Told, unless_damaged, never, TestsTell, LiveTestsTell};

use cells::lent::Lent;
use cells::segments::{free_segment, needs_segment};
use damage::blocks_sound;
use ground::refusal::Refusal;
use prefix::geometry::{Blocks, touched};
use prefix::{LAST_HOP, Prefix, Route};
use rules::form::form_of;

// What the tests found of an update that none of them refuses: how many rules are live (a count, since all lent words are written next), where
// the prefix stands among them or would stand, the blocks that it touches, and the segment that is opened for it, if one is needed.
#[derive(Clone, Copy)]
pub struct Checked {
    pub used: usize,
    pub place: Result<usize, usize>,
    pub blocks: Blocks,
    pub segment: Option<usize>,
}

// Whether refusal 2 lets a route pass.
fn is_route(route: Route) -> bool
    ensures { result ≡ is_route route }
{
    if route.hop < 1 {
        return false;
    }
    if LAST_HOP < route.hop {
        return false;
    }
    route.prefix.well_formed()
}

// Refusal 4. Past it the prefix is looked for in the list.
fn damage_tests(lent: Lent, territory: Prefix, prefix: Prefix) -> Result<Checked, Refusal>
    requires lent { IsLent territory (held lent) }
    requires well_formed { WellFormed prefix × Encloses territory prefix }
    ensures { Told territory prefix (unless_damaged territory prefix) never (held lent.entry) result }
{
    let Some(live) = form_of(lent.rules, territory) else {
        return Err(Refusal::Damage);
    };
    let blocks = touched(territory, prefix);
    if !blocks_sound(lent, live, territory, blocks) {
        return Err(Refusal::Damage);
    }
    let found = Checked {
        used: live.words.len(),
        place: live.find(prefix),
        blocks,
        segment: None,
    };
    Ok(found)
}

// Refusals 1 to 4, where `lets` says whether refusal 2 lets the numbers pass. It is asked between refusal 1 and 3, by a test that differs from
// call to call: its answer is handed in, and no value is beside it.
fn tests(lent: Lent, territory: Prefix, prefix: Prefix, lets: bool) -> Result<Checked, Refusal>
    requires { lets ≡ true → WellFormed prefix }
    ensures { TestsTell territory prefix lets (held lent.entry) result }
{
    if !lent.fits(territory) {
        return Err(Refusal::WrongSizes);
    }
    if !lets {
        return Err(Refusal::WrongNumbers);
    }
    if !territory.encloses(prefix) {
        return Err(Refusal::Outside);
    }
    damage_tests(lent, territory, prefix)
}

// Refusals 1 to 5: of an update of a live prefix. Its block has a segment, if it is longer than 24, since nothing is damaged. `lets` as in `tests`.
fn live_tests(lent: Lent, territory: Prefix, prefix: Prefix, lets: bool) -> Result<Checked, Refusal>
    requires { lets ≡ true → WellFormed prefix }
    ensures { LiveTestsTell territory prefix lets (held lent.entry) result }
{
    let checked = tests(lent, territory, prefix, lets)?;
    if checked.place.is_err() {
        return Err(Refusal::NotLive);
    }
    Ok(checked)
}

// Whether there is no room for a prefix in the list: it is not live, and each word is. Of the place and of the live words no more is asked than
// this answer and this count.
fn is_full(found: bool, used: usize, words: usize) -> bool
    ensures { result ≡ (not found && eqb used words) }
{
    !found && used == words
}

// The refusal of an announce: 1 to 4, 6 and 7.
pub fn announce_checked(lent: Lent, territory: Prefix, route: Route) -> Result<Checked, Refusal>
    ensures { CheckedIs territory (announces route) (held lent.entry) result }
{
    let checked = tests(lent, territory, route.prefix, is_route(route))?;
    if is_full(checked.place.is_ok(), checked.used, lent.rules.len()) {
        return Err(Refusal::NoRuleWord);
    }
    if !needs_segment(lent.first[checked.blocks.from], route.prefix.length) {
        return Ok(checked);
    }
    let Some(segment) = free_segment(lent.owners) else {
        return Err(Refusal::NoSegment);
    };
    Ok(Checked {
        segment: Some(segment),
        ..checked
    })
}

// The refusal of a withdrawal: 1 to 5.
pub fn withdraw_checked(lent: Lent, territory: Prefix, prefix: Prefix) -> Result<Checked, Refusal>
    ensures { CheckedIs territory (withdraws prefix) (held lent.entry) result }
{
    live_tests(lent, territory, prefix, prefix.well_formed())
}

// The refusal of a re-homing: 1 to 5.
pub fn re_home_checked(lent: Lent, territory: Prefix, route: Route) -> Result<Checked, Refusal>
    ensures { CheckedIs territory (re_homes route) (held lent.entry) result }
{
    live_tests(lent, territory, route.prefix, is_route(route))
}

// The refusal of a clear: 1.
pub fn clear_checked(lent: Lent, territory: Prefix) -> Result<(), Refusal>
    ensures { code_of result ≡ clear_code territory (held lent.entry) }
{
    if !lent.fits(territory) {
        return Err(Refusal::WrongSizes);
    }
    Ok(())
}
