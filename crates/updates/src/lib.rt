// The calls that write: clear, announce, withdraw and re-home, for any numbers and any lent memory. Each tests first, in the paper's order,
// and writes only when nothing refuses.
//
// The memory comes as four slices, as C lends it: a struct of `&mut` slices cannot be lent on twice, since of what lies behind a `&mut` of it the
// lengths are not known afterwards. Announce and re-home differ in their test alone: a function that took it as a closure would say the four
// slices and the promise of both once more, for the four lines that it shares.
#![tactic(auto)]

ghost use Rattle.std.specs.Prelude.{◌≡◌};
ghost use Rattle.ground.specs.Refusals.{code_of};
ghost use Rattle.cells.specs.Memory.{lent_of};
ghost use Rattle.refusals.specs.Codes.{announces, withdraws, re_homes};
ghost use Rattle.updates.specs.Calls.{reported, report_of, step, clear};

mod put;
mod take;

use cells::lent::Lent;
use ground::refusal::Refusal;
use prefix::{Prefix, Route};
use refusals::codes;

// What an update reports, as C gets it: 0 and the number of cells that it changed, or a refusal's number and 0.
#[repr(C)]
#[derive(Clone, Copy)]
pub struct Report {
    pub code: u32,
    pub cells: u32,
}

impl From<Result<u32, Refusal>> for Report {
    ghost from_gives = { λ outcome report. report ≡ report_of outcome };

    fn from(outcome: Result<u32, Refusal>) -> Report {
        match outcome {
            Ok(cells) => Report { code: 0, cells },
            Err(refusal) => Report {
                code: refusal.into(),
                cells: 0,
            },
        }
    }
}

// Sets all lent memory to 0, or refusal 1.
pub fn clear(
    first: &mut [u32],
    long: &mut [u32],
    owners: &mut [u32],
    rules: &mut [u64],
    territory: Prefix,
) -> Result<(), Refusal>
    ensures { reported (record { code = code_of result; cells = 0 }) (lent_of first.new long.new owners.new rules.new)
        ≡ clear territory (lent_of first.old long.old owners.old rules.old) }
{
    let lent = Lent {
        first,
        long,
        owners,
        rules,
    };
    codes::clear_checked(lent, territory)?;
    first.fill(0);
    long.fill(0);
    owners.fill(0);
    rules.fill(0);
    Ok(())
}

// Makes a prefix live with a hop; if it is live already, its hop is replaced. Answers how many cells it changed. Refusals 1, 2, 3, 4, 6
// and 7.
pub fn announce(
    first: &mut [u32],
    long: &mut [u32],
    owners: &mut [u32],
    rules: &mut [u64],
    territory: Prefix,
    route: Route,
) -> Result<u32, Refusal>
    ensures { reported (report_of result) (lent_of first.new long.new owners.new rules.new)
        ≡ step territory (announces route) (lent_of first.old long.old owners.old rules.old) }
{
    let lent = Lent {
        first,
        long,
        owners,
        rules,
    };
    let checked = codes::announce_checked(lent, territory, route)?;
    let cells = put::put_checked(first, long, owners, rules, territory, route, checked);
    Ok(cells)
}

// Changes the hop of a live prefix, and answers how many cells it changed. Refusals 1 to 5.
pub fn re_home(
    first: &mut [u32],
    long: &mut [u32],
    owners: &mut [u32],
    rules: &mut [u64],
    territory: Prefix,
    route: Route,
) -> Result<u32, Refusal>
    ensures { reported (report_of result) (lent_of first.new long.new owners.new rules.new)
        ≡ step territory (re_homes route) (lent_of first.old long.old owners.old rules.old) }
{
    let lent = Lent {
        first,
        long,
        owners,
        rules,
    };
    let checked = codes::re_home_checked(lent, territory, route)?;
    let cells = put::put_checked(first, long, owners, rules, territory, route, checked);
    Ok(cells)
}

// Removes a live prefix, and answers how many cells it changed. Refusals 1 to 5.
pub fn withdraw(
    first: &mut [u32],
    long: &mut [u32],
    owners: &mut [u32],
    rules: &mut [u64],
    territory: Prefix,
    prefix: Prefix,
) -> Result<u32, Refusal>
    ensures { reported (report_of result) (lent_of first.new long.new owners.new rules.new)
        ≡ step territory (withdraws prefix) (lent_of first.old long.old owners.old rules.old) }
{
    let lent = Lent {
        first,
        long,
        owners,
        rules,
    };
    let checked = codes::withdraw_checked(lent, territory, prefix)?;
    let cells = take::take_checked(first, long, owners, rules, territory, prefix, checked);
    Ok(cells)
}
