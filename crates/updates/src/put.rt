// Announce and re-home, once nothing refuses: the cells of the prefix are painted, in a segment that is opened if need be, and the route
// is put among the rules.
ghost use Rattle.std.specs.Prelude.{◌≡◌};
ghost use Rattle.prefix.specs.Routes.{puts};
ghost use Rattle.cells.specs.Memory.{lent_of, tables_of};
ghost use Rattle.tables.specs.Changes.{left, leaves};
ghost use Rattle.updates.specs.Calls.{reported, accepted};
ghost use Rattle.updates.specs.Effects.{painted, effect};
ghost use Rattle.updates.specs.inner.Steps.{Paintable, Puttable};

use cells::cell::Cell;
use prefix::geometry::Blocks;
use prefix::{Prefix, Route};
use refusals::codes::Checked;
use rules::list;
use tables::{fill, paint};

// Paints the cells of the prefix, and returns how many cells differ. What was checked says which blocks it touches, and which segment is
// opened for it, if one is.
fn paint_route(
    first: &mut [u32],
    long: &mut [u32],
    owners: &mut [u32],
    territory: Prefix,
    route: Route,
    blocks: Blocks,
    opens: Option<usize>,
) -> u32
    requires { Paintable territory route blocks opens (tables_of first.old long.old owners.old) }
    ensures { left result (tables_of first.new long.new owners.new)
        ≡ leaves (painted territory route) (tables_of first.old long.old owners.old) }
{
    let new = Cell::pack(route.hop, route.prefix.length);
    match opens {
        Some(segment) => fill::open_and_paint(
            first,
            long,
            owners,
            territory,
            route.prefix,
            blocks.from,
            segment,
            new,
        ),
        None => paint::paint(first, long, owners, territory, route.prefix, blocks, new),
    }
}

// What was checked says also where the route stands among the rules, or would stand. Returns how many cells differ.
pub fn put_checked(
    first: &mut [u32],
    long: &mut [u32],
    owners: &mut [u32],
    rules: &mut [u64],
    territory: Prefix,
    route: Route,
    checked: Checked,
) -> u32
    requires { Puttable territory route checked (lent_of first.old long.old owners.old rules.old) }
    ensures { reported (record { code = 0; cells = result }) (lent_of first.new long.new owners.new rules.new)
        ≡ accepted (lent_of first.old long.old owners.old rules.old)
        (effect territory (puts route) (lent_of first.old long.old owners.old rules.old)) }
{
    let cells = paint_route(
        first,
        long,
        owners,
        territory,
        route,
        checked.blocks,
        checked.segment,
    );
    list::put(rules, checked.used, checked.place, route);
    cells
}
