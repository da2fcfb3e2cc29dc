// Withdraw, once nothing refuses: the prefix is taken out of the rules first, so that the longest other match is the longest match, and
// then its cells are repainted, or its segment closes.
ghost use Rattle.std.specs.Prelude.{◌≡◌, not, ◌&&◌, ◌%◌, ltb};
ghost use Rattle.prefix.specs.Geometry.{width, block_size, touched};
ghost use Rattle.prefix.specs.Price.{is_open};
ghost use Rattle.prefix.specs.Routes.{takes};
ghost use Rattle.cells.specs.Memory.{lent_of, tables_of};
ghost use Rattle.rules.specs.Rules.{routes};
ghost use Rattle.tables.specs.Changes.{left, leaves};
ghost use Rattle.tables.specs.inner.Ready.{Repaintable};
ghost use Rattle.updates.specs.Calls.{reported, accepted};
ghost use Rattle.updates.specs.Effects.{unpainted, effect};
ghost use Rattle.updates.specs.inner.Steps.{Takable};

use prefix::Prefix;
use prefix::geometry::{Block, Blocks, block_start};
use refusals::codes::Checked;
use rules::list;
use rules::live::Live;
use tables::fill;

// Whether a prefix of this length closes the block that starts at the address: it is longer than 24, and no rule that is left is longer
// than 24 in the block.
#[tactic(auto, using(std::proofs::lemmas::Bool::Decides::nat_tests))]
fn closes_block(live: Live, start: u32, length: u32) -> bool
    requires { start % block_size ≡ 0 }
    ensures { result ≡ (ltb width length && not (is_open (routes live.entry.words.now) start)) }
{
    if length <= Block::WIDTH {
        return false;
    }
    !live.is_open(start)
}

// Repaints the cells of the prefix, or closes its segment, and returns how many cells differ. The rules are those that are left.
fn unpaint_or_close(
    first: &mut [u32],
    long: &mut [u32],
    owners: &mut [u32],
    live: Live,
    territory: Prefix,
    prefix: Prefix,
    blocks: Blocks,
) -> u32
    requires repaintable { Repaintable territory prefix (tables_of first.old long.old owners.old) }
    requires touched_blocks { blocks ≡ touched territory prefix }
    ensures { left result (tables_of first.new long.new owners.new)
        ≡ leaves (unpainted territory prefix (routes live.entry.words.now)) (tables_of first.old long.old owners.old) }
{
    let block = blocks.from;
    let start = block_start(territory, block);
    if closes_block(live, start, prefix.length) {
        let run = runs::longest(live, start);
        return fill::close(first, long, owners, territory, prefix, block, run.cell);
    }
    unpaint::unpaint(first, long, owners, live, territory, prefix, blocks)
}

// What was checked says where the prefix stands among the rules. Returns how many cells differ.
pub fn take_checked(
    first: &mut [u32],
    long: &mut [u32],
    owners: &mut [u32],
    rules: &mut [u64],
    territory: Prefix,
    prefix: Prefix,
    checked: Checked,
) -> u32
    requires { Takable territory prefix checked (lent_of first.old long.old owners.old rules.old) }
    ensures { reported (record { code = 0; cells = result }) (lent_of first.new long.new owners.new rules.new)
        ≡ accepted (lent_of first.old long.old owners.old rules.old)
        (effect territory (takes prefix) (lent_of first.old long.old owners.old rules.old)) }
{
    list::take_out(rules, checked.used, checked.place.unwrap(), prefix);
    let left = Live {
        words: &rules[..checked.used - 1],
    };
    unpaint_or_close(first, long, owners, left, territory, prefix, checked.blocks)
}
