// The C library: each call under its C name, as thin as can be, with the contract of the call that it passes on. include/rakmolthi.h is
// its manual. The heads have the parameters that C passes; what they are in the library is built in each body.
#![tactic(auto)]

ghost use Rattle.std.specs.Prelude.{◌≡◌};
ghost use Rattle.bulk.specs.All.{all_of};
ghost use Rattle.lookup.specs.Bytes.{look_up_bytes};
ghost use Rattle.costs.specs.Lines.{line_of, values_of};
ghost use Rattle.sheet.specs.Sheet.{SheetIs};
ghost use Rattle.octets.specs.Booking.{clear_octets, book};
ghost use Rattle.octets.specs.Many.{book_all};
ghost use Rattle.records.specs.Record.{read_as, Writes};
ghost use Rattle.cells.specs.Memory.{lent_of};
ghost use Rattle.prefix.specs.Prefixes.{prefix_by};
ghost use Rattle.refusals.specs.Codes.{announces, withdraws, re_homes};
ghost use Rattle.rules.specs.Words.{route_by};
ghost use Rattle.updates.specs.Calls.{reported, step, clear};

use costs::line::Values;
use ground::refusal::code;
use prefix::{Prefix, Route};
use records::{Reading, Update};
use updates::Report;

#[unsafe(no_mangle)]
pub extern "C" fn rk_look_up(
    first: &[u8],
    long_table: &[u8],
    base: u32,
    base_length: u32,
    address: u32,
) -> u32
    ensures { result ≡ look_up_bytes first.now long_table.now (prefix_by base base_length) address }
{
    let territory = Prefix {
        address: base,
        length: base_length,
    };
    lookup::bytes::look_up_bytes(first, long_table, territory, address)
}

#[unsafe(no_mangle)]
pub extern "C" fn rk_look_up_all(
    first: &[u32],
    long_table: &[u32],
    base: u32,
    base_length: u32,
    addresses: &[u32],
    answers: &mut [u32],
) -> u32
    ensures { record { code = result; answers = answers.new }
        ≡ all_of first.now long_table.now (prefix_by base base_length) addresses.now
        answers.old }
{
    let territory = Prefix {
        address: base,
        length: base_length,
    };
    code(bulk::look_up_all(first, long_table, territory, addresses, answers))
}

#[unsafe(no_mangle)]
pub extern "C" fn rk_clear(
    first: &mut [u32],
    long_table: &mut [u32],
    owners: &mut [u32],
    rules: &mut [u64],
    base: u32,
    base_length: u32,
) -> u32
    ensures { reported (record { code = result; cells = 0 }) (lent_of first.new long_table.new owners.new rules.new)
        ≡ clear (prefix_by base base_length) (lent_of first.old long_table.old owners.old rules.old) }
{
    let territory = Prefix {
        address: base,
        length: base_length,
    };
    code(updates::clear(first, long_table, owners, rules, territory))
}

#[unsafe(no_mangle)]
pub extern "C" fn rk_announce(
    first: &mut [u32],
    long_table: &mut [u32],
    owners: &mut [u32],
    rules: &mut [u64],
    base: u32,
    base_length: u32,
    address: u32,
    length: u32,
    hop: u32,
) -> Report
    ensures { reported result (lent_of first.new long_table.new owners.new rules.new)
        ≡ step (prefix_by base base_length) (announces (route_by (prefix_by address length) hop))
        (lent_of first.old long_table.old owners.old rules.old) }
{
    let territory = Prefix {
        address: base,
        length: base_length,
    };
    let prefix = Prefix { address, length };
    let route = Route { prefix, hop };
    updates::announce(first, long_table, owners, rules, territory, route).into()
}

#[unsafe(no_mangle)]
pub extern "C" fn rk_withdraw(
    first: &mut [u32],
    long_table: &mut [u32],
    owners: &mut [u32],
    rules: &mut [u64],
    base: u32,
    base_length: u32,
    address: u32,
    length: u32,
) -> Report
    ensures { reported result (lent_of first.new long_table.new owners.new rules.new)
        ≡ step (prefix_by base base_length) (withdraws (prefix_by address length)) (lent_of first.old long_table.old owners.old rules.old) }
{
    let territory = Prefix {
        address: base,
        length: base_length,
    };
    let prefix = Prefix { address, length };
    updates::withdraw(first, long_table, owners, rules, territory, prefix).into()
}

#[unsafe(no_mangle)]
pub extern "C" fn rk_re_home(
    first: &mut [u32],
    long_table: &mut [u32],
    owners: &mut [u32],
    rules: &mut [u64],
    base: u32,
    base_length: u32,
    address: u32,
    length: u32,
    hop: u32,
) -> Report
    ensures { reported result (lent_of first.new long_table.new owners.new rules.new)
        ≡ step (prefix_by base base_length) (re_homes (route_by (prefix_by address length) hop)) (lent_of first.old long_table.old owners.old rules.old) }
{
    let territory = Prefix {
        address: base,
        length: base_length,
    };
    let prefix = Prefix { address, length };
    let route = Route { prefix, hop };
    updates::re_home(first, long_table, owners, rules, territory, route).into()
}

#[unsafe(no_mangle)]
pub extern "C" fn rk_read_record(bytes: &[u8], expected: u32) -> Reading
    ensures { result ≡ read_as bytes.now expected }
{
    records::read(bytes, expected).into()
}

#[unsafe(no_mangle)]
pub extern "C" fn rk_write_record(room: &mut [u8], update: Update) -> u32
    ensures { Writes room.old update result room.new }
{
    code(records::write(room, update))
}

#[unsafe(no_mangle)]
pub extern "C" fn rk_clear_octets(octets: &mut [u64]) -> u32
    ensures { record { code = result; words = octets.new } ≡ clear_octets octets.old }
{
    code(octets::clear_octets(octets))
}

#[unsafe(no_mangle)]
pub extern "C" fn rk_book(
    first: &[u32],
    long_table: &[u32],
    octets: &mut [u64],
    base: u32,
    base_length: u32,
    address: u32,
    amount: u64,
) -> u32
    ensures { record { code = result; words = octets.new }
        ≡ book first.now long_table.now (prefix_by base base_length) address amount
        octets.old }
{
    let territory = Prefix {
        address: base,
        length: base_length,
    };
    code(octets::book(first, long_table, octets, territory, address, amount))
}

#[unsafe(no_mangle)]
pub extern "C" fn rk_book_all(
    first: &[u32],
    long_table: &[u32],
    octets: &mut [u64],
    base: u32,
    base_length: u32,
    addresses: &[u32],
    amounts: &[u64],
    codes: &mut [u32],
) -> u32
    ensures { record { code = result; words = octets.new; codes = codes.new }
        ≡ book_all first.now long_table.now (prefix_by base base_length) addresses.now
        amounts.now codes.old octets.old }
{
    let territory = Prefix {
        address: base,
        length: base_length,
    };
    code(octets::book_all(
        first, long_table, octets, territory, addresses, amounts, codes,
    ))
}

#[unsafe(no_mangle)]
pub extern "C" fn rk_cost_line(octets: &[u64], cents: &[u64], hop: u32) -> Values
    ensures { result ≡ values_of (line_of octets.now cents.now hop) }
{
    costs::line::cost_line(octets, cents, hop).into()
}

#[unsafe(no_mangle)]
pub extern "C" fn rk_cost_sheet(octets: &[u64], cents: &[u64], hops: &mut [u32]) -> u32
    ensures { SheetIs octets.now cents.now hops.old result hops.new }
{
    code(sheet::cost_sheet(octets, cents, hops))
}
