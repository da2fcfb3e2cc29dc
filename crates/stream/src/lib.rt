// A stream of update records, from bytes in a slice: each record is read under its serial, its update is taken into the tables, and the
// line to be printed for it is left. No input and no output happens here, so all of it is exact.
#![tactic(auto)]

ghost use Rattle.std.specs.Prelude.{◌≡◌, ◌≤◌, length, Some};
ghost use Rattle.cells.specs.Memory.{lent_of};
ghost use Rattle.updates.specs.Calls.{reported, report_of, step};
ghost use Rattle.stream.specs.Stream.{call_of, text_of, records_in};
ghost use Rattle.stream.specs.Taking.{TurnIs, TakenIs};

pub mod counts;

use ground::refusal::Refusal;
use prefix::{Prefix, Route};
use records::{Kind, Update};
use std::fmt;
use updates::Report;

// The line of a record: its serial, and what the tables answered its update, 0 or a refusal's number and the cells that changed.
#[derive(Clone, Copy, Default)]
pub struct Line {
    pub serial: u32,
    pub code: u32,
    pub cells: u32,
}

impl fmt::Display for Line {
    ghost output = { λ line. Some (text_of line) };

    fn fmt<W: fmt::Write>(&self, f: &mut fmt::Formatter<W>) -> fmt::Result {
        let serial = self.serial;
        let code = self.code;
        let cells = self.cells;
        write!(f, "{serial} {code} {cells}\n")
    }
}

// What some bytes of a stream came to: where it stands, that is the serial that it expects next or why reading refused a record, which
// ends it; and how many records were taken, which both have: a refused record leaves the lines before it.
#[derive(Clone, Copy)]
pub struct Taken {
    pub step: Result<u32, Refusal>,
    pub count: usize,
}

// Takes an update into the tables, by its kind. Reading lets only the three kinds pass; what any other would be, `call_of` says.
fn take_update(
    first: &mut [u32],
    long: &mut [u32],
    owners: &mut [u32],
    rules: &mut [u64],
    territory: Prefix,
    update: Update,
) -> Result<u32, Refusal>
    ensures { reported (report_of result) (lent_of first.new long.new owners.new rules.new)
        ≡ step territory (call_of update) (lent_of first.old long.old owners.old rules.old) }
{
    let prefix = Prefix {
        address: update.address,
        length: update.length as u32,
    };
    let route = Route {
        prefix,
        hop: update.hop as u32,
    };
    match Kind::try_from(update.kind) {
        Ok(Kind::Announce) => updates::announce(first, long, owners, rules, territory, route),
        Ok(Kind::Withdraw) => updates::withdraw(first, long, owners, rules, territory, prefix),
        Ok(Kind::ReHome) | Err(_) => updates::re_home(first, long, owners, rules, territory, route),
    }
}

// Reads the record at the start of the bytes and takes its update. What the tables refuse is an answer too.
fn take_record(
    first: &mut [u32],
    long: &mut [u32],
    owners: &mut [u32],
    rules: &mut [u64],
    territory: Prefix,
    bytes: &[u8],
    expected: u32,
) -> Result<Line, Refusal>
    ensures { TurnIs territory bytes.now expected (lent_of first.old long.old owners.old rules.old) result (lent_of first.new long.new owners.new rules.new) }
{
    let update = records::read(bytes, expected)?;
    let report = Report::from(take_update(first, long, owners, rules, territory, update));
    Ok(Line {
        serial: update.serial,
        code: report.code,
        cells: report.cells,
    })
}

// Takes the records of some bytes, one after another, until the bytes end or a record is refused; the last record may be cut short.
pub fn take_records(
    first: &mut [u32],
    long: &mut [u32],
    owners: &mut [u32],
    rules: &mut [u64],
    territory: Prefix,
    bytes: &[u8],
    expected: u32,
    lines: &mut [Line],
) -> Taken
    requires { records_in bytes.now ≤ length lines.old }
    ensures { TakenIs territory bytes.now expected (lent_of first.old long.old owners.old rules.old) lines.old result
        (lent_of first.new long.new owners.new rules.new) lines.new }
{
    let mut next = expected;
    let mut count = 0;
    for record in bytes.chunks(Update::SIZE) {
        match take_record(first, long, owners, rules, territory, record, next) {
            Ok(line) => {
                lines[count] = line;
                count += 1;
                next = records::next_serial(line.serial);
            }
            Err(refusal) => return Taken {
                step: Err(refusal),
                count,
            },
        }
    }
    Taken {
        step: Ok(next),
        count,
    }
}
