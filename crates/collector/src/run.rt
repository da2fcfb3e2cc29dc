// The loop of the program: bytes are read into a buffer, the records in it are taken, and their lines are printed.
ghost use Rattle.std.specs.Prelude.{◌≡◌};
ghost use Rattle.cells.specs.Memory.{IsLent, lent_of};
ghost use Rattle.stream.specs.Stream.{used};
ghost use Rattle.collector.specs.Running.{site, count_of, next_of, ended_by, Handed, LastIs};

use crate::failures::Failed;
use crate::input::{After, Filled};
use crate::{input, output};
use ground::refusal::{self, Refusal};
use prefix::Prefix;
use records::Update;
use std::rt::Clock;
use stream::{Line, counts};

// 10.16.0.0/12.
const TERRITORY: Prefix = Prefix {
    address: 0x0a10_0000,
    length: 12,
};

// A buffer has room for so many records.
const RECORDS: usize = 64;

// What comes next: a record of this serial is expected, or the stream ended, cleanly or with a record that reading refused. An end is no failure
// of the program: that is the `Err` of the Result that this is in.
#[derive(Clone, Copy)]
enum Next {
    Expects(u32),
    Ends(Result<(), Refusal>),
}

// How many bytes of the buffer are taken: all, or its whole records where a read failed after them, since the rest of the last one may
// have been there.
fn to_take(filled: Filled) -> usize
    ensures { result ≡ count_of filled }
{
    match filled.after {
        Ok(_) => filled.count,
        Err(_) => filled.count - filled.count % Update::SIZE,
    }
}

// A record that was refused ends the stream; else it is as the input goes on.
fn next_of(step: Result<u32, Refusal>, after: Result<After, Failed>) -> Result<Next, Failed>
    ensures { result ≡ next_of step after }
{
    match (step, after) {
        (Err(refusal), _) => Ok(Next::Ends(Err(refusal))),
        (Ok(serial), Ok(After::Records)) => Ok(Next::Expects(serial)),
        (Ok(_), Ok(After::End)) => Ok(Next::Ends(Ok(()))),
        (Ok(_), Err(failed)) => Err(failed),
    }
}

// Reads some records, takes them and prints their lines.
fn take_next<R: Input + Print + Eprint + Clock>(
    rt: &R,
    first: &mut [u32],
    long: &mut [u32],
    owners: &mut [u32],
    rules: &mut [u64],
    expected: u32,
) -> Result<Next, Failed>
    ensures { Handed expected (lent_of first.old long.old owners.old rules.old) result (lent_of first.new long.new owners.new rules.new) }
{
    let mut buffer = [0u8; RECORDS * Update::SIZE];
    let mut lines = [Line::default(); RECORDS];
    let filled = input::fill(rt, &mut buffer);
    let taken = stream::take_records(
        first,
        long,
        owners,
        rules,
        TERRITORY,
        &buffer[..to_take(filled)],
        expected,
        &mut lines,
    );
    output::print_lines(rt, &lines[..taken.count])?;
    next_of(taken.step, filled.after)
}

// Takes records until the stream ends or something fails, and answers how it ended. The loop's turns are counted as in `input::fill`.
fn take_stream<R: Input + Print + Eprint + Clock>(
    rt: &R,
    first: &mut [u32],
    long: &mut [u32],
    owners: &mut [u32],
    rules: &mut [u64],
) -> Result<Result<(), Refusal>, Failed>
    ensures { Handed 0 (lent_of first.old long.old owners.old rules.old) (ended_by result) (lent_of first.new long.new owners.new rules.new) }
{
    let mut expected = 0;
    for _ in 0..u64::MAX {
        match take_next(rt, first, long, owners, rules, expected)? {
            Next::Expects(serial) => expected = serial,
            Next::Ends(end) => return Ok(end),
        }
    }
    Err(Failed)
}

// What the whole stream came to: the number of the last line, where neither a read nor a write failed; and what the memory holds at the end,
// failed or not.
#[derive(Clone, Copy)]
pub struct Ended {
    pub code: Result<u32, Failed>,
    pub prefixes: u64,
    pub segments: u64,
}

// That, with the live prefixes and the open segments counted.
fn counted(code: Result<u32, Failed>, owners: &[u32], rules: &[u64]) -> Ended
    ensures { result ≡ record { code = code; prefixes = used rules.now; segments = used owners.now } }
{
    Ended {
        code,
        prefixes: counts::live_prefixes(rules),
        segments: counts::open_segments(owners),
    }
}

// From cleared memory, the whole stream, and the numbers of the last line.
pub fn run<R: Input + Print + Eprint + Clock>(
    rt: &R,
    first: &mut [u32],
    long: &mut [u32],
    owners: &mut [u32],
    rules: &mut [u64],
) -> Ended
    requires { IsLent site (lent_of first.old long.old owners.old rules.old) }
    ensures { LastIs (lent_of first.old long.old owners.old rules.old) result (lent_of first.new long.new owners.new rules.new) }
{
    let _ = updates::clear(first, long, owners, rules, TERRITORY);
    match take_stream(rt, first, long, owners, rules) {
        Ok(end) => counted(Ok(refusal::code(end)), owners, rules),
        Err(failed) => counted(Err(failed), owners, rules),
    }
}
