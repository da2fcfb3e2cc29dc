// The small program: a site's collector for the territory 10.16.0.0/12. It takes update records from standard input into the tables, and prints
// a line for each.
#![tactic(auto)]

mod failures;
mod input;
mod output;
mod run;

use failures::Failed;
use output::Last;
use std::env::{Env, FillError};
use std::process::ExitCode;
use std::rt::Clock;

const USAGE: &str =
    "collector < RECORDS: takes update records of 15 bytes into the tables of 10.16.0.0/12, with 16 segments and 64 rules.

Standard output has a line for each record, `serial code cells`, and a last line `end NUMBER live L open S`: the reading
refusal that stopped the stream (0 at its end), live prefixes, open segments. The first record has the serial 0.
Exit status: 0 at the end of the input; 1 where a record was refused by reading; 2 where a read or a write failed, which is
said on standard error, and there is no last line.
";

// Takes the stream and prints its lines, from the header to the last one, and answers the number of the last. It lends a cell for each of
// the 4,096 blocks, 16 segments, their owners, and 64 rules.
fn print_stream<R: Input + Print + Eprint + Clock>(rt: &R) -> Result<u32, Failed> {
    let mut first = [0u32; 4096];
    let mut long = [0u32; 4096];
    let mut owners = [0u32; 16];
    let mut rules = [0u64; 64];
    output::print(rt, output::HEADER)?;
    let ended = run::run(rt, &mut first, &mut long, &mut owners, &mut rules);
    let code = ended.code?;
    let last = Last {
        code,
        prefixes: ended.prefixes,
        segments: ended.segments,
    };
    output::print(rt, last)?;
    Ok(code)
}

// Runs the program, and answers its exit status: 0 at a clean end of the input, 1 where a record was refused, 2 where a read or a write
// failed.
pub fn collect<R: Input + Print + Eprint + Clock>(rt: &R) -> u8 {
    match print_stream(rt) {
        Ok(0) => 0,
        Ok(_) => 1,
        Err(Failed) => 2,
    }
}

// What the command line asks for: three cases, of which none is the lack of another.
enum Asked {
    Run,
    Help,
    Unknown,
}

// With no word the program runs, and `--help` alone asks how. A word that has no room here is another one.
fn what_is_asked<R: Env>(rt: &R) -> Asked {
    let mut word = [0u8; 8];
    let count = match rt.arg(1, &mut word) {
        Ok(count) => count,
        Err(FillError::NotPresent) => return Asked::Run,
        Err(FillError::TooLong) => return Asked::Unknown,
    };
    let is_help = &word[..count] == b"--help".as_slice();
    match rt.arg(2, &mut word) {
        Err(FillError::NotPresent) => { if is_help { Asked::Help } else { Asked::Unknown } }
        _ => Asked::Unknown,
    }
}

fn main(rt: HostRuntime) -> ExitCode {
    let status = match what_is_asked(&rt) {
        Asked::Run => collect(&rt),
        Asked::Help => match print!(rt; "{USAGE}") {
            Ok(()) => 0,
            Err(_) => 2,
        },
        Asked::Unknown => {
            let _ = eprint!(rt; "{USAGE}");
            2
        }
    };
    ExitCode::from(status)
}
