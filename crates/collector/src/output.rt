// Standard output: a header, a line for each record, and a last line. A write that fails is said.
ghost use Rattle.std.specs.Prelude.{◌≡◌, ◌≤◌, ◌++◌, length, take, Some, IfOk};
ghost use Rattle.collector.specs.Running.{text_of};

use crate::failures::{self, Failed};
use std::fmt;
use std::fmt::{Display, Write as _};
use std::io::{ErrorKind, Write, writer};
use std::rt::Clock;
use stream::Line;

pub const HEADER: &str = "serial code cells\n";

// The numbers of the last line: the reading refusal that stopped the stream, 0 at a clean end; live prefixes; open segments.
#[derive(Clone, Copy)]
pub struct Last {
    pub code: u32,
    pub prefixes: u64,
    pub segments: u64,
}

impl Display for Last {
    ghost output = { λ last. Some (text_of last) };

    fn fmt<W: fmt::Write>(&self, f: &mut fmt::Formatter<W>) -> fmt::Result {
        let code = self.code;
        let prefixes = self.prefixes;
        let segments = self.segments;
        write!(f, "end {code} live {prefixes} open {segments}\n")
    }
}

// One write, and how many bytes it took: 0 where it is to be made again.
fn write_some<R: Print + Eprint + Clock>(rt: &R, text: &[u8]) -> Result<usize, Failed>
    ensures { IfOk result (λ count. count ≤ length text.now) }
{
    let failure = match writer(rt).write(text) {
        Ok(0) => ErrorKind::WriteZero.into(),
        Ok(count) => return Ok(count),
        Err(error) => error,
    };
    failures::unless_passing(rt, "collector: standard output", failure)?;
    Ok(0)
}

// Writes a text to its end. A proved loop has to end, as in `input::fill`.
fn write_all<R: Print + Eprint + Clock>(rt: &R, text: &[u8]) -> Result<(), Failed> {
    let mut rest = text;
    for _ in 0..u64::MAX {
        let count = write_some(rt, rest)?;
        rest = &rest[count..];
        if rest.is_empty() {
            return Ok(());
        }
    }
    Err(Failed)
}

// A line that is put together: the first `len` of the bytes. The longest is the last one, of 67 bytes.
#[derive(Clone, Copy)]
struct Text {
    bytes: [u8; 96],
    len: usize,
    ghost within: { len ≤ 96 },
}

impl fmt::Write for Text {
    ghost write_str_gives = { λ text part after. take after.len after.bytes ≡ take text.len text.bytes ++ part };

    fn write_str(&mut self, part: &str) -> fmt::Result {
        let part = part.as_bytes();
        if self.bytes.len() - self.len < part.len() {
            return Err(fmt::Error);
        }
        let end = self.len + part.len();
        self.bytes[self.len..end].copy_from_slice(part);
        self.len = end;
        Ok(())
    }
}

// Prints a line: it is put together first, and then written. No line is too long for that.
pub fn print<R: Print + Eprint + Clock, L: Display + Drop>(rt: &R, line: L) -> Result<(), Failed> {
    let mut text = Text {
        bytes: [0; 96],
        len: 0,
    };
    match write!(text, "{line}") {
        Ok(()) => write_all(rt, &text.bytes[..text.len]),
        Err(_) => Err(Failed),
    }
}

pub fn print_lines<R: Print + Eprint + Clock>(rt: &R, lines: &[Line]) -> Result<(), Failed> {
    for line in lines {
        print(rt, *line)?;
    }
    Ok(())
}
