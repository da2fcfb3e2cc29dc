// Standard input: a buffer filled with whole records, the end of the input told from a read that fails.
ghost use Rattle.std.specs.Prelude.{◌≤◌, length, IfOk, IfSome};
ghost use Rattle.collector.specs.Running.{FilledIs};

use crate::failures::{self, Failed};
use records::Update;
use std::io::Read;
use std::rt::Clock;

// What comes after the bytes that were read: other records, or the end of the input. Neither is a failure.
#[derive(Clone, Copy)]
pub enum After {
    Records,
    End,
}

// How many bytes the buffer holds, and what comes after them: nothing where a read failed. It is a count and no slice, since a
// slice would borrow the buffer.
#[derive(Clone, Copy)]
pub struct Filled {
    pub count: usize,
    pub after: Result<After, Failed>,
}

// One read, and how many bytes it gave: 0 where it is to be made again. None at the end of the input.
fn read_some<R: Input + Eprint + Clock>(rt: &R, room: &mut [u8]) -> Result<Option<usize>, Failed>
    ensures { IfOk result (λ count. IfSome count (λ more. more ≤ length room.old)) }
{
    match rt.reader().read(room) {
        Ok(0) => Ok(None),
        Ok(count) => Ok(Some(count)),
        Err(error) => {
            failures::unless_passing(rt, "collector: standard input", error)?;
            Ok(Some(0))
        }
    }
}

// Reads until the buffer holds whole records and no part of one, the input ends or a read fails. So a record that is there is taken
// at once, and is not kept waiting until the buffer is full. A proved loop has to end, and nothing says that the input comes: the loop
// counts its turns up to a number that no run reaches.
pub fn fill<R: Input + Eprint + Clock>(rt: &R, buffer: &mut [u8]) -> Filled
    ensures { FilledIs (length buffer.old) result }
{
    let mut count = 0;
    for _ in 0..u64::MAX {
        match read_some(rt, &mut buffer[count..]) {
            Ok(Some(more)) => count += more,
            Ok(None) => return Filled {
                count,
                after: Ok(After::End),
            },
            Err(failed) => return Filled {
                count,
                after: Err(failed),
            },
        }
        if count > 0 && count % Update::SIZE == 0 {
            return Filled {
                count,
                after: Ok(After::Records),
            };
        }
    }
    Filled {
        count,
        after: Err(Failed),
    }
}
