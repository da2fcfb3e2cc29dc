// What becomes of a read or a write that moved nothing.
use std::fmt::InlineText;
use std::io::{Error, ErrorKind};
use std::rt::Clock;
use std::thread;
use std::time::Duration;

// A read or a write failed, which standard error says.
#[derive(Clone, Copy)]
pub struct Failed;

// The line that says it: what failed, a colon, and the system's text for the error, without the number that std puts after it. The longest
// text that std makes of an error has 256 bytes and a number.
fn say<R: Eprint>(rt: &R, what: &str, error: Error) {
    let text = InlineText::<320>::of(error);
    let words = text.as_str();
    let message = words
        .split_once(" (os error ")
        .map_or(words, |(message, _)| message);
    let _ = eprintln!(rt; "{what}: {message}");
}

// One that was interrupted, or has nothing or no room yet, is to be made again; any other failure is said.
pub fn unless_passing<R: Eprint + Clock>(rt: &R, what: &str, error: Error) -> Result<(), Failed> {
    match error.kind() {
        ErrorKind::Interrupted => Ok(()),
        ErrorKind::WouldBlock => {
            thread::sleep(rt, Duration::from_millis(5));
            Ok(())
        }
        _ => {
            say(rt, what, error);
            Err(Failed)
        }
    }
}
