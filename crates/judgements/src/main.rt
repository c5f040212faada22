// Small tapes and what comes of reading each, a line for each: its name, and then `read A to B`, A the place of the first line and B the place behind the last
// line that is read, or `ALARM n at p`. The file `stdin` holds them: a name, LF, the tape, and byte 30. `stdout` holds what 01 says of each.
#![tactic(auto)]

use std::fmt::Display;
use std::io;
use std::io::{Read, Write};

// The most bytes of standard input that are read.
const MOST_BYTES: u64 = 65_536;

// The longest line that is written.
const WIDTH: usize = 80;

// What ends a tape in `stdin`.
const MARK: u8 = 30;

// Writes the name of a tape and what came of it at once, as much of the line as has room.
fn print<W: Write>(out: &mut W, name: &[u8], what: impl Display + Drop) -> io::Result<()> {
    let mut line = [0u8; WIDTH];
    let mut room = &mut line[..];
    // An error says that the rest was cut off.
    let _ = room.write_all(name);
    let _ = writeln!(room, " {what}");
    let left = room.len();
    out.write_all(&line[..WIDTH.saturating_sub(left)])
}

// Reads a tape and writes what came of it.
fn show<W: Write>(out: &mut W, name: &[u8], tape: &[u8]) -> io::Result<()> {
    if tape.len() > reading::LONGEST_TAPE {
        let alarm = alarms::TAPE_TOO_LONG;
        return print(out, name, format_args!("ALARM {alarm} at 0"));
    }
    let mut places = [0u64; reading::MOST_PLACES];
    let told = scanning::read_tape(tape, false, &mut places);
    let read = told.read;
    match read {
        reading::Read::Whole(first, end) => {
            print(out, name, format_args!("read {first} to {end}"))
        }
        reading::Read::Alarm(number, place) => {
            print(out, name, format_args!("ALARM {number} at {place}"))
        }
    }
}

// One tape after the other. What has no line of a name is none.
fn show_all<W: Write>(out: &mut W, all: &[u8]) -> io::Result<()> {
    for tape in all.split(|byte| *byte == MARK) {
        let mut parts = tape.splitn(2, |byte| *byte == b'\n');
        if let (Some(name), Some(tape)) = (parts.next(), parts.next()) {
            show(out, name, tape)?;
        }
    }
    Ok(())
}

fn main(rt: HostRuntime) -> io::Result<()> {
    let mut all = Vec::new(rt.alloc());
    rt.reader().take(MOST_BYTES).read_to_end(&mut all)?;
    show_all(&mut rt.stdout(), &all)
}
