// Trials of blocks: each is run from the state at the start, and what came of it is written: its name, a line for each record, and then `next ..`, what the last
// block asks of the runner, or `ALARM n`. The file `stdin` holds them: a name, LF, how many records have room, LF, the blocks, and byte 30. `stdout` holds what 01 says of each.
#![tactic(auto)]

ghost use Rattle.std.specs.Prelude.{◌+◌, ◌≤◌, length};
ghost use Rattle.moves.specs.Form.{header_size, record_size, record_start};

use numbers::{Number, NumberForm};
use requests::Request;
use std::io::{Read, Write};
use std::{fmt, io};

// The most bytes of standard input that are read.
const MOST_BYTES: u64 = 65_536;

// What ends a trial in `stdin`.
const MARK: u8 = 30;

// The most records that a trial may ask room for.
const MOST_ROOM: u32 = 64;

// Room for so many.
const ROOM: usize = moves::HEADER_SIZE + moves::RECORD_SIZE * (MOST_ROOM as usize);

// A record as it stands in a list. It prints as 01's listing has it: "kind, flags, X, Z and value". It is read from the bytes of the list, so that what is compared is what was written there.
#[derive(Clone, Copy)]
struct Listed<'a>(&'a [u8; moves::RECORD_SIZE]);

impl Listed<'_> {
    // The four bytes of a number, which stands at `at`.
    fn four_at(&self, at: usize) -> [u8; 4]
        requires { at + 4 ≤ record_size }
    {
        let bytes = self.0;
        [bytes[at], bytes[at + 1], bytes[at + 2], bytes[at + 3]]
    }
}

impl fmt::Display for Listed<'_> {
    fn fmt<W: fmt::Write>(&self, f: &mut fmt::Formatter<W>) -> fmt::Result {
        let kind = self.0[moves::AT_KIND];
        let flags = self.0[moves::AT_FLAGS];
        let x = octets::i32_of_bytes(self.four_at(moves::AT_X));
        let z = octets::i32_of_bytes(self.four_at(moves::AT_Z));
        let value = octets::u32_of_bytes(self.four_at(moves::AT_VALUE));
        write!(f, "{kind} {flags} {x} {z} {value}")
    }
}

// What the last block asks of the runner.
#[derive(Clone, Copy)]
struct Next(Request);

impl fmt::Display for Next {
    fn fmt<W: fmt::Write>(&self, f: &mut fmt::Formatter<W>) -> fmt::Result {
        match self.0 {
            Request::On => write!(f, "next on"),
            Request::Call(program, times) => write!(f, "next call {program} {times}"),
            Request::Jump(block) => write!(f, "next jump {block}"),
            Request::Return => write!(f, "next return"),
            Request::End => write!(f, "next end"),
        }
    }
}

// Writes the first n records of a list.
fn show_records<W: Write>(out: &mut W, buf: &[u8], n: usize) -> io::Result<()>
    requires { record_start n ≤ length buf.now }
{
    let (records, _) = buf[moves::HEADER_SIZE..].as_chunks();
    for record in &records[..n] {
        writeln!(out, "{}", Listed(record))?;
    }
    Ok(())
}

fn show_unreadable<W: Write>(out: &mut W) -> io::Result<()> {
    writeln!(out, "unreadable")
}

// Runs the blocks and writes what came of them: the records, and the alarm of the last block, or what it asks of the runner.
fn show_run<W: Write>(out: &mut W, lines: &[u8], buf: &mut [u8]) -> io::Result<()>
    requires { header_size ≤ length buf.old }
{
    let Some(tried) = trying::run_lines(lines, buf) else {
        return show_unreadable(out);
    };
    show_records(out, buf, tried.count)?;
    match tried.outcome {
        Ok(next) => writeln!(out, "{}", Next(next)),
        Err(alarm) => writeln!(out, "ALARM {alarm}"),
    }
}

// Lends a buffer that has room for so many records and no byte more.
fn show_in_room<W: Write>(out: &mut W, lines: &[u8], room: u32) -> io::Result<()> {
    if room > MOST_ROOM {
        return show_unreadable(out);
    }
    let mut all = [0u8; ROOM];
    let end = moves::HEADER_SIZE + moves::RECORD_SIZE * (room as usize);
    show_run(out, lines, &mut all[..end])
}

// Writes the name of a trial and what came of it.
fn show<W: Write>(out: &mut W, name: &[u8], room: &[u8], lines: &[u8]) -> io::Result<()> {
    out.write_all(name)?;
    out.write_all(b"\n")?;
    let number = numbers::read_number(room, NumberForm::TwoDigits);
    match number {
        Number::Value(n, _) => show_in_room(out, lines, whole::magnitude(n)),
        Number::Bad => show_unreadable(out),
    }
}

// Takes a trial apart: the line of its name, the line of its room, and the blocks behind them.
fn show_trial<W: Write>(out: &mut W, trial: &[u8]) -> io::Result<()> {
    let name = tape::line::line_at(trial, 0);
    let room = tape::line::line_at(trial, name.after);
    show(
        out,
        &trial[..name.stop],
        &trial[name.after..room.stop],
        &trial[room.after..],
    )
}

// One trial after the other.
fn show_all<W: Write>(out: &mut W, all: &[u8]) -> io::Result<()> {
    for trial in all.split_inclusive(|byte| *byte == MARK) {
        show_trial(out, trial.strip_suffix(&[MARK]).unwrap_or(trial))?;
    }
    Ok(())
}

fn main(rt: HostRuntime) -> io::Result<()> {
    let mut all = Vec::new(rt.alloc());
    rt.reader().take(MOST_BYTES).read_to_end(&mut all)?;
    show_all(&mut rt.stdout(), &all)
}
