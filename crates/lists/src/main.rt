// Stored lists of both versions and what comes of reading each, a line for each: its name, then kind, flags, X, Z and value of the record that is asked for, and where the list tells it the program and
// the block that it came from, or `REFUSED` and why; and at the end what the reader's door answers where one number less than a record has is lent.
// The file `stdin` holds them, a line for each: a name, a space, the number of the record, a space, and the bytes in hexadecimal digits; `*` behind them repeats the last record until there are
// as many as the header counts. `stdout` holds what 02 says of each, by a separate reading of it.
#![tactic(auto)]

ghost use Rattle.std.specs.Prelude.{◌<◌, ◌≤◌};

use lawful::Version;
use moves::{Origin, Record};
use std::io;
use std::io::{Read, Write};

// The most bytes of standard input that are read.
const MOST_BYTES: u64 = 65_536;

// The longest list that is stored.
const LONGEST: usize = 65_536;

const REPEAT: u8 = b'*';

fn digit(c: u8) -> u8
    ensures { result < 16 }
{
    match c {
        b'0'..=b'9' => c - b'0',
        b'a'..=b'f' => c - b'a' + 10,
        _ => 0,
    }
}

// The bytes of hexadecimal digits, and how many they are.
fn decode(text: &[u8], list: &mut [u8; LONGEST]) -> usize
    ensures { result ≤ 65_536 }
{
    let (pairs, _) = text.as_chunks::<2>();
    for (byte, [high, low]) in list.iter_mut().zip(pairs) {
        *byte = 16 * digit(*high) + digit(*low);
    }
    pairs.len().min(LONGEST)
}

// The version that a header names, for the size of the records that are repeated.
fn version_of(list: &[u8; LONGEST]) -> Version {
    if usize::from(list[moves::AT_VERSION]) == lawful::FIRST_VERSION {
        Version::One
    } else {
        Version::Two
    }
}

// Repeats the last record until the list is as long as its header says.
fn repeat(list: &mut [u8; LONGEST], from: usize) -> usize
    requires { from ≤ 65_536 }
    ensures { result ≤ 65_536 }
{
    let count = u16::from_le_bytes([list[moves::AT_COUNT], list[moves::AT_COUNT + 1]]);
    let version = version_of(list);
    let size = lawful::record_size(version);
    if from < size {
        return from;
    }
    let end = lawful::record_start(version, usize::from(count)).min(LONGEST);
    for n in from..end {
        list[n] = list[n - size];
    }
    end.max(from)
}

// A number in decimal digits, below 65,536.
fn number(text: &[u8]) -> u16 {
    text.iter().fold(0u16, |n, c| {
        n.wrapping_mul(10).wrapping_add(u16::from(digit(*c)))
    })
}

fn print_record<W: Write>(out: &mut W, what: Record) -> io::Result<()> {
    let Record {
        kind,
        flags,
        x,
        z,
        value,
    } = what;
    write!(out, " {kind} {flags} {x} {z} {value}")
}

// The program and the block, where the list tells them.
fn print_source<W: Write>(out: &mut W, source: Option<Origin>) -> io::Result<()> {
    match source {
        Some(origin) => {
            let program = origin.program;
            let block = origin.block;
            write!(out, " {program} {block}")
        }
        None => Ok(()),
    }
}

// What comes of a list and k.
fn show<W: Write>(out: &mut W, list: &[u8], k: usize) -> io::Result<()> {
    match readback::read::read_record(list, k) {
        Ok((what, source)) => {
            print_record(out, what)?;
            print_source(out, source)?;
        }
        Err(refusal) => {
            let why = u32::from(refusal);
            write!(out, " REFUSED {why}")?;
        }
    }
    let mut six = [0i64; 6];
    let few = numbered::read(list, k, &mut six);
    writeln!(out, " {few}")
}

// The bytes of a list as it is stored, and how many they are.
fn list_of(text: &[u8], list: &mut [u8; LONGEST]) -> usize
    ensures { result ≤ 65_536 }
{
    let n = decode(text, list);
    if text.ends_with(&[REPEAT]) {
        repeat(list, n)
    } else {
        n
    }
}

// A line's list, and what comes of it.
fn show_list<W: Write>(out: &mut W, k: usize, text: &[u8]) -> io::Result<()> {
    let mut list = [0u8; LONGEST];
    let n = list_of(text, &mut list);
    show(out, &list[..n], k)
}

// One line: a name, a number, a list. What lacks one of them is none.
fn show_line<W: Write>(out: &mut W, line: &[u8]) -> io::Result<()> {
    let mut parts = line.splitn(3, |byte| *byte == b' ');
    if let (Some(name), Some(k), Some(list)) = (parts.next(), parts.next(), parts.next()) {
        out.write_all(name)?;
        show_list(out, usize::from(number(k)), list)?;
    }
    Ok(())
}

// One line after the other.
fn show_all<W: Write>(out: &mut W, all: &[u8]) -> io::Result<()> {
    for line in all.split(|byte| *byte == b'\n') {
        show_line(out, line)?;
    }
    Ok(())
}

fn main(rt: HostRuntime) -> io::Result<()> {
    let mut all = Vec::new(rt.alloc());
    rt.reader().take(MOST_BYTES).read_to_end(&mut all)?;
    show_all(&mut rt.stdout(), &all)
}
