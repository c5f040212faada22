// Stored tapes run through the board's door with lent tables of places of several lengths (02, request 8). For each: its name and its listing, and then every entry of the table behind it, as
// program/slot/place, or `=` where the entry is as it came. Each is also run one move at a time (request 12), and a line says so where a move or the answer is another than the list's, or where words that cannot be asked
// are not refused.
// The file `stdin` holds them: a name, LF, lines of settings (`=held 3` lends a table of three entries), the tape, and byte 30. `stdout` holds what 01 and 02 say of each.
#![tactic(auto)]

use comparing::answers::Answer;
use comparing::{board, listing};
use std::io::{Read, Write};
use std::{fmt, io};
use stored::compare::Verdict;
use stored::given::ALL;

// The most bytes of standard input that are read.
const MOST_BYTES: u64 = 65_536;

// What ends a tape in `stdin`.
const MARK: u8 = 30;

// What the table holds before: this and the number of the entry. No tape has an entry as large.
const CAME: u64 = 9_223_372_036_854_775_808;

// The longest buffer that is lent.
const SPACE: usize = 65_536;

// The longest table that is lent.
const PLACES: usize = reading::MOST_PLACES;

// The longest listing.
const TEXT: usize = listing::lines::LONGEST_HEAD
    + listing::lines::LONGEST_RECORD_LINE * moves::RECORD_LIMIT;

// An entry as it comes.
fn came(number: usize) -> u64 {
    CAME + (number % PLACES) as u64
}

fn fill(places: &mut [u64]) {
    for (number, entry) in places.iter_mut().enumerate() {
        *entry = came(number);
    }
}

// An entry, which prints as program/slot/place.
#[derive(Clone, Copy)]
struct Entry(u64);

impl fmt::Display for Entry {
    fn fmt<W: fmt::Write>(&self, f: &mut fmt::Formatter<W>) -> fmt::Result {
        let entry = self.0;
        let program = entry / 4_294_967_296;
        let slot = entry / 65_536 % 65_536;
        let place = entry % 65_536;
        write!(f, "{program}/{slot}/{place}")
    }
}

// Each entry, or that it is as it came.
fn show_entries<W: Write>(out: &mut W, places: &[u64]) -> io::Result<()> {
    for (number, entry) in places.iter().enumerate() {
        if *entry == came(number) {
            write!(out, "= ")?;
        } else {
            write!(out, "{} ", Entry(*entry))?;
        }
    }
    writeln!(out)
}

fn listing_text() -> [u8; TEXT] {
    [0u8; TEXT]
}

fn show_listing<W: Write>(out: &mut W, answer: Answer, list: &[u8]) -> io::Result<()> {
    let mut text = listing_text();
    let n = listing::lines::put_listing(answer, list, &mut text);
    out.write_all(&text[..n])
}

// Runs a tape through the door and shows what came of it. It is lent the table, the table of places and the buffer that its case asks for, and no number and no byte more.
// Nothing is said of its moves where they are those of the list.
fn show_run<W: Write>(out: &mut W, tape: &[u8], given: [i32; ALL]) -> io::Result<()> {
    let mut space = [0u8; SPACE];
    let mut entries = [0u64; PLACES];
    let settings = comparing::settings_of(&given);
    let table = &given[..stored::given::numbers_of(&given)];
    let places = &mut entries[..stored::given::held_of(&given)];
    let buf = &mut space[..stored::given::bytes_of(&given)];
    fill(places);
    let packed = board::tm02_interpret(tape, table, &settings, places, buf);
    show_listing(out, comparing::unpacked(packed), buf)?;
    show_entries(out, places)?;
    let verdict = comparing::asked::judge_moves(tape, table, &settings, places);
    if let Verdict::Differs(line) = verdict {
        writeln!(out, "ITS MOVES DIFFER at line {line}")?;
    }
    Ok(())
}

// Takes a case apart.
fn show_case<W: Write>(out: &mut W, case: &[u8]) -> io::Result<()> {
    let (name, rest) = stored::text::split_line(case);
    out.write_all(name)?;
    writeln!(out)?;
    let mut given = stored::given::usual();
    match stored::given::read_given(rest, &mut given) {
        Some(tape) => show_run(out, tape, given),
        None => writeln!(out, "{}", Verdict::Unread),
    }
}

// One case after the other.
fn show_cases<W: Write>(out: &mut W, all: &[u8]) -> io::Result<()> {
    for case in all.split_inclusive(|byte| *byte == MARK) {
        show_case(out, case.strip_suffix(&[MARK]).unwrap_or(case))?;
    }
    Ok(())
}

fn main(rt: HostRuntime) -> io::Result<()> {
    let mut all = Vec::new(rt.alloc());
    rt.reader().take(MOST_BYTES).read_to_end(&mut all)?;
    show_cases(&mut rt.stdout(), &all)
}
