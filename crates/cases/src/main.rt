// Stored tapes with the listings that they must give, run through the board's door and compared: those of 01, of its readings and of manual 001, those of threads (02, request 1), of missing points
// (request 3), of drilling (request 9), of arcs (request 4) and of the blocks that moves came from (request 7), those of the alarm card, and the examples.
// A line for each: its name and `agrees`, or `DIFFERS at line N` of the listing. Where the listing agrees, its tape is also run one move at a time (request 12), and N is the line of the move, or 1 of the
// answer, that is another than the list's, or 1 where words that cannot be asked are not refused.
// The file `stdin` holds the first: a name, LF, lines of settings, the tape, byte 29, the listing, and byte 30; data/threads.cases, data/threads-refused.cases,
// data/points.cases, data/drilling.cases, data/arcs.cases and data/blocks.cases hold the next in the same way. data/ALARMS.md is the card. Each line of the file `args` names an example:
// data/examples has its tape, its listing, and its settings where they are other ones than those of `listmoves`. How each is written down the crate `stored` knows.
#![tactic(auto)]

mod files;

ghost use Rattle.std.specs.Prelude.{IfOk};
ghost use Rattle.stored.specs.Texts.{FromOne};

use std::io::Write;
use std::rt::{Env, Files};
use std::{env, io};
use stored::card::Pairs;
use stored::compare::Verdict;

// The files of data/ that hold cases.
const FILES: [&str; 6] = [
    "threads.cases",
    "threads-refused.cases",
    "points.cases",
    "drilling.cases",
    "arcs.cases",
    "blocks.cases",
];

// What stands between a tape and its listing, and what ends a case.
const BEHIND_TAPE: u8 = 29;

const BEHIND_LISTING: u8 = 30;

// The longest name of an example.
const LONGEST_NAME: usize = 40;

// The most bytes that are read of standard input and of each file: one more than a tape may have.
const MOST_BYTES: usize = 65_536;

// The most bytes that are read of an example's settings.
const MOST_SETTINGS: usize = 4_096;

// Takes a case apart, and writes its name and what came of it.
fn show_case<W: Write>(out: &mut W, case: &[u8]) -> io::Result<()> {
    let (name, rest) = stored::text::split_line(case);
    out.write_all(name)?;
    match stored::text::split_once(rest, BEHIND_TAPE) {
        Some((case, want)) => {
            let verdict = comparing::judge_case(case, want);
            writeln!(out, " {verdict}")
        }
        None => writeln!(out, " HAS NO LISTING"),
    }
}

// One case after the other.
fn show_cases<W: Write>(out: &mut W, all: &[u8]) -> io::Result<()> {
    for case in all.split_inclusive(|byte| *byte == BEHIND_LISTING) {
        show_case(out, case.strip_suffix(&[BEHIND_LISTING]).unwrap_or(case))?;
    }
    Ok(())
}

// The cases of a file of data/.
fn show_file<R: Files + AllocGlobal, W: Write>(rt: &R, out: &mut W, name: &str) -> io::Result<()> {
    let cases = files::read_file(rt, name, MOST_BYTES)?;
    show_cases(out, &cases)
}

// Writes what a tape of the card must give, and what came of it.
fn show_alarm<W: Write>(out: &mut W, case: &[u8], want: &[u8]) -> io::Result<()> {
    let end = stored::text::find(want, b'\n').unwrap_or(want.len());
    out.write_all(b"card ")?;
    out.write_all(&want[..end])?;
    let verdict = comparing::judge_case(case, want);
    writeln!(out, " {verdict}")
}

// One pair after the other, until none is left.
fn show_card<W: Write>(out: &mut W, page: &[u8]) -> io::Result<()> {
    for (case, want) in Pairs(page) {
        show_alarm(out, case, want)?;
    }
    Ok(())
}

// Alarm 2 has no tape on the card: a tape of 65,536 zero bytes is run.
fn show_long<W: Write>(out: &mut W) -> io::Result<()> {
    let tape = [0u8; MOST_BYTES];
    let verdict = comparing::judge(&tape, stored::given::usual(), b"ALARM 2 0 0\n");
    writeln!(out, "card ALARM 2 0 0 {verdict}")
}

// Judges an example's tape, with what its case gives, by its listing.
fn judge_example<R: Files + AllocGlobal>(
    rt: &R,
    name: &str,
    given: [i32; stored::given::ALL],
) -> io::Result<Verdict>
    ensures { IfOk result FromOne }
{
    let tape = files::read_part(rt, name, ".tape", MOST_BYTES)?;
    let want = files::read_part(rt, name, ".list", MOST_BYTES)?;
    Ok(comparing::judge(&tape, given, &want))
}

// Judges an example by its name: its settings are a file of nothing but their lines.
fn verdict_of<R: Files + AllocGlobal>(rt: &R, name: &str) -> io::Result<Verdict>
    ensures { IfOk result FromOne }
{
    let settings = files::read_part(rt, name, ".set", MOST_SETTINGS)?;
    let mut given = stored::given::usual();
    match stored::given::read_given(&settings, &mut given) {
        Some([]) => judge_example(rt, name, given),
        _ => Ok(Verdict::Unread),
    }
}

fn show_example<R: Files + AllocGlobal, W: Write>(
    rt: &R,
    out: &mut W,
    name: &str,
) -> io::Result<()> {
    write!(out, "example {name}")?;
    let verdict = verdict_of(rt, name)?;
    writeln!(out, " {verdict}")
}

// The name of an example: no name where it is too long for one.
fn name_of(word: &str) -> &str {
    if word.len() > LONGEST_NAME { "" } else { word }
}

fn show_examples<R: Files + Env + AllocGlobal, W: Write>(rt: &R, out: &mut W) -> io::Result<()> {
    for word in env::args(rt)?.skip(1) {
        show_example(rt, out, name_of(word.as_str()))?;
    }
    Ok(())
}

fn show_all<R: Files + Env + AllocGlobal, W: Write>(
    rt: &R,
    out: &mut W,
    all: &[u8],
    page: &[u8],
) -> io::Result<()> {
    show_cases(out, all)?;
    for name in FILES {
        show_file(rt, out, name)?;
    }
    show_long(out)?;
    show_card(out, page)?;
    show_examples(rt, out)
}

fn main(rt: HostRuntime) -> io::Result<()> {
    let all = files::read_most(rt.alloc(), rt.reader(), MOST_BYTES)?;
    let page = files::read_file(&rt, "ALARMS.md", MOST_BYTES)?;
    show_all(&rt, &mut rt.stdout(), &all, &page)
}
