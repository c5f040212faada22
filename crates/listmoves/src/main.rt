// The program `listmoves`: a tape from standard input is run, and its list of moves is written to standard output as text, or its alarm.
// (01: "It prints mark, version and count, then kind, flags, X, Z and value for each record; on an alarm the word ALARM, number, place, count.")
#![tactic(auto)]

ghost use Rattle.std.specs.Prelude.{◌≡◌, ◌≤◌, length, OnOk};
ghost use Rattle.std.specs.Io.KnownBytes.{Appends};
ghost use Rattle.octets.specs.Bytes.{laid};
ghost use Rattle.listmoves.specs.Printed.{fresh_buffer, printed, text_size};

use demands::interpreter;
use std::io;
use std::io::{Read, Write};

// The most bytes of standard input that are read: one more than a tape may have, so that a longer one is seen to be longer (alarm 2).
const MOST_BYTES: u64 = 65_536;

// The buffer that is lent: the header and as many records as a list may have.
const BUFFER: usize = moves::HEADER_SIZE + moves::RECORD_SIZE * moves::RECORD_LIMIT;

// The longest listing of so many.
const TEXT: usize = listing::lines::LONGEST_HEAD
    + listing::lines::LONGEST_RECORD_LINE * moves::RECORD_LIMIT;

// What the table of places holds before: any number does. (Zeros would be laid byte by byte.)
const UNUSED: u64 = 1;

fn fresh_buffer() -> [u8; BUFFER]
    ensures { result ≡ fresh_buffer }
{
    [0u8; BUFFER]
}

fn text_buffer() -> [u8; TEXT]
    ensures { text_size ≡ length result }
{
    [0u8; TEXT]
}

// Runs a tape and makes its listing at the front of `out`. Answers how long it is.
fn list_moves(tape: &[u8], out: &mut [u8]) -> usize
    requires { text_size ≤ length out.old }
    ensures result { result ≡ length (printed tape.now) }
    ensures text { out.new ≡ laid out.old 0 (printed tape.now) }
    ensures within { result ≤ length out.old }
{
    let table = panel::no_offsets();
    let mut buf = fresh_buffer();
    let set = panel::of_listmoves();
    let mut places = [UNUSED; reading::MOST_PLACES];
    let answer = interpreter::interpret::interpret(tape, &table, set, &mut places, &mut buf);
    listing::lines::put_listing(answer, &buf, out)
}

// Writes the listing of a tape, and nothing else.
fn write_moves<W: Write>(tape: &[u8], out: &mut W) -> io::Result<()>
    ensures { OnOk result (Appends (W.contents out.old) (W.contents out.new) (printed tape.now)) }
{
    let mut text = text_buffer();
    let k = list_moves(tape, &mut text);
    out.write_all(&text[..k])
}

fn main(rt: HostRuntime) -> io::Result<()> {
    let mut tape = Vec::new(rt.alloc());
    rt.reader().take(MOST_BYTES).read_to_end(&mut tape)?;
    write_moves(&tape, &mut rt.stdout())
}
