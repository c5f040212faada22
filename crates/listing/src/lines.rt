// The lines of a listing, and the listing as a whole: the head and a line for each record, or the one line of an alarm.
// (01: "It prints mark, version and count, then kind, flags, X, Z and value for each record; on an alarm the word ALARM, number, place, count." 02: "the listing gains two fields at the end of
// each record's line".)
ghost use Rattle.std.specs.Prelude.{◌≡◌, ◌+◌, ◌*◌, ◌≤◌, length};
ghost use Rattle.octets.specs.Bytes.{laid};
ghost use Rattle.moves.specs.Form.{room_of, listed};
ghost use Rattle.moves.specs.Reading.{row_at};
ghost use Rattle.answers.specs.declared.Answer.TheVariants.{Complete, Alarm};
ghost use Rattle.decimal.specs.Wrote.{Wrote};
ghost use Rattle.listing.specs.Listing.{record_line, record_lines, head_line, text_of, longest_head, longest_record_line};

use answers::Answer;
use decimal::{put_number, put_signed, put_text};
use moves::{Origin, Record};

// The most bytes of each line: a byte has 3 digits, 16 bits have 5, 32 bits 10 and a sign, a count or a place 20.
pub const LONGEST_HEAD: usize = 27;

pub const LONGEST_RECORD_LINE: usize = 55;

pub const LONGEST_ALARM: usize = 52;

const SPACE: u8 = b' ';

const LINE_FEED: u8 = b'\n';

// "kind, flags, X, Z and value", and the numbers of the program and of the block
fn put_record(out: &mut [u8], at: usize, what: Record, origin: Origin) -> usize
    requires { at + longest_record_line ≤ length out.old }
    ensures written { Wrote out.old at (record_line (listed origin what)) result out.new }
    ensures short { result ≤ at + longest_record_line }
{
    let flags = put_number(out, at, what.kind as usize, SPACE);
    let x = put_number(out, flags, what.flags as usize, SPACE);
    let z = put_signed(out, x, what.x, SPACE);
    let value = put_signed(out, z, what.z, SPACE);
    let program = put_number(out, value, what.value as usize, SPACE);
    let block = put_number(out, program, origin.program as usize, SPACE);
    put_number(out, block, origin.block as usize, LINE_FEED)
}

// A line for each of the first so many records of a list. What is listed is what stands in the buffer, not what the run meant to write there; it is read by the reader's function.
fn put_records(list: &[u8], count: usize, out: &mut [u8], at: usize) -> usize
    requires { (count ≤ room_of (length list.now)) × (at + longest_record_line * count ≤ length out.old) }
    ensures written { Wrote out.old at (record_lines (row_at list.now 0 count)) result out.new }
    ensures short { result ≤ at + longest_record_line * count }
{
    let mut next = at;
    for k in 0..count {
        let listed = fields::listed_at(list, k);
        let what = listed.what;
        let origin = listed.origin;
        next = put_record(out, next, what, origin);
    }
    next
}

// "mark, version and count"
fn put_head(out: &mut [u8], count: usize) -> usize
    requires { longest_head ≤ length out.old }
    ensures written { Wrote out.old 0 (head_line count) result out.new }
    ensures short { result ≤ longest_head }
{
    let version = put_text(out, 0, b"TMV ");
    let number = put_number(out, version, moves::VERSION as usize, SPACE);
    put_number(out, number, count, LINE_FEED)
}

// The listing of a complete list.
fn put_list(count: usize, list: &[u8], out: &mut [u8]) -> usize
    ensures written { Wrote out.old 0 (text_of (Complete count) list.now (length out.old)) result out.new }
    ensures within { result ≤ length out.old }
{
    if count > moves::list::room(list.len()) {
        return 0;
    }
    if out.len() < LONGEST_HEAD + LONGEST_RECORD_LINE * count {
        return 0;
    }
    let first = put_head(out, count);
    put_records(list, count, out, first)
}

// "on an alarm the word ALARM, number, place, count"
fn put_alarm(alarm: u8, place: usize, count: usize, list: &[u8], out: &mut [u8]) -> usize
    ensures written { Wrote out.old 0 (text_of (Alarm alarm place count) list.now (length out.old)) result out.new }
    ensures within { result ≤ length out.old }
{
    if out.len() < LONGEST_ALARM {
        return 0;
    }
    let number = put_text(out, 0, b"ALARM ");
    let second = put_number(out, number, alarm as usize, SPACE);
    let third = put_number(out, second, place, SPACE);
    put_number(out, third, count, LINE_FEED)
}

// Makes the listing of an answer and of the list that came with it, at the front of `out`, and answers its length.
// Where the list cannot hold so many records, or there is not the room for the longest listing of so many, nothing is written, and the answer is 0.
pub fn put_listing(answer: Answer, list: &[u8], out: &mut [u8]) -> usize
    ensures result { result ≡ length (text_of answer list.now (length out.old)) }
    ensures text { out.new ≡ laid out.old 0 (text_of answer list.now (length out.old)) }
    ensures within { result ≤ length out.old }
{
    match answer {
        Answer::Complete(count) => put_list(count, list, out),
        Answer::Alarm(alarm, place, count) => put_alarm(alarm, place, count, list, out),
    }
}
