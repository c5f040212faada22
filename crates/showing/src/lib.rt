// What a line shows by itself: alarms 7 and 5, how it begins, whether a number of it lacks its point (alarm 21), and whether it breaks a word rule (alarm 9).
// (01: "then lines from the front, each 7, 5, 6, 8, 9". 02 takes 8 out, and puts 21 behind 5.) What a line is among others is judged where the tape is read.
#![tactic(auto)]

ghost use Rattle.std.specs.Prelude.{◌≡◌, ◌≤◌, length};
ghost use Rattle.addresses.specs.Words.{words_from};
ghost use Rattle.block.specs.Words.{longest_line, no_words, gather, reading};
ghost use Rattle.showing.specs.Showing.{broken_by, lacks_by, judged_alone, judged_by, judged};

use block::{Block, Head, LineStart};

// What a line shows by itself: alarm 7 or 5 or 0, and where that is 0, how it begins, whether one of its words lacks its point, whether it breaks a word rule, and
// whether M30 is the last word behind its first. Ask the alarm first: where it is not 0 the other fields say nothing.
#[derive(Clone, Copy)]
pub struct Judged {
    pub alarm: u8,
    pub head: Head,
    pub pointless: bool,
    pub broken: bool,
    pub ends: bool,
}

// Whether the words behind a line's first break a rule: "nothing after a program number", and those of a block.
fn breaks_behind(head: Head, b: Block) -> bool
    ensures { result ≡ broken_by head b }
{
    match head {
        Head::ProgramLine(_) => b.words != 0,
        Head::BlockLine(_) => rules::breaks_rules(b),
        Head::Blank => false,
        Head::Other(_) => false,
    }
}

// Whether a word of a line lacks its point, by how it begins and by the words behind that.
fn lacks_by(head: Head, behind: bool) -> bool
    ensures { result ≡ lacks_by head behind }
{
    match head {
        Head::Other(first) => first | behind,
        Head::ProgramLine(_) => behind,
        Head::BlockLine(_) => behind,
        Head::Blank => behind,
    }
}

// What a line shows that is refused, or that has no words behind its first.
fn judged_alone(alarm: u8, head: Head) -> Judged
    ensures { result ≡ judged_alone alarm head }
{
    Judged {
        alarm,
        head,
        pointless: lacks_by(head, false),
        broken: false,
        ends: false,
    }
}

// What a line shows that begins with `head`, by the words behind that. A bare number has none: it is passed at once.
fn judge_words(line: &[u8], head: Head, behind: usize) -> Judged
    requires { (behind ≤ length line.now) × (length line.now ≤ longest_line) }
    ensures { result ≡ judged_by (reading head (gather no_words (words_from line.now behind))) }
{
    if behind >= line.len() {
        return judged_alone(0, head);
    }
    let rest = block::read_rest(line, behind);
    if rest.faulty {
        return judged_alone(alarms::BAD_BYTE_OR_NUMBER, Head::Blank);
    }
    let block = rest.block;
    Judged {
        alarm: 0,
        head,
        pointless: lacks_by(head, block.pointless),
        broken: breaks_behind(head, block),
        ends: block.ends,
    }
}

// What the text of a line, without its line end, shows by itself, whatever stood before it.
pub fn judge_line(line: &[u8]) -> Judged
    ensures { result ≡ judged line.now }
{
    if line.len() > block::LONGEST_LINE {
        return judged_alone(alarms::LINE_TOO_LONG, Head::Blank);
    }
    let start = block::start_of(line);
    match start {
        LineStart::Blank => judged_alone(0, Head::Blank),
        LineStart::Fault => judged_alone(alarms::BAD_BYTE_OR_NUMBER, Head::Blank),
        LineStart::With(head, behind) => judge_words(line, head, behind),
    }
}
