// Lines and gaps: where the first line begins, where a line ends, and what lies between two words.
// Places count from 0 at the first byte of the slice that is handed in.
ghost use Rattle.std.specs.Prelude.{◌≡◌, false, ◌+◌, ◌≤◌, length, drop};
ghost use Rattle.tape.specs.Lines.{seek_from, is_line_feed, opens_tape, stretch, Neither, line_at, LineIn, gap_of, GapIn, Closed};

// A line: where its text ends, and where the next line begins.
#[derive(Clone, Copy)]
pub struct Line {
    pub stop: usize,
    pub after: usize,
}

// Where the next word begins or the line ends, or that a comment is open or holds a CR.
#[derive(Clone, Copy)]
pub enum Gap {
    At(usize),
    Fault,
}

// The place of the first `%`, `O` or `o`, or the tape's length.
pub fn first_line(tape: &[u8]) -> usize
    ensures { (result ≡ seek_from opens_tape tape.now 0) × (result ≤ length tape.now) }
{
    tape.iter()
        .position(|byte| matches!(*byte, b'%' | b'O' | b'o'))
        .unwrap_or(tape.len())
}

// How many bytes are looked at together.
const STRETCH: usize = 8;

// Whether one of two bytes stands in the stretch from `from` on. All its bytes are looked at, so that the compiler compares them at once.
fn has_either(bytes: &[u8], from: usize, one: u8, other: u8) -> bool
    requires { from + stretch ≤ length bytes.now }
    ensures { result ≡ false → Neither bytes.now one other from (from + stretch) }
{
    bytes[from..from + STRETCH].iter().fold(
        false,
        |found, byte| found | ((*byte == one) | (*byte == other)),
    )
}

// Past the stretches from `from` on that hold neither of two bytes.
fn pass_stretches(bytes: &[u8], from: usize, one: u8, other: u8) -> usize
    requires { from ≤ length bytes.now }
    ensures { (from ≤ result) × (result ≤ length bytes.now) × Neither bytes.now one other from result }
{
    let mut i = from;
    while STRETCH <= bytes.len() - i && !has_either(bytes, i, one, other) {
        i += STRETCH;
    }
    i
}

// The place of the first LF from `from` on, or the tape's length.
fn find_line_feed(tape: &[u8], from: usize) -> usize
    requires { from ≤ length tape.now }
    ensures { (result ≡ seek_from is_line_feed tape.now from) × (from ≤ result) × (result ≤ length tape.now) }
{
    let near = pass_stretches(tape, from, b'\n', b'\n');
    for i in near..tape.len() {
        if tape[i] == b'\n' {
            return i;
        }
    }
    tape.len()
}

// The line that begins at `from`.
pub fn line_at(tape: &[u8], from: usize) -> Line
    requires { from ≤ length tape.now }
    ensures { (result ≡ line_at tape.now from) × LineIn result from (length tape.now) }
{
    let feed = find_line_feed(tape, from);
    if feed >= tape.len() {
        return Line {
            stop: feed,
            after: feed,
        };
    }
    if from >= feed {
        return Line {
            stop: feed,
            after: feed + 1,
        };
    }
    if tape[feed - 1] == b'\r' {
        return Line {
            stop: feed - 1,
            after: feed + 1,
        };
    }
    Line {
        stop: feed,
        after: feed + 1,
    }
}

// Past the `)` of the comment whose text begins at `from`.
#[tactic(auto, using(crate::proofs::Lining::gap_return))]
fn skip_comment(line: &[u8], from: usize) -> Gap
    requires { from ≤ length line.now }
    ensures { Closed result line.now from }
{
    let near = pass_stretches(line, from, b')', b'\r');
    for i in near..line.len() {
        let byte = line[i];
        if byte == b'\r' {
            return Gap::Fault;
        }
        if byte == b')' {
            return Gap::At(i + 1);
        }
    }
    Gap::Fault
}

// Past the spaces and comments that stand from `from` on.
pub fn skip_gap(line: &[u8], from: usize) -> Gap
    requires { from ≤ length line.now }
    ensures { (result ≡ gap_of false from (drop from line.now)) × GapIn result from (length line.now) }
{
    let mut i = from;
    while i < line.len() {
        match line[i] {
            b'(' => match skip_comment(line, i + 1) {
                Gap::Fault => return Gap::Fault,
                Gap::At(behind) => i = behind,
            },
            b' ' => i += 1,
            _ => return Gap::At(i),
        }
    }
    Gap::At(i)
}
