// A listing compared with the one that is wanted, line by line.
// A line `*N` in the listing that is wanted says that the line before it stands N times more: so a list of thousands of equal records stays short.
ghost use Rattle.stored.specs.Texts.{FromOne};

use crate::text;
use numbers::{Number, NumberForm};
use std::fmt;

// The first line of the listing that is not as it should be counts from 1. A case whose settings cannot be read compares nothing.
#[derive(Clone, Copy)]
pub enum Verdict {
    Agrees,
    Differs(usize),
    Unread,
}

impl fmt::Display for Verdict {
    fn fmt<W: fmt::Write>(&self, f: &mut fmt::Formatter<W>) -> fmt::Result {
        match self {
            Verdict::Agrees => write!(f, "agrees"),
            Verdict::Differs(line) => write!(f, "DIFFERS at line {line}"),
            Verdict::Unread => write!(f, "HAS NO SETTINGS"),
        }
    }
}

// The listing that is wanted: the line that stands, how often it stands yet, and what stands behind it.
#[derive(Clone, Copy)]
struct Wanted<'a> {
    line: &'a [u8],
    left: u32,
    behind: &'a [u8],
}

// How often a line `*N` repeats the one before it, and 0 where the line is another.
fn repeats(line: &[u8]) -> u32 {
    let [b'*', digits @ ..] = line else {
        return 0;
    };
    let number = numbers::read_number(digits, NumberForm::FourDigits);
    match number {
        Number::Value(n, _) => whole::magnitude(n),
        Number::Bad => 0,
    }
}

impl<'a> Wanted<'a> {
    // What is wanted before the first line.
    fn of(want: &'a [u8]) -> Wanted<'a> {
        Wanted {
            line: &[],
            left: 0,
            behind: want,
        }
    }

    // The next line. Behind the last it is empty.
    fn next_line(&mut self) -> &'a [u8] {
        if self.left > 0 {
            self.left -= 1;
            return self.line;
        }
        let (line, behind) = text::split_line(self.behind);
        let (second, behind_second) = text::split_line(behind);
        self.line = line;
        self.left = repeats(second);
        self.behind = if self.left > 0 { behind_second } else { behind };
        line
    }

    fn is_over(&self) -> bool {
        self.left == 0 && self.behind.is_empty()
    }
}

// Compares a listing with the one that is wanted.
pub fn compare(made: &[u8], want: &[u8]) -> Verdict
    ensures { FromOne result }
{
    let mut wanted = Wanted::of(want);
    let mut rest = made;
    let mut number = 1;
    while !rest.is_empty() {
        let (line, behind) = text::split_line(rest);
        if !text::same(line, wanted.next_line()) {
            return Verdict::Differs(number);
        }
        number += 1;
        rest = behind;
    }
    if wanted.is_over() {
        Verdict::Agrees
    } else {
        Verdict::Differs(number)
    }
}
