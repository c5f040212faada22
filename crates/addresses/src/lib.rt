// The words of a line, one after the other: an address, for P and D an index digit and `=`, and a number part.
// A word's number part runs to the next letter, `%`, space, `(` or the line's end, and goes to the one number reader.
#![tactic(auto)]

ghost use Rattle.std.specs.Prelude.{◌≡◌, ◌≤◌, ◌<◌, length};
ghost use Rattle.tape.specs.Lines.{seek_from};
ghost use Rattle.addresses.specs.Words.{capital, ends_number, form_of, number_word, index_of, IndexIn, word_at, next_word, lacks_point, NextIn};

use numbers::{Number, NumberForm};
use tape::line::Gap;

// A word as it is written: its address as a capital, its index (0 but for P and D), its number, and whether that had a point.
#[derive(Clone, Copy)]
pub struct Word {
    pub address: u8,
    pub index: u8,
    pub value: i32,
    pub pointed: bool,
}

// The next word and the place behind it, or the line's end, or a fault, which is alarm 5. `%` and `O` are words here: that they stand
// behind no other word is seen where a line's words are put together.
#[derive(Clone, Copy)]
pub enum NextWord {
    Word(Word, usize),
    End,
    Fault,
}

// The form of number that an address takes.
#[derive(Clone, Copy)]
pub enum Address {
    Known(NumberForm),
    Unknown,
}

// The index of a word and the place of its number, or that they are not written as they must be.
#[derive(Clone, Copy)]
pub enum Index {
    At(u8, usize),
    Bad,
}

fn capital_of(b: u8) -> u8
    ensures { result ≡ capital b }
{
    match b {
        b'a'..=b'z' => b - 32,
        _ => b,
    }
}

// Whether a byte ends the number before it: a letter, `%`, a space or `(`.
fn ends_number(b: u8) -> bool
    ensures { result ≡ ends_number b }
{
    match b {
        b'A'..=b'Z' => true,
        b'a'..=b'z' => true,
        b'%' | b' ' | b'(' => true,
        _ => false,
    }
}

fn number_end(line: &[u8], from: usize) -> usize
    requires { from ≤ length line.now }
    ensures { (result ≡ seek_from ends_number line.now from) × (from ≤ result) × (result ≤ length line.now) }
{
    for i in from..line.len() {
        if ends_number(line[i]) {
            return i;
        }
    }
    line.len()
}

// The form of number that an address takes, which is a capital.
fn form_of(address: u8) -> Address
    ensures { result ≡ form_of address }
{
    match address {
        b'X' | b'Z' | b'U' | b'W' | b'I' | b'K' | b'P' => Address::Known(NumberForm::Path),
        b'G' | b'M' => Address::Known(NumberForm::TwoDigits),
        b'N' | b'F' | b'S' | b'T' | b'%' | b'O' => Address::Known(NumberForm::FourDigits),
        b'L' => Address::Known(NumberForm::FiveDigits),
        b'D' => Address::Known(NumberForm::DNumber),
        _ => Address::Unknown,
    }
}

// The word of an address and an index whose number part stands from `from` to `end`.
fn number_word(
    line: &[u8],
    address: u8,
    index: u8,
    form: NumberForm,
    from: usize,
    end: usize,
) -> NextWord
    requires { (from ≤ end) × (end ≤ length line.now) }
    ensures { result ≡ number_word line.now address index form from end }
{
    let number = numbers::read_number(&line[from..end], form);
    match number {
        Number::Bad => NextWord::Fault,
        Number::Value(value, pointed) => NextWord::Word(
            Word {
                address,
                index,
                value,
                pointed,
            },
            end,
        ),
    }
}

// The index of a word whose number part ends at `end`, and where its number begins: for P and D behind an index digit and `=`, else at once.
fn index_of(line: &[u8], address: u8, from: usize, end: usize) -> Index
    requires { (from ≤ end) × (end ≤ length line.now) }
    ensures { (result ≡ index_of line.now address from end) × IndexIn result end }
{
    if (address != b'P') & (address != b'D') {
        return Index::At(0, from);
    }
    if end - from < 2 {
        return Index::Bad;
    }
    let digit = line[from];
    if digit < b'0' {
        return Index::Bad;
    }
    if digit > b'9' {
        return Index::Bad;
    }
    if line[from + 1] != b'=' {
        return Index::Bad;
    }
    Index::At(digit - b'0', from + 2)
}

// The word whose address stands at p.
fn word_at(line: &[u8], p: usize) -> NextWord
    requires { p < length line.now }
    ensures { (result ≡ word_at line.now p) × NextIn result p (length line.now) }
{
    let address = capital_of(line[p]);
    let from = p + 1;
    let end = number_end(line, from);
    let index = index_of(line, address, from, end);
    match index {
        Index::Bad => NextWord::Fault,
        Index::At(digit, number) => {
            let known = form_of(address);
            match known {
                Address::Unknown => NextWord::Fault,
                Address::Known(form) => number_word(line, address, digit, form, number, end),
            }
        }
    }
}

// The next word from `from` on.
pub fn next_word(line: &[u8], from: usize) -> NextWord
    requires { from ≤ length line.now }
    ensures { (result ≡ next_word line.now from) × NextIn result from (length line.now) }
{
    let gap = tape::line::skip_gap(line, from);
    match gap {
        Gap::Fault => NextWord::Fault,
        Gap::At(p) => {
            if p >= line.len() {
                return NextWord::End;
            }
            word_at(line, p)
        }
    }
}

// Whether a word of X Z U W was written without a point and is not 0. (02: "Zero without a point stays allowed".)
pub fn lacks_point(w: Word) -> bool
    ensures { result ≡ lacks_point w }
{
    if w.pointed {
        return false;
    }
    let address = w.address;
    let asked = (address == b'X') | ((address == b'Z') | ((address == b'U') | (address == b'W')));
    if !asked {
        return false;
    }
    whole::magnitude(w.value) != 0
}
