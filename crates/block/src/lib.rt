// The words of a line as a block: how the line begins, an array of the applying words and one of their places, with a slot for each address and index, and for each group of G and M.
// (01: "Within a block, the last word of an address (for P and D, of an address and index) is the one that applies, and for G and M the last word of its group".)
// What the G and M numbers mean stands in `codes`, what words may stand together in `rules`.
#![tactic(auto)]

ghost use Rattle.std.specs.Prelude.{◌≡◌, ◌+◌, ◌≤◌, ◌<◌, length};
ghost use Rattle.addresses.specs.Words.{words_from};
ghost use Rattle.codes.specs.Codes.{g_code, m_code};
ghost use Rattle.block.specs.Slots.{slots, m_slot, d_slot, g_slot, has, code_in, g_in, m_in};
ghost use Rattle.block.specs.Words.{longest_line, SlotIn, code_slot, slot_of, no_words, is_end, is_program_address, faulty_rest, gather, head_by, start_of, StartIn, line_of};

use addresses::{NextWord, Word};
use codes::Code;

// The slots of a block's words, and how many there are: X Z U W I K F S T, the groups of M, P and D by their indexes, L, and the groups of G.
pub const SLOTS: usize = 42;

pub const X: usize = 0;

pub const Z: usize = 1;

pub const U: usize = 2;

pub const W: usize = 3;

pub const I: usize = 4;

pub const K: usize = 5;

pub const F: usize = 6;

pub const S: usize = 7;

pub const T: usize = 8;

// M03 M04 M05; M00 M17 M30; M08 M09
const M: usize = 9;

pub const SPINDLE: usize = M + 0;

pub const FLOW: usize = M + 2;

pub const COOLANT: usize = M + 3;

// P0 and D0; the other indexes follow
pub const P: usize = 13;

pub const D: usize = 23;

pub const L: usize = 33;

// G00 to G03 G33 G04 G84 to G88; G96 G97; G94 G95; G53 to G55; G56 to G59; G25 G27
const G: usize = 34;

pub const MOTION: usize = G + 0;

pub const SPEED_MODE: usize = G + 1;

pub const FEED_MODE: usize = G + 2;

pub const SHIFT3: usize = G + 3;

pub const SHIFT5: usize = G + 5;

pub const STEERING: usize = G + 6;

// What a block holds behind its number. The place of a slot is where its applying word stands among
// these words, counted from 1, and 0 where no word applies.
#[derive(Clone, Copy)]
pub struct Block {
    pub value: [i32; SLOTS],
    pub place: [u8; SLOTS],
    // how many words there are
    pub words: u8,
    // an N word stands among them
    pub late: bool,
    // a G or M number stands among them that is none of the paper's
    pub unknown: bool,
    // the last of them is M30
    pub ends: bool,
    // an X Z U W word stands among them that has no point and is not 0
    pub pointless: bool,
}

// The longest line, line end not counted (alarm 7).
pub const LONGEST_LINE: usize = 160;

// How a line begins; where that is another word, whether it is one of X Z U W that has no point and is not 0.
#[derive(Clone, Copy)]
pub enum Head {
    Blank,
    ProgramLine(u32),
    BlockLine(u32),
    Other(bool),
}

// What a line starts with: a word, by how the line begins with it and the place behind it; or none; or a fault.
#[derive(Clone, Copy)]
pub enum LineStart {
    Blank,
    Fault,
    With(Head, usize),
}

// A line as it is read: how it begins, the words behind that, and whether it has a fault (alarm 5).
#[derive(Clone, Copy)]
pub struct ReadLine {
    pub head: Head,
    pub block: Block,
    pub faulty: bool,
}

#[derive(Clone, Copy)]
pub struct Rest {
    pub block: Block,
    pub faulty: bool,
}

// Where a word goes.
#[derive(Clone, Copy)]
pub enum Slot {
    At(usize),
    Late,
    Unknown,
}

// The slot of a G word and of an M word: that of its group.
fn g_slot(n: u32) -> Slot
    ensures { (result ≡ code_slot (g_code n) g_slot) × SlotIn result }
{
    let code = codes::g_code(n);
    match code {
        Code::Of(group, _) => Slot::At(G + group),
        Code::Unknown => Slot::Unknown,
    }
}

fn m_slot(n: u32) -> Slot
    ensures { (result ≡ code_slot (m_code n) m_slot) × SlotIn result }
{
    let code = codes::m_code(n);
    match code {
        Code::Of(group, _) => Slot::At(M + group),
        Code::Unknown => Slot::Unknown,
    }
}

// Where a word goes. Every word that is read has an index of one digit.
fn slot_of(w: Word) -> Slot
    requires { w.index < 10 }
    ensures { (result ≡ slot_of w) × SlotIn result }
{
    let address = w.address;
    let index = usize::from(w.index);
    match address {
        b'X' => Slot::At(X),
        b'Z' => Slot::At(Z),
        b'U' => Slot::At(U),
        b'W' => Slot::At(W),
        b'I' => Slot::At(I),
        b'K' => Slot::At(K),
        b'F' => Slot::At(F),
        b'S' => Slot::At(S),
        b'T' => Slot::At(T),
        b'L' => Slot::At(L),
        b'P' => Slot::At(P + index),
        b'D' => Slot::At(D + index),
        b'G' => g_slot(whole::magnitude(w.value)),
        b'M' => m_slot(whole::magnitude(w.value)),
        b'N' => Slot::Late,
        _ => Slot::Unknown,
    }
}

// Whether a word applies in a slot.
pub fn has(b: Block, k: usize) -> bool
    requires { k < slots }
    ensures { result ≡ has b k }
{
    b.place[k] != 0
}

// The number in a slot whose words have no sign.
pub fn code_in(b: Block, k: usize) -> u32
    requires { k < slots }
    ensures { result ≡ code_in b k }
{
    whole::magnitude(b.value[k])
}

// What the G word means that applies in a slot of G; where there is none it is no code.
pub fn g_in(b: Block, k: usize) -> Code
    requires { k < slots }
    ensures { result ≡ g_in b k }
{
    if has(b, k) {
        let n = code_in(b, k);
        return codes::g_code(n);
    }
    Code::Unknown
}

// What the M word means that applies in a slot of M; where there is none it is no code.
pub fn m_in(b: Block, k: usize) -> Code
    requires { k < slots }
    ensures { result ≡ m_in b k }
{
    if has(b, k) {
        let n = code_in(b, k);
        return codes::m_code(n);
    }
    Code::Unknown
}

// The slot of the D word of an index.
pub fn d_slot(index: usize) -> usize
    requires { index < 10 }
    ensures { result ≡ d_slot index }
{
    D + index
}

pub fn no_words() -> Block
    ensures { result ≡ no_words }
{
    Block {
        value: [0i32; SLOTS],
        place: [0u8; SLOTS],
        words: 0,
        late: false,
        unknown: false,
        ends: false,
        pointless: false,
    }
}

// Whether a word is M30.
fn is_end(w: Word) -> bool
    ensures { result ≡ is_end w }
{
    if w.address == b'M' {
        let n = whole::magnitude(w.value);
        return acts::ends_by(codes::m_code(n));
    }
    false
}

// Whether an address is that of a program number.
fn is_program_address(address: u8) -> bool
    ensures { result ≡ is_program_address address }
{
    (address == b'%') | (address == b'O')
}

fn faulty_rest() -> Rest
    ensures { result ≡ faulty_rest }
{
    Rest {
        block: no_words(),
        faulty: true,
    }
}

// The words of a line from `from` on, each put into the block where it belongs: the last word of a slot is the one that applies. A line that is not too long has no more words
// than a byte can count.
pub fn read_rest(line: &[u8], from: usize) -> Rest
    requires { (from ≤ length line.now) × (length line.now ≤ longest_line) }
    ensures { result ≡ gather no_words (words_from line.now from) }
{
    let mut b = no_words();
    let mut i = from;
    loop {
        let next = addresses::next_word(line, i);
        match next {
            NextWord::Fault => return faulty_rest(),
            NextWord::End => {
                return Rest {
                    block: b,
                    faulty: false,
                };
            }
            NextWord::Word(w, end) => {
                if is_program_address(w.address) {
                    return faulty_rest();
                }
                let slot = slot_of(w);
                let value = w.value;
                let ends = is_end(w);
                let lacks = addresses::lacks_point(w);
                let n = b.words + 1;
                i = end;
                b.words = n;
                b.ends = ends;
                b.pointless = b.pointless | lacks;
                match slot {
                    Slot::At(k) => {
                        b.value[k] = value;
                        b.place[k] = n;
                    }
                    Slot::Late => b.late = true,
                    Slot::Unknown => b.unknown = true,
                }
            }
        }
    }
}

fn head_by(w: Word) -> Head
    ensures { result ≡ head_by w }
{
    let address = w.address;
    let number = whole::magnitude(w.value);
    match address {
        b'%' | b'O' => Head::ProgramLine(number),
        b'N' => Head::BlockLine(number),
        _ => Head::Other(addresses::lacks_point(w)),
    }
}

// What a line starts with, by its first word alone.
pub fn start_of(line: &[u8]) -> LineStart
    ensures { (result ≡ start_of line.now) × StartIn result (length line.now) }
{
    let next = addresses::next_word(line, 0);
    match next {
        NextWord::Fault => LineStart::Fault,
        NextWord::End => LineStart::Blank,
        NextWord::Word(w, end) => LineStart::With(head_by(w), end),
    }
}

// The text of a whole line that is not too long (alarm 7 is judged before).
pub fn read_line(line: &[u8]) -> ReadLine
    requires { length line.now ≤ longest_line }
    ensures { result ≡ line_of line.now }
{
    let next = addresses::next_word(line, 0);
    match next {
        NextWord::Fault => ReadLine {
            head: Head::Blank,
            block: no_words(),
            faulty: true,
        },
        NextWord::End => ReadLine {
            head: Head::Blank,
            block: no_words(),
            faulty: false,
        },
        NextWord::Word(w, end) => {
            let rest = read_rest(line, end);
            let block = rest.block;
            ReadLine {
                head: head_by(w),
                block,
                faulty: rest.faulty,
            }
        }
    }
}
