// The word rules. (01: "Word rules, else alarm 9".) What a line shows by itself stands in `showing`.
// What a G or M asks or forbids holds only where that word applies: those rules look at the applying words alone.
#![tactic(auto)]

ghost use Rattle.std.specs.Prelude.{◌≡◌, not, ◌&&◌, ◌-◌, ◌≤◌, eqb};
ghost use Rattle.stands.specs.Stands.{none, is_taken};
ghost use Rattle.block.specs.Slots.{slots, numbers_from, any_in};
ghost use Rattle.rules.specs.Rules.{calls_or_jumps, axis_twice, l_word_wrong, more_than_l, call_wrong, path_wrong, centre_wrong, d_word_wrong, d_word_missing, bits_wrong, motion_wrong, broken};

use block::{Block, has};
use stands::Path;

// P and D have the indexes 0 to 9.
const INDEXES: usize = 10;

// Whether a word applies in any of the slots from `from` to before `to`. All of them are looked at, so that the compiler compares them at once.
fn any(b: Block, from: usize, to: usize) -> bool
    requires { (from ≤ to) × (to ≤ slots) }
    ensures { result ≡ any_in b (numbers_from from (to - from)) }
{
    b.place[from..to]
        .iter()
        .fold(false, |found, place| found | (*place != 0))
}

// Whether the block is a G25 or a G27 block.
fn calls_or_jumps(b: Block) -> bool
    ensures { result ≡ calls_or_jumps b }
{
    has(b, block::STEERING)
}

// "not X with U, nor Z with W"
fn axis_twice(b: Block) -> bool
    ensures { result ≡ axis_twice b }
{
    let x = has(b, block::X) & has(b, block::U);
    let z = has(b, block::Z) & has(b, block::W);
    x | z
}

// "a G25 or G27 block .. must have L, and no other block has L"
fn l_word_wrong(b: Block) -> bool
    ensures { result ≡ l_word_wrong b }
{
    let label = has(b, block::L);
    let calls = calls_or_jumps(b);
    (calls & !label) | (!calls & label)
}

// "a G25 or G27 block holds N, G and L words only"
fn more_than_l(b: Block) -> bool
    ensures { result ≡ more_than_l b }
{
    if !calls_or_jumps(b) {
        return false;
    }
    any(b, block::X, block::L)
}

// "no G04 with G25 or G27"
fn call_wrong(calls: bool, b: Block) -> bool
    ensures { result ≡ call_wrong calls b }
{
    !calls & calls_or_jumps(b)
}

// "G04 takes no path word"; "G84 and G86 need one word of each axis"; 02, G87 and G88: "X or U, no Z or W .. in 9"
fn path_wrong(path: Path, b: Block) -> bool
    ensures { result ≡ path_wrong path b }
{
    let x = has(b, block::X) | has(b, block::U);
    let z = has(b, block::Z) | has(b, block::W);
    match path {
        Path::Any => false,
        Path::Forbidden => x | z,
        Path::EachAxis => !(x & z),
        Path::ZAlone => x | !z,
    }
}

// 02: "I or K beside another group 0 word in 9"
fn centre_wrong(centre: bool, b: Block) -> bool
    ensures { result ≡ centre_wrong centre b }
{
    !centre & (has(b, block::I) | has(b, block::K))
}

// Whether the D word of an index is one of those that are taken.
fn is_taken(takes: [usize; 4], i: usize) -> bool
    ensures { result ≡ is_taken takes i }
{
    takes.contains(&i)
}

// Whether the D word of an index, whose place this is, stands in the block and is not taken.
fn is_foreign(takes: [usize; 4], place: u8, i: usize) -> bool
    ensures { result ≡ not (eqb place 0) && not (is_taken takes i) }
{
    if place == 0 {
        return false;
    }
    !is_taken(takes, i)
}

// "no other P or D": a D word that the block's motion does not take.
fn d_word_wrong(takes: [usize; 4], b: Block) -> bool
    ensures { result ≡ d_word_wrong takes b }
{
    (0..INDEXES).any(|i| is_foreign(takes, b.place[block::D + i], i))
}

// "G86 also D5"
fn d_word_missing(needs: usize, b: Block) -> bool
    requires { needs ≤ none }
    ensures { result ≡ d_word_missing needs b }
{
    if needs == stands::NONE {
        return false;
    }
    !has(b, block::d_slot(needs))
}

// "D7 above 7": the D word that counts as bits.
fn bits_wrong(bits: usize, b: Block) -> bool
    requires { bits ≤ none }
    ensures { result ≡ bits_wrong bits b }
{
    if bits == stands::NONE {
        return false;
    }
    stands::GREATEST_BITS < block::code_in(b, block::d_slot(bits))
}

// Whether the block has a word that its own motion forbids, or lacks one that it asks for.
fn motion_wrong(b: Block) -> bool
    ensures { result ≡ motion_wrong b }
{
    let asks = stands::stands_by(block::g_in(b, block::MOTION));
    let path = asks.path;
    let takes = asks.takes;
    let call = call_wrong(asks.calls, b);
    let centre = centre_wrong(asks.centre, b);
    let settings = any(b, block::P, block::D) | d_word_wrong(takes, b);
    let missing = d_word_missing(asks.needs, b);
    let bits = bits_wrong(asks.bits, b);
    call | (path_wrong(path, b) | (centre | (settings | (missing | bits))))
}

// Whether a block breaks a word rule.
pub fn breaks_rules(b: Block) -> bool
    ensures { result ≡ broken b }
{
    let codes = b.unknown | b.late;
    let axes = axis_twice(b);
    let labels = l_word_wrong(b) | more_than_l(b);
    codes | (axes | (labels | motion_wrong(b)))
}
