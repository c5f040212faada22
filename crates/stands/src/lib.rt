// What a motion asks of the other words of its block, and what it forbids: a row for each. (01: "no G04 with G25 or G27; .. G04 takes no path word; D4 stands with G04 (missing: a dwell
// of 0); D0 D2 D3 with G84; D3 D4 D5 with G86; no other P or D. G84 and G86 need one word of each axis, G86 also D5." 02, G85: "D words but D3 D4 D6 D7, an axis
// missing or D7 above 7 in 9"; G87 and G88: "X or U, no Z or W, or D words but D3 to D6 in 9"; arcs: "I or K beside another group 0 word in 9".)
#![tactic(auto)]

ghost use Rattle.std.specs.Prelude.{◌≡◌};
ghost use Rattle.stands.specs.Stands.{stands_freely, straight_with, cuts_with, drills_with, stands_with, stands_by};

use codes::{Code, Meaning, Motion};

// Which path words may stand, and which must: X or U, and Z or W.
#[derive(Clone, Copy)]
pub enum Path {
    Any,
    Forbidden,
    EachAxis,
    ZAlone,
}

#[derive(Clone, Copy)]
pub struct Stands {
    // the D words that it takes, by their indexes, NONE where there are no more
    pub takes: [usize; 4],
    // the D word that it needs, NONE for none
    pub needs: usize,
    // the D word that counts as bits, NONE for none
    pub bits: usize,
    pub path: Path,
    // whether I and K may stand
    pub centre: bool,
    // whether it may stand with G25 or G27, as far as this is asked by itself
    pub calls: bool,
}

// No index of a D word: those are 0 to 9.
pub const NONE: usize = 10;

// A D word that counts as bits has three of them.
pub const GREATEST_BITS: u32 = 7;

pub fn stands_freely() -> Stands
    ensures { result ≡ stands_freely }
{
    Stands {
        takes: [NONE; 4],
        needs: NONE,
        bits: NONE,
        path: Path::Any,
        centre: true,
        calls: true,
    }
}

// G00, G01 and G33: no D word, and no I or K.
fn straight_with() -> Stands
    ensures { result ≡ straight_with }
{
    Stands {
        takes: [NONE; 4],
        needs: NONE,
        bits: NONE,
        path: Path::Any,
        centre: false,
        calls: true,
    }
}

// G84, G85 and G86: a word of each axis, and their D words.
fn cuts_with(takes: [usize; 4], needs: usize, bits: usize) -> Stands
    ensures { result ≡ cuts_with takes needs bits }
{
    Stands {
        takes,
        needs,
        bits,
        path: Path::EachAxis,
        centre: false,
        calls: true,
    }
}

// G87 and G88 ask the same.
fn drills_with() -> Stands
    ensures { result ≡ drills_with }
{
    Stands {
        takes: [3, 4, 5, 6],
        needs: NONE,
        bits: NONE,
        path: Path::ZAlone,
        centre: false,
        calls: true,
    }
}

pub fn stands_with(m: Motion) -> Stands
    ensures { result ≡ stands_with m }
{
    match m {
        Motion::Rapid => straight_with(),
        Motion::Feed => straight_with(),
        Motion::Clockwise => stands_freely(),
        Motion::Counterclockwise => stands_freely(),
        Motion::Thread => straight_with(),
        Motion::Dwell => Stands {
            takes: [4, NONE, NONE, NONE],
            needs: NONE,
            bits: NONE,
            path: Path::Forbidden,
            centre: false,
            calls: false,
        },
        Motion::Turning => cuts_with([0, 2, 3, NONE], NONE, NONE),
        Motion::Threading => cuts_with([3, 4, 6, 7], NONE, 7),
        Motion::Grooving => cuts_with([3, 4, 5, NONE], 5, NONE),
        Motion::ChipBreaking => drills_with(),
        Motion::Redrawing => drills_with(),
    }
}

// What a G number asks: that of its motion, where it has one.
pub fn stands_by(code: Code) -> Stands
    ensures { result ≡ stands_by code }
{
    match code {
        Code::Of(_, meaning) => match meaning {
            Meaning::Moves(m) => stands_with(m),
            _ => stands_freely(),
        },
        Code::Unknown => stands_freely(),
    }
}
