// A drilling cycle in words.
ghost use Rattle.std.specs.Prelude.{◌≡◌, length};
ghost use Rattle.cells.specs.Numbers.{at};
ghost use Rattle.cyclewords.specs.Sizes.{due_words};
ghost use Rattle.cyclewords.specs.Drilled.{drilling_tag, stage_of, bore_at, drilling_of};

use crate::DUE_WORDS;
use bores::{Cursor, Stage};
use drilling::Bore;

pub const TAG: u32 = 11;

const BITE: u32 = 0;

const HOME: u32 = 1;

const BACK: u32 = 2;

const DWELL: u32 = 3;

const OUT: u32 = 4;

const OVER: u32 = 5;

fn stage_word(stage: Stage) -> u32
    ensures { stage_of result ≡ stage }
{
    match stage {
        Stage::Bite => BITE,
        Stage::Home => HOME,
        Stage::Back => BACK,
        Stage::Dwell => DWELL,
        Stage::Out => OUT,
        Stage::Over => OVER,
    }
}

fn stage_of(u: u32) -> Stage
    ensures { result ≡ stage_of u }
{
    match u {
        BITE => Stage::Bite,
        HOME => Stage::Home,
        BACK => Stage::Back,
        DWELL => Stage::Dwell,
        OUT => Stage::Out,
        _ => Stage::Over,
    }
}

fn bore_words(b: Bore) -> [u32; 11]
    ensures { bore_at result 0 ≡ b }
{
    let full = cells::figures::flag_word(b.full);
    let x = cells::figures::word_of(b.x);
    let start = cells::figures::word_of(b.start);
    let target = cells::figures::word_of(b.target);
    let g95 = cells::figures::flag_word(b.g95);
    [
        full, x, start, target, b.first, b.less, b.least, b.dwell, b.back, b.f, g95,
    ]
}

pub fn words_of(hand: u32, c: Cursor) -> [u32; DUE_WORDS]
    ensures { (at result 0 ≡ hand) × (at result 1 ≡ drilling_tag) × (drilling_of result ≡ c) }
{
    let present = c.stage;
    let bore = bore_words(c.bore);
    let stage = stage_word(present);
    [
        hand, TAG, bore[0], bore[1], bore[2], bore[3], bore[4], bore[5], bore[6], bore[7], bore[8],
        bore[9], bore[10], stage, c.deep, c.bite, c.left, 0, 0, 0, 0, 0, 0, 0, 0, 0, 0,
    ]
}

fn bore_of(w: &[u32]) -> Bore
    requires { length w.now ≡ due_words }
    ensures { result ≡ bore_at w.now 2 }
{
    Bore {
        full: cells::figures::flag_at(w, 2),
        x: cells::figures::signed_at(w, 3),
        start: cells::figures::signed_at(w, 4),
        target: cells::figures::signed_at(w, 5),
        first: w[6],
        less: w[7],
        least: w[8],
        dwell: w[9],
        back: w[10],
        f: w[11],
        g95: cells::figures::flag_at(w, 12),
    }
}

pub fn cursor_of(w: &[u32]) -> Cursor
    requires { length w.now ≡ due_words }
    ensures { result ≡ drilling_of w.now }
{
    let bore = bore_of(w);
    let stage = stage_of(w[13]);
    Cursor {
        bore,
        stage,
        deep: w[14],
        bite: w[15],
        left: w[16],
    }
}
