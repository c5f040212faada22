// A grooving cycle in words.
ghost use Rattle.std.specs.Prelude.{◌≡◌, ◌+◌, ◌≤◌, length};
ghost use Rattle.cells.specs.Numbers.{at};
ghost use Rattle.cyclewords.specs.Sizes.{due_words};
ghost use Rattle.cyclewords.specs.Grooved.{grooving_tag, stage_of, way_at, groove_at, grooving_of};

use crate::DUE_WORDS;
use grooving::{Groove, Way};
use plunges::{Cursor, Stage};

pub const TAG: u32 = 10;

const CUT: u32 = 0;

const BACK: u32 = 1;

const DWELL: u32 = 2;

const OUT: u32 = 3;

const ACROSS: u32 = 4;

const OVER: u32 = 5;

fn stage_word(stage: Stage) -> u32
    ensures { stage_of result ≡ stage }
{
    match stage {
        Stage::Cut => CUT,
        Stage::Back => BACK,
        Stage::Dwell => DWELL,
        Stage::Out => OUT,
        Stage::Across => ACROSS,
        Stage::Over => OVER,
    }
}

fn stage_of(u: u32) -> Stage
    ensures { result ≡ stage_of u }
{
    match u {
        CUT => Stage::Cut,
        BACK => Stage::Back,
        DWELL => Stage::Dwell,
        OUT => Stage::Out,
        ACROSS => Stage::Across,
        _ => Stage::Over,
    }
}

fn groove_words(g: Groove) -> [u32; 12]
    ensures { groove_at result 0 ≡ g }
{
    let depth = g.depth;
    let width = g.width;
    let facing = cells::figures::flag_word(g.facing);
    let top = cells::figures::word_of(depth.start);
    let bottom = cells::figures::word_of(depth.target);
    let first = cells::figures::word_of(width.start);
    let last = cells::figures::word_of(width.target);
    let g95 = cells::figures::flag_word(g.g95);
    [
        facing, top, bottom, first, last, g.tool, g.overlap, g.piece, g.back, g.dwell, g.f, g95,
    ]
}

pub fn words_of(hand: u32, c: Cursor) -> [u32; DUE_WORDS]
    ensures { (at result 0 ≡ hand) × (at result 1 ≡ grooving_tag) × (grooving_of result ≡ c) }
{
    let present = c.stage;
    let groove = groove_words(c.groove);
    let stage = stage_word(present);
    let width = cells::figures::word_of(c.width);
    let several = cells::figures::flag_word(c.several);
    [
        hand,
        TAG,
        groove[0],
        groove[1],
        groove[2],
        groove[3],
        groove[4],
        groove[5],
        groove[6],
        groove[7],
        groove[8],
        groove[9],
        groove[10],
        groove[11],
        stage,
        width,
        c.deep,
        c.cuts.piece,
        c.cuts.remainder,
        c.cuts.left,
        c.plunge.piece,
        c.plunge.remainder,
        c.plunge.left,
        c.steps.piece,
        c.steps.remainder,
        c.steps.left,
        several,
    ]
}

fn way_at(w: &[u32], at: usize) -> Way
    requires { at + 2 ≤ length w.now }
    ensures { result ≡ way_at w.now at }
{
    Way {
        start: cells::figures::signed_at(w, at),
        target: cells::figures::signed_at(w, at + 1),
    }
}

fn groove_of(w: &[u32]) -> Groove
    requires { length w.now ≡ due_words }
    ensures { result ≡ groove_at w.now 2 }
{
    let depth = way_at(w, 3);
    let width = way_at(w, 5);
    Groove {
        facing: cells::figures::flag_at(w, 2),
        depth,
        width,
        tool: w[7],
        overlap: w[8],
        piece: w[9],
        back: w[10],
        dwell: w[11],
        f: w[12],
        g95: cells::figures::flag_at(w, 13),
    }
}

pub fn cursor_of(w: &[u32]) -> Cursor
    requires { length w.now ≡ due_words }
    ensures { result ≡ grooving_of w.now }
{
    let groove = groove_of(w);
    let stage = stage_of(w[14]);
    let cuts = cells::figures::pieces_at(w, 17);
    let plunge = cells::figures::pieces_at(w, 20);
    let steps = cells::figures::pieces_at(w, 23);
    Cursor {
        groove,
        stage,
        width: cells::figures::signed_at(w, 15),
        deep: w[16],
        cuts,
        plunge,
        steps,
        several: cells::figures::flag_at(w, 26),
    }
}
