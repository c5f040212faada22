// A threading cycle in words.
ghost use Rattle.std.specs.Prelude.{◌≡◌, length};
ghost use Rattle.cells.specs.Numbers.{at, signed_at, side_of};
ghost use Rattle.cyclewords.specs.Sizes.{due_words};
ghost use Rattle.cyclewords.specs.Threaded.{threading_tag, pass_at, threading_of};

use crate::{DUE_WORDS, passing};
use threading::Pass;
use threads::Cursor;

pub const TAG: u32 = 9;

// The pass, the side, the line and the depth.
fn front_words(c: Cursor) -> [u32; 8]
    ensures { (pass_at result 0 ≡ c.pass) × (side_of (at result 5) ≡ c.side) × (signed_at result 6 ≡ c.line) × (at result 7 ≡ c.depth) }
{
    let pass = c.pass;
    let way = c.side;
    let facing = cells::figures::flag_word(pass.facing);
    let from = cells::figures::word_of(pass.from);
    let home = cells::figures::word_of(pass.home);
    let end = cells::figures::word_of(pass.end);
    let side = cells::figures::side_word(way);
    let line = cells::figures::word_of(c.line);
    [facing, pass.pitch, from, home, end, side, line, c.depth]
}

pub fn words_of(hand: u32, c: Cursor) -> [u32; DUE_WORDS]
    ensures { (at result 0 ≡ hand) × (at result 1 ≡ threading_tag) × (threading_of result ≡ c) }
{
    let left = c.cuts;
    let present = c.stage;
    let front = front_words(c);
    let cuts = crate::cutting::words_of(left);
    let stage = passing::stage_word(present);
    [
        hand, TAG, front[0], front[1], front[2], front[3], front[4], front[5], front[6], front[7],
        cuts[0], cuts[1], cuts[2], cuts[3], cuts[4], cuts[5], cuts[6], cuts[7], c.empty, stage, 0,
        0, 0, 0, 0, 0, 0,
    ]
}

fn pass_of(w: &[u32]) -> Pass
    requires { length w.now ≡ due_words }
    ensures { result ≡ pass_at w.now 2 }
{
    Pass {
        facing: cells::figures::flag_at(w, 2),
        pitch: w[3],
        from: cells::figures::signed_at(w, 4),
        home: cells::figures::signed_at(w, 5),
        end: cells::figures::signed_at(w, 6),
    }
}

pub fn cursor_of(w: &[u32]) -> Cursor
    requires { length w.now ≡ due_words }
    ensures { result ≡ threading_of w.now }
{
    let pass = pass_of(w);
    let side = cells::figures::side_of(w[7]);
    let cuts = crate::cutting::cuts_at(w, 10);
    let stage = passing::stage_of(w[19]);
    Cursor {
        pass,
        side,
        line: cells::figures::signed_at(w, 8),
        depth: w[9],
        cuts,
        empty: w[18],
        stage,
    }
}
