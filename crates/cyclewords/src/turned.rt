// A turning cycle in words.
ghost use Rattle.std.specs.Prelude.{◌≡◌, length};
ghost use Rattle.cells.specs.Numbers.{at, signed_at, side_of};
ghost use Rattle.cyclewords.specs.Sizes.{due_words};
ghost use Rattle.cyclewords.specs.Turned.{turning_tag, pass_at, turning_of};

use crate::{DUE_WORDS, passing};
use passes::Cursor;
use turning::Pass;

pub const TAG: u32 = 8;

// The pass, the side and the line.
fn front_words(c: Cursor) -> [u32; 8]
    ensures { (pass_at result 0 ≡ c.pass) × (side_of (at result 6) ≡ c.side) × (signed_at result 7 ≡ c.line) }
{
    let pass = c.pass;
    let way = c.side;
    let facing = cells::figures::flag_word(pass.facing);
    let g95 = cells::figures::flag_word(pass.g95);
    let from = cells::figures::word_of(pass.from);
    let home = cells::figures::word_of(pass.home);
    let end = cells::figures::word_of(pass.end);
    let side = cells::figures::side_word(way);
    let line = cells::figures::word_of(c.line);
    [facing, pass.f, g95, from, home, end, side, line]
}

pub fn words_of(hand: u32, c: Cursor) -> [u32; DUE_WORDS]
    ensures { (at result 0 ≡ hand) × (at result 1 ≡ turning_tag) × (turning_of result ≡ c) }
{
    let depths = c.depths;
    let present = c.stage;
    let front = front_words(c);
    let stage = passing::stage_word(present);
    [
        hand,
        TAG,
        front[0],
        front[1],
        front[2],
        front[3],
        front[4],
        front[5],
        front[6],
        front[7],
        depths.piece,
        depths.remainder,
        depths.left,
        stage,
        0,
        0,
        0,
        0,
        0,
        0,
        0,
        0,
        0,
        0,
        0,
        0,
        0,
    ]
}

fn pass_of(w: &[u32]) -> Pass
    requires { length w.now ≡ due_words }
    ensures { result ≡ pass_at w.now 2 }
{
    Pass {
        facing: cells::figures::flag_at(w, 2),
        f: w[3],
        g95: cells::figures::flag_at(w, 4),
        from: cells::figures::signed_at(w, 5),
        home: cells::figures::signed_at(w, 6),
        end: cells::figures::signed_at(w, 7),
    }
}

pub fn cursor_of(w: &[u32]) -> Cursor
    requires { length w.now ≡ due_words }
    ensures { result ≡ turning_of w.now }
{
    let pass = pass_of(w);
    let depths = cells::figures::pieces_at(w, 10);
    let side = cells::figures::side_of(w[8]);
    let stage = passing::stage_of(w[13]);
    Cursor {
        pass,
        side,
        line: cells::figures::signed_at(w, 9),
        depths,
        stage,
    }
}
