// The machine between two blocks: the modal words, what holds from one block to the next and what a block's own words make of it, a function for each: kept motion, G9x, shifts, correction, F, the due G00.
// A block's G and T words act before its move, and hold for its own records. (01: "Running a block".) Offsets and targets stand in `targets`, what a block asks of the runner in `requests`.
// What a block then does, and its alarms, are known to the crates built on these.
#![tactic(auto)]

ghost use Rattle.std.specs.Prelude.{◌≡◌};
ghost use Rattle.state.specs.Modal.{at_start, block_motion, correction_after, feed_after, due_after, settled};

use acts::Kept;
use block::{Block, code_in, g_in};

// The machine between two blocks. The shifts are the numbers of those in force, 0 for none, as the correction number is; F is 0 where none was given; `rapid_due` is whether the next
// traverse must be a G00.
#[derive(Clone, Copy)]
pub struct State {
    pub motion: Kept,
    pub g96: bool,
    pub g95: bool,
    pub shift_group3: u32,
    pub shift_group5: u32,
    pub correction: u32,
    pub f: u32,
    pub rapid_due: bool,
    pub x: i32,
    pub z: i32,
}

// "At the start: no motion function, G97, G95, G53, G56, tool correction 0, no F."
pub fn at_start(x: i32, z: i32) -> State
    ensures { result ≡ at_start x z }
{
    State {
        motion: Kept::Nothing,
        g96: false,
        g95: true,
        shift_group3: 0,
        shift_group5: 0,
        correction: 0,
        f: 0,
        rapid_due: false,
        x,
        z,
    }
}

// The motion of a block: that of its own word of group 0, else the kept one.
pub fn block_motion(before: Kept, b: Block) -> Kept
    ensures { result ≡ block_motion before b }
{
    acts::motion_by(g_in(b, block::MOTION), before)
}

// "T is turret position times 100 plus correction number"
fn correction_after(before: u32, b: Block) -> u32
    ensures { result ≡ correction_after before b }
{
    if block::has(b, block::T) {
        return code_in(b, block::T) % 100;
    }
    before
}

fn feed_after(before: u32, b: Block) -> u32
    ensures { result ≡ feed_after before b }
{
    if block::has(b, block::F) {
        return code_in(b, block::F);
    }
    before
}

// A G00 is due after a T word and after any word of group 3 or 5.
fn due_after(before: bool, b: Block) -> bool
    ensures { result ≡ due_after before b }
{
    let shifts = block::has(b, block::SHIFT3) | block::has(b, block::SHIFT5);
    before | (block::has(b, block::T) | shifts)
}

// The state with a block's words acted, before its move.
pub fn settle(s: State, b: Block) -> State
    ensures { result ≡ settled s b }
{
    let before = s.motion;
    let now = block_motion(before, b);
    let speed = g_in(b, block::SPEED_MODE);
    let feed = g_in(b, block::FEED_MODE);
    let shift3 = g_in(b, block::SHIFT3);
    let shift5 = g_in(b, block::SHIFT5);
    State {
        motion: acts::keep_of(now, before),
        g96: acts::cutting_by(speed, s.g96),
        g95: acts::revolution_by(feed, s.g95),
        shift_group3: acts::shift_by(shift3, s.shift_group3),
        shift_group5: acts::shift_by(shift5, s.shift_group5),
        correction: correction_after(s.correction, b),
        f: feed_after(s.f, b),
        rapid_due: due_after(s.rapid_due, b),
        x: s.x,
        z: s.z,
    }
}
