// The grooving cycle G86, as its block gives it: its lengths and tool width (alarm 19), where its moves reach (18), how many records it has (20), and the records. (01: "G86".)
// Alongside and facing are one cycle with the axes exchanged: it plunges along `depth` and goes on along `width`.
// No function here opens the cycle: each costs the same for one plunge and for millions. `plunges` opens it.
#![tactic(auto)]

ghost use Rattle.std.specs.Prelude.{◌≡◌, false, ◌<◌, length};
ghost use Rattle.axes.specs.Limits.{any_outside};
ghost use Rattle.grooving.specs.Grooving.{length_of, wrong, step_count, cut_count, plunge_count, last_width, grooving};

use settings::Limits;

// Where an axis stands and where the block sends it.
#[derive(Clone, Copy)]
pub struct Way {
    pub start: i32,
    pub target: i32,
}

// `tool` is the tool's width and `overlap` the least overlap, both counted on the width axis; `piece` is the greatest cut, 0 for one, and `back` the retract, both
// counted on the depth axis; `dwell` is in tenths of a second, 0 for none; `f` and `g95` are those of the feeds.
#[derive(Clone, Copy)]
pub struct Groove {
    pub facing: bool,
    pub depth: Way,
    pub width: Way,
    pub tool: u32,
    pub overlap: u32,
    pub piece: u32,
    pub back: u32,
    pub dwell: u32,
    pub f: u32,
    pub g95: bool,
}

// The distance from start to target.
pub fn length_of(w: Way) -> u32
    ensures { result ≡ length_of w }
{
    let start = w.start;
    let target = w.target;
    whole::distance(target, start)
}

// Whether a groove is refused (alarm 19): its target does not lie below its start on the width axis, it has no depth, it is narrower than the tool, or a tool that
// does not fill it is not wider than the overlap.
pub fn is_wrong(g: Groove) -> bool
    ensures { result ≡ wrong g }
{
    let depth = g.depth;
    let width = g.width;
    let deep = length_of(depth);
    let wide = length_of(width);
    let backward = width.start <= width.target;
    let narrow = wide < g.tool;
    let thin = (g.tool < wide) & (g.tool <= g.overlap);
    (backward | (deep == 0)) | (narrow | thin)
}

// How many steps lie between the plunges: none where the tool fills the groove.
pub fn step_count(g: Groove) -> u32
    requires { wrong g ≡ false }
    ensures { result ≡ step_count g }
{
    let width = g.width;
    let rest = length_of(width) - g.tool;
    if rest == 0 {
        return 0;
    }
    division::piece_count(rest, g.tool - g.overlap)
}

// How many cuts a plunge has; a piece of 0 asks for one.
pub fn cut_count(g: Groove) -> u32
    requires { wrong g ≡ false }
    ensures { result ≡ cut_count g }
{
    let depth = g.depth;
    let deep = length_of(depth);
    let piece = g.piece;
    if piece == 0 {
        return 1;
    }
    division::piece_count(deep, piece)
}

// How many records a plunge has.
pub fn plunge_count(g: Groove) -> u64
    requires { wrong g ≡ false }
    ensures { result ≡ plunge_count g }
{
    let twice = 2 * (cut_count(g) as u64);
    if g.dwell == 0 {
        return twice;
    }
    twice + 1
}

// How many records the cycle has (alarm 20), counted in 64 bits: they can be some 4 x 10^14. Alarm 19 was asked before, and positions and targets are never so far
// apart that the count would not fit.
pub fn record_count(g: Groove) -> u64
    requires { (wrong g ≡ false) × (length_of g.depth < 100_000_000) × (length_of g.width < 100_000_000) }
    ensures { result ≡ length (grooving g) }
{
    let steps = step_count(g) as u64;
    let plunge = plunge_count(g);
    if steps == 0 {
        return plunge;
    }
    plunge + (steps * (plunge + 1) + 1)
}

// Where the last plunge stands on the width axis.
fn last_width(g: Groove) -> i32
    requires { wrong g ≡ false }
    ensures { result ≡ last_width g }
{
    let width = g.width;
    let start = width.start;
    let rest = length_of(width) - g.tool;
    whole::step(start, whole::Side::Minus, rest)
}

// Whether a move of the cycle ends outside the limits (alarm 18), asked at its two extreme points: the start, and the bottom of the last plunge.
pub fn ends_outside(g: Groove, l: Limits) -> bool
    requires { wrong g ≡ false }
    ensures { result ≡ any_outside l (grooving g) }
{
    let depth = g.depth;
    let width = g.width;
    let facing = g.facing;
    let at_start = axes::limits::is_outside_to(l, facing, depth.start, width.start);
    let last = last_width(g);
    at_start | axes::limits::is_outside_to(l, facing, depth.target, last)
}
