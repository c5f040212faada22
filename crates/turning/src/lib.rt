// The turning cycle G84, as its block gives it: its lengths (alarm 19), where its moves reach (18), how many records it has (20), the records, and what all its passes share. (01: "G84".)
// Longitudinal and facing are one cycle with the axes exchanged: it goes in along `infeed` and cuts along `path`.
// No function here opens the cycle: each costs the same for one pass and for millions. `passes` opens it.
#![tactic(auto)]

ghost use Rattle.std.specs.Prelude.{◌≡◌, false, ◌<◌, length};
ghost use Rattle.axes.specs.Axis.{net, allowance_line};
ghost use Rattle.axes.specs.Limits.{any_outside};
ghost use Rattle.turning.specs.Turning.{too_short, pass_count, turning, pass_for};

use axes::Axis;
use settings::Limits;

// `division` is the greatest pass on the infeed axis, 0 for one pass; `f` and `g95` are those of its feeds.
#[derive(Clone, Copy)]
pub struct Turning {
    pub facing: bool,
    pub infeed: Axis,
    pub path: Axis,
    pub division: u32,
    pub f: u32,
    pub g95: bool,
}

// "E and the shortened length must be at least 1" (alarm 19).
pub fn is_wrong(c: Turning) -> bool
    ensures { result ≡ too_short c }
{
    let infeed = c.infeed;
    let path = c.path;
    (axes::net_of(infeed) == 0) | (axes::net_of(path) == 0)
}

// How many passes make e; a division of 0 asks for one.
pub fn pass_count(e: u32, division: u32) -> u32
    requires { 0 < e }
    ensures { result ≡ pass_count e division }
{
    if division == 0 {
        return 1;
    }
    division::piece_count(e, division)
}

// How many records the cycle has (alarm 20). Its lengths were asked for before (19).
pub fn record_count(c: Turning) -> u64
    requires { too_short c ≡ false }
    ensures { result ≡ length (turning c) }
{
    let infeed = c.infeed;
    let e = axes::net_of(infeed);
    let n = pass_count(e, c.division);
    4 * (n as u64)
}

// The line of the last pass.
fn last_line(c: Turning) -> i32
    requires { 0 < net c.infeed }
    ensures { result ≡ allowance_line c.infeed }
{
    let infeed = c.infeed;
    axes::line_of(infeed)
}

// Whether a move of the cycle ends outside the limits (alarm 18), asked at its two extreme points: the start, and the last pass line at the end line.
pub fn ends_outside(c: Turning, l: Limits) -> bool
    requires { too_short c ≡ false }
    ensures { result ≡ any_outside l (turning c) }
{
    let infeed = c.infeed;
    let path = c.path;
    let facing = c.facing;
    let at_start = axes::limits::is_outside_to(l, facing, infeed.start, path.start);
    let last = last_line(c);
    let end = axes::line_of(path);
    at_start | axes::limits::is_outside_to(l, facing, last, end)
}

#[derive(Clone, Copy)]
pub struct Pass {
    pub facing: bool,
    pub f: u32,
    pub g95: bool,
    pub from: i32,
    pub home: i32,
    pub end: i32,
}

// The cycle's lengths were asked for before (alarm 19).
pub fn pass_of(c: Turning) -> Pass
    requires { too_short c ≡ false }
    ensures { result ≡ pass_for c }
{
    let infeed = c.infeed;
    let path = c.path;
    let end = axes::line_of(path);
    Pass {
        facing: c.facing,
        f: c.f,
        g95: c.g95,
        from: infeed.start,
        home: path.start,
        end,
    }
}
