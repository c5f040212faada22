// The threading cycle G85, as its block gives it: what it refuses (alarm 19), where its moves reach (18), how many records it has (20), the records, and what all its passes share. (02, request 1.)
// Longitudinal and facing are one cycle with the axes exchanged: it goes in along `infeed` and cuts along `path`.
// No function here opens the cycle: each costs the same for one cut and for a thousand million. `threads` opens it.
#![tactic(auto)]

ghost use Rattle.std.specs.Prelude.{◌≡◌, false, ◌≤◌, length};
ghost use Rattle.threading.specs.Threading.{pass_for, wide, whole_depth, bottom, crest, many_cuts, crest_beyond, wrong, threading, Told};
ghost use Rattle.axes.specs.Limits.{any_outside};
ghost use Rattle.depths.specs.Depths.{greatest_d};
ghost use Rattle.threading.specs.Bits.{is_nominal, rule_of};

use axes::Axis;
use depths::Rule;
use settings::Limits;

#[derive(Clone, Copy)]
pub struct Pass {
    pub facing: bool,
    pub pitch: u32,
    pub from: i32,
    pub home: i32,
    pub end: i32,
}

pub fn pass_of(t: Thread) -> Pass
    ensures { result ≡ pass_for t }
{
    let infeed = t.infeed;
    let path = t.path;
    Pass {
        facing: t.facing,
        pitch: t.pitch,
        from: infeed.start,
        home: path.start,
        end: path.target,
    }
}

// `nominal` says that the infeed's target is the crest and not the bottom; `d6` is the depth per side, `empty` the number of empty cuts. A thread leaves no allowance:
// that of its axes is not asked for.
#[derive(Clone, Copy)]
pub struct Thread {
    pub facing: bool,
    pub infeed: Axis,
    pub path: Axis,
    pub rule: Rule,
    pub nominal: bool,
    pub d3: u32,
    pub d6: u32,
    pub empty: u32,
    pub pitch: u32,
}

// What the bits of D7 count. "1 constant, 2 target is the nominal diameter and not the core, 4 D3 is a cut number"
pub const CONSTANT: u32 = 1;

pub const NOMINAL: u32 = 2;

pub const NUMBER: u32 = 4;

// How D7 has the cuts follow each other.
pub fn rule_of(d7: u32) -> Rule
    ensures { result ≡ rule_of d7 }
{
    let number = (d7 / NUMBER) % 2 == 1;
    let constant = (d7 / CONSTANT) % 2 == 1;
    if number {
        if constant {
            return Rule::EvenNumber;
        }
        return Rule::FallingNumber;
    }
    if constant {
        return Rule::EvenDepth;
    }
    Rule::FallingDepth
}

// Whether D7 has the target be the nominal diameter.
pub fn is_nominal(d7: u32) -> bool
    ensures { result ≡ is_nominal d7 }
{
    (d7 / NOMINAL) % 2 == 1
}

// A length per side, as the infeed axis counts it: X is a diameter.
pub fn wide_of(facing: bool, n: u32) -> u64
    ensures { result ≡ wide facing n }
{
    let side = n as u64;
    if facing {
        return side;
    }
    side + side
}

// The depth of the whole thread, on the infeed axis.
fn depth_of(t: Thread) -> u32
    requires { t.d6 ≤ greatest_d }
    ensures { result ≡ whole_depth t }
{
    wide_of(t.facing, t.d6) as u32
}

fn many_cuts(rule: Rule, d3: u32, d6: u32) -> bool
    ensures { result ≡ many_cuts rule d3 d6 }
{
    match rule {
        Rule::EvenDepth => false,
        Rule::EvenNumber => d6 < d3,
        Rule::FallingDepth => false,
        Rule::FallingNumber => d6 < d3,
    }
}

fn crest_beyond(t: Thread) -> bool
    ensures { result ≡ crest_beyond t }
{
    let infeed = t.infeed;
    let way = axes::distance_of(infeed) as u64;
    let deep = wide_of(t.facing, t.d6);
    !t.nominal & (way < deep)
}

// "D3 or D6 zero or missing, a cut number above D6, infeed distance or thread length zero, or a thread crest beyond the start" (alarm 19).
pub fn is_wrong(t: Thread) -> bool
    ensures { result ≡ wrong t }
{
    let infeed = t.infeed;
    let path = t.path;
    let rule = t.rule;
    let nothing = (t.d3 == 0) | (t.d6 == 0);
    let many = many_cuts(rule, t.d3, t.d6);
    let short = (axes::distance_of(infeed) == 0) | (axes::distance_of(path) == 0);
    let beyond = crest_beyond(t);
    nothing | (many | (short | beyond))
}

// How many records the cycle has (alarm 20), counted in 64 bits. Alarm 19 was asked before.
pub fn record_count(t: Thread) -> u64
    requires { Told t × (wrong t ≡ false) }
    ensures { result ≡ length (threading t) }
{
    let rule = t.rule;
    let n = depths::cut_count(rule, t.d3, t.d6);
    4 * ((n as u64) + (t.empty as u64))
}

// The bottom of the thread.
fn bottom_of(t: Thread) -> i32
    requires { Told t }
    ensures { result ≡ bottom t }
{
    let infeed = t.infeed;
    let start = infeed.start;
    let target = infeed.target;
    if t.nominal {
        let side = whole::side_of(start, target);
        let deep = depth_of(t);
        return whole::step(target, side, deep);
    }
    target
}

// The crest. Alarm 19 has seen to it before that it is not beyond the start.
pub fn crest_of(t: Thread) -> i32
    requires { Told t × (wrong t ≡ false) }
    ensures { result ≡ crest t }
{
    let infeed = t.infeed;
    let start = infeed.start;
    let target = infeed.target;
    if t.nominal {
        return target;
    }
    let side = whole::side_of(start, target);
    let way = axes::distance_of(infeed);
    let deep = depth_of(t);
    whole::step(start, side, way - deep)
}

// Whether a move of the cycle ends outside the limits (alarm 18), asked at its two extreme points: the start, and the bottom at the far end.
pub fn ends_outside(t: Thread, l: Limits) -> bool
    requires { Told t × (wrong t ≡ false) }
    ensures { result ≡ any_outside l (threading t) }
{
    let infeed = t.infeed;
    let path = t.path;
    let facing = t.facing;
    let at_start = axes::limits::is_outside_to(l, facing, infeed.start, path.start);
    let deepest = bottom_of(t);
    at_start | axes::limits::is_outside_to(l, facing, deepest, path.target)
}
