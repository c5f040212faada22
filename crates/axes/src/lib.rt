// What the cycles have in common: an axis with its allowance, a move named by the axis that goes in and the one across it, the records of a pass, and whether a place lies outside the soft limits.
// A cycle knows its axes by what they do; which of them is X is said once, by `facing`.
// Of an axis stand here the distance from its start to its target, less what is left standing there, and the line where it ends. Positions lie on either side of each other: distance and side are worked out around zero.
#![tactic(auto)]

pub mod goes;
pub mod limits;

ghost use Rattle.std.specs.Prelude.{◌≡◌, ◌<◌};
ghost use Rattle.axes.specs.Axis.{distance, net, allowance_line};

// Where the tool stands, where the block sends it, and the allowance that is left there.
#[derive(Clone, Copy)]
pub struct Axis {
    pub start: i32,
    pub target: i32,
    pub allowance: u32,
}

// Which record of a pass comes next, of a turning cycle and of a thread. 01: "rapid X to the pass line; feed Z to the end line; feed X to the start X; rapid Z to the start Z". 02: "A pass is rapid in, thread, rapid out, rapid back."
#[derive(Clone, Copy)]
pub enum Stage {
    In,
    Cut,
    Out,
    Back,
}

// The distance from start to target.
pub fn distance_of(a: Axis) -> u32
    ensures { result ≡ distance a }
{
    let start = a.start;
    let target = a.target;
    whole::distance(target, start)
}

// The distance less the allowance, 0 where the allowance takes it all.
pub fn net_of(a: Axis) -> u32
    ensures { result ≡ net a }
{
    let allowance = a.allowance;
    let distance = distance_of(a);
    if distance < allowance {
        return 0;
    }
    distance - allowance
}

// The target moved back toward the start by the allowance. Alarm 19 has seen to it before that something is left.
pub fn line_of(a: Axis) -> i32
    requires { 0 < net a }
    ensures { result ≡ allowance_line a }
{
    let start = a.start;
    let target = a.target;
    let side = whole::side_of(start, target);
    let by = net_of(a);
    whole::step(start, side, by)
}
