// The cuts of a thread that is opened: they hand out their depths one after the other. What the depths are stands in `depths`. (02, request 1.)
// A constant cut is made from the one before it and the next piece of its division, with no product and no quotient. A falling one has one root, of a sum that is
// carried along, and for a cut number one quotient.
#![tactic(auto)]

ghost use Rattle.std.specs.Prelude.{◌≡◌, false, ◌/◌, ◌<◌, ◌≤◌, min};
ghost use Rattle.roots.specs.Roots.{root};
ghost use Rattle.cuts.specs.declared.Cuts.TheVariants.{Even};
ghost use Rattle.depths.specs.Depths.{greatest_d, depths, Proper};
ghost use Rattle.cuts.specs.Cuts.{rest_of, over, falling_from, one_more, Summed, Sound, Makes};

use depths::Rule;
use division::Pieces;

// The falling cuts that are left: `left` of them, each with one `square` more under its root than the `sum` before it.
#[derive(Clone, Copy)]
pub struct Falling {
    pub d3: u32,
    pub d6: u32,
    pub square: u64,
    pub sum: u64,
    pub left: u32,
}

// The cuts that are left: the pieces of a division, or falling ones by depth or by number.
#[derive(Clone, Copy)]
pub enum Cuts {
    Even(Pieces),
    ByDepth(Falling),
    ByNumber(Falling),
}

#[derive(Clone, Copy)]
pub struct Handed {
    pub depth: u32,
    pub rest: Cuts,
}

// So many falling cuts, each with the square of `side` more.
fn falling_of(d3: u32, d6: u32, side: u32, n: u32) -> Falling
    requires { side ≤ greatest_d }
    ensures { result ≡ falling_from d3 d6 side n }
{
    let edge = side as u64;
    Falling {
        d3,
        d6,
        square: edge * edge,
        sum: 0,
        left: n,
    }
}

// The cuts of a thread before the first of them.
pub fn open(rule: Rule, d3: u32, d6: u32) -> Cuts
    requires { Proper rule d3 d6 × (d3 ≤ greatest_d) × (d6 ≤ greatest_d) }
    ensures { (rest_of 0 result ≡ depths rule d3 d6) × Sound 0 result }
{
    let n = depths::cut_count(rule, d3, d6);
    match rule {
        Rule::EvenDepth => Cuts::Even(division::divide(d6, n)),
        Rule::EvenNumber => Cuts::Even(division::divide(d6, n)),
        Rule::FallingDepth => Cuts::ByDepth(falling_of(d3, d6, d3, n)),
        Rule::FallingNumber => Cuts::ByNumber(falling_of(d3, d6, d6, n)),
    }
}

// Whether no cut is left.
pub fn is_over(c: Cuts) -> bool
    ensures { result ≡ over c }
{
    match c {
        Cuts::Even(p) => p.left == 0,
        Cuts::ByDepth(f) => f.left == 0,
        Cuts::ByNumber(f) => f.left == 0,
    }
}

// A constant cut: the depth before it, and one piece more.
fn next_even(depth: u32, p: Pieces) -> Handed
    requires { Sound depth (Even p) × (0 < p.left) }
    ensures { Makes depth (Even p) result.depth result.rest }
{
    let handed = division::hand_out(p);
    let pieces = handed.rest;
    let next = depth + handed.piece;
    Handed {
        depth: next,
        rest: Cuts::Even(pieces),
    }
}

// One square more under the root.
fn one_more(f: Falling) -> Falling
    requires { Summed f × (0 < f.left) }
    ensures { result ≡ one_more f }
{
    Falling {
        d3: f.d3,
        d6: f.d6,
        square: f.square,
        sum: f.sum + f.square,
        left: f.left - 1,
    }
}

// "the first at or above D6 made D6"
fn root_up_to(d6: u32, sum: u64) -> u32
    ensures { result ≡ min d6 (root sum) }
{
    let r = roots::root_of(sum);
    if r < d6 {
        return r;
    }
    d6
}

// "of D6² x k / D3"
fn root_shared(d3: u32, sum: u64) -> u32
    requires { 0 < d3 }
    ensures { result ≡ root (sum / d3) }
{
    roots::root_of(sum / (d3 as u64))
}

// The depth of the next cut, and the cuts that are left behind it. `depth` is that of the cut before.
pub fn next(depth: u32, c: Cuts) -> Handed
    requires { Sound depth c × (over c ≡ false) }
    ensures { Makes depth c result.depth result.rest }
{
    match c {
        Cuts::Even(p) => next_even(depth, p),
        Cuts::ByDepth(f) => {
            let more = one_more(f);
            let reached = root_up_to(f.d6, more.sum);
            Handed {
                depth: reached,
                rest: Cuts::ByDepth(more),
            }
        }
        Cuts::ByNumber(f) => {
            let more = one_more(f);
            let reached = root_shared(f.d3, more.sum);
            Handed {
                depth: reached,
                rest: Cuts::ByNumber(more),
            }
        }
    }
}
