// Whether an arc keeps to the limits: its end, and each quadrant point that it crosses, on the circle through its start.
#![tactic(auto)]

ghost use Rattle.std.specs.Prelude.{◌≡◌, ◌≤◌, nat_abs, neg_ℤ};
ghost use Rattle.straying.specs.Straying.{spans, root_in, holds, strays_at, strays_somewhere, straying};
ghost use Rattle.arrows.specs.Known.{greatest_part, Sized, both};
ghost use Rattle.arcs.specs.Known.{InReach, LimitsInReach};

use arcs::Arc;
use arrows::{Arrow, Spot};
use settings::Limits;
use sweeps::{Course, Quadrant};

fn spans_zero(low: i64, high: i64) -> bool
    ensures { result ≡ spans low high }
{
    (low <= 0) & (0 <= high)
}

fn root_in(n: u64, low: i64, high: i64) -> bool
    requires low_bound { nat_abs low ≤ greatest_part }
    requires high_bound { nat_abs high ≤ greatest_part }
    ensures { result ≡ root_in n low high }
{
    arrows::root::root_at_least(n, low) & arrows::root::root_at_most(n, high)
}

fn opposite(v: i64) -> i64
    requires { nat_abs v ≤ greatest_part }
    ensures { (result ≡ neg_ℤ v) × (nat_abs result ≤ greatest_part) }
{
    -v
}

// Whether the quadrant point, at the root of n from the centre, lies within the corners of the limits.
fn is_held(n: u64, k: Quadrant, left: i64, down: i64, right: i64, up: i64) -> bool
    requires sized { Sized (both left down) }
    requires sized_2 { Sized (both right up) }
    ensures { result ≡ holds (both left down) (both right up) n k }
{
    match k {
        Quadrant::East => root_in(n, left, right) & spans_zero(down, up),
        Quadrant::North => root_in(n, down, up) & spans_zero(left, right),
        Quadrant::West => root_in(n, opposite(right), opposite(left)) & spans_zero(down, up),
        Quadrant::South => root_in(n, opposite(up), opposite(down)) & spans_zero(left, right),
    }
}

// Whether an arc crosses the quadrant point and it lies outside.
fn strays_at(low: Arrow, high: Arrow, n: u64, c: Course, k: Quadrant) -> bool
    requires sized { Sized low }
    requires sized_2 { Sized high }
    ensures { result ≡ strays_at low high n c k }
{
    if sweeps::does_cross(c, k) {
        return !is_held(n, k, low.right, low.up, high.right, high.up);
    }
    false
}

fn strays_somewhere(low: Arrow, high: Arrow, n: u64, c: Course) -> bool
    requires sized { Sized low }
    requires sized_2 { Sized high }
    ensures { result ≡ strays_somewhere low high n c }
{
    let east = strays_at(low, high, n, c, Quadrant::East);
    let north = strays_at(low, high, n, c, Quadrant::North);
    let west = strays_at(low, high, n, c, Quadrant::West);
    let south = strays_at(low, high, n, c, Quadrant::South);
    east | north | west | south
}

// Alarm 18 of an arc. (02: "The soft limits hold for the end and for every quadrant point, on the circle through the start, that the arc crosses between its ends.")
pub fn is_straying(l: Limits, a: Arc) -> bool
    requires in_reach { InReach a }
    requires limits_in_reach { LimitsInReach l a }
    ensures { result ≡ straying l a }
{
    let centre = a.centre;
    let end = a.end;
    if settings::is_outside(l, end.x, end.z) {
        return true;
    }
    let for_x = l.x;
    let for_z = l.z;
    let low = arrows::arrow_to(
        centre,
        Spot {
            x: for_x.lowest,
            z: for_z.lowest,
        },
    );
    let high = arrows::arrow_to(
        centre,
        Spot {
            x: for_x.highest,
            z: for_z.highest,
        },
    );
    let c = sweeps::course_of(a);
    let n = arrows::square_of(c.from);
    strays_somewhere(low, high, n, c)
}
