// How far an arc goes, and whether it crosses a quadrant point between its ends.
#![tactic(auto)]

ghost use Rattle.std.specs.Prelude.{◌≡◌, pos};
ghost use Rattle.std.specs.Int.Signed.{lt_z};
ghost use Rattle.arrows.specs.Arrows.{cross, ahead};
ghost use Rattle.sweeps.specs.Sweeps.{is_full, sweep, course_of, unit, between, crosses};
ghost use Rattle.arrows.specs.Known.{Sized, both};
ghost use Rattle.arcs.specs.Known.{InReach};

use arcs::Arc;
use arrows::Arrow;

#[derive(Clone, Copy)]
pub enum Sweep {
    Full,
    // an end on the start's ray
    Nothing,
    // up to half a turn
    Short,
    Long,
}

// An arc as it goes around its centre.
#[derive(Clone, Copy)]
pub struct Course {
    pub clockwise: bool,
    pub sweep: Sweep,
    pub from: Arrow,
    pub to: Arrow,
}

// The four ways from the centre, seen with Z to the right and X up.
#[derive(Clone, Copy)]
pub enum Quadrant {
    East,
    North,
    West,
    South,
}

// Whether the end is the start.
fn is_full(a: Arc) -> bool
    ensures { result ≡ is_full a }
{
    let s = a.start;
    let e = a.end;
    (whole::distance(e.x, s.x) == 0) & (whole::distance(e.z, s.z) == 0)
}

fn sweep_between(clockwise: bool, from: Arrow, to: Arrow) -> Sweep
    requires sized { Sized from }
    requires sized_2 { Sized to }
    ensures { result ≡ sweep clockwise from to }
{
    let on = arrows::ahead_of(clockwise, from, to);
    if on < 0 {
        return Sweep::Long;
    }
    if 0 < on {
        return Sweep::Short;
    }
    if 0 < arrows::dot_of(from, to) {
        return Sweep::Nothing;
    }
    Sweep::Short
}

pub fn course_of(a: Arc) -> Course
    requires { InReach a }
    ensures { result ≡ course_of a }
{
    let clockwise = a.clockwise;
    let centre = a.centre;
    let start = a.start;
    let end = a.end;
    let from = arrows::arrow_to(centre, start);
    let to = arrows::arrow_to(centre, end);
    if is_full(a) {
        return Course {
            clockwise,
            sweep: Sweep::Full,
            from,
            to,
        };
    }
    let sweep = sweep_between(clockwise, from, to);
    Course {
        clockwise,
        sweep,
        from,
        to,
    }
}

// Whether a quadrant point lies counterclockwise of an arrow, by less than half a turn.
fn lies_left(k: Quadrant, right: i64, up: i64) -> bool
    ensures { result ≡ lt_z (pos 0) (cross (both right up) (unit k)) }
{
    match k {
        Quadrant::East => up < 0,
        Quadrant::North => 0 < right,
        Quadrant::West => 0 < up,
        Quadrant::South => right < 0,
    }
}

// Whether it lies clockwise.
fn lies_right(k: Quadrant, right: i64, up: i64) -> bool
    ensures { result ≡ lt_z (pos 0) (cross (unit k) (both right up)) }
{
    match k {
        Quadrant::East => 0 < up,
        Quadrant::North => right < 0,
        Quadrant::West => up < 0,
        Quadrant::South => 0 < right,
    }
}

// Whether it lies past an arrow, in the direction of travel.
fn lies_past(clockwise: bool, k: Quadrant, right: i64, up: i64) -> bool
    ensures { result ≡ lt_z (pos 0) (ahead clockwise (both right up) (unit k)) }
{
    if clockwise {
        return lies_right(k, right, up);
    }
    lies_left(k, right, up)
}

// Whether it lies before one.
fn lies_before(clockwise: bool, k: Quadrant, right: i64, up: i64) -> bool
    ensures { result ≡ lt_z (pos 0) (ahead clockwise (unit k) (both right up)) }
{
    if clockwise {
        return lies_left(k, right, up);
    }
    lies_right(k, right, up)
}

fn is_between(s: Sweep, past: bool, before: bool) -> bool
    ensures { result ≡ between s past before }
{
    match s {
        Sweep::Full => true,
        Sweep::Nothing => false,
        Sweep::Short => past & before,
        Sweep::Long => past | before,
    }
}

pub fn does_cross(c: Course, k: Quadrant) -> bool
    ensures { result ≡ crosses c k }
{
    let from = c.from;
    let to = c.to;
    let past = lies_past(c.clockwise, k, from.right, from.up);
    let before = lies_before(c.clockwise, k, to.right, to.up);
    let sweep = c.sweep;
    is_between(sweep, past, before)
}
