// Arrows from the centre of an arc, seen with Z to the right and X up, in half micrometres, so that the sizes of their products fit 64 bits: how long they are, and how one lies ahead of another. root.rt compares roots by their squares.
#![tactic(auto)]

pub mod root;

ghost use Rattle.std.specs.Prelude.{◌≡◌, ◌*◌, ◌≤◌, pos, nat_abs, ◌-ℤ◌, ◌*ℤ◌};
ghost use Rattle.arrows.specs.Arrows.{arrow, square, cross, dot, ahead};
ghost use Rattle.arrows.specs.Known.{greatest_part, Sized};

// A place of both axes, in machine positions: X is a diameter.
#[derive(Clone, Copy)]
pub struct Spot {
    pub x: i32,
    pub z: i32,
}

#[derive(Clone, Copy)]
pub struct Arrow {
    pub right: i64,
    pub up: i64,
}

// How far `to` lies beyond `from`.
fn beyond(from: i32, to: i32) -> i64
    ensures { result ≡ to -ℤ from }
{
    (to as i64) - (from as i64)
}

fn twice_beyond(from: i32, to: i32) -> i64
    ensures { result ≡ pos 2 *ℤ (to -ℤ from) }
{
    2 * ((to as i64) - (from as i64))
}

// The arrow from a centre to a place. (02: "per side"; X is a diameter, so that a micrometre of it is half a one per side.)
pub fn arrow_to(c: Spot, p: Spot) -> Arrow
    ensures { result ≡ arrow c.x c.z p.x p.z }
{
    Arrow {
        right: twice_beyond(c.z, p.z),
        up: beyond(c.x, p.x),
    }
}

pub fn squared(v: i64) -> u64
    requires { nat_abs v ≤ greatest_part }
    ensures { result ≡ nat_abs v * nat_abs v }
{
    (v * v) as u64
}

// The square of its length.
pub fn square_of(a: Arrow) -> u64
    requires { Sized a }
    ensures { result ≡ square a }
{
    squared(a.right) + squared(a.up)
}

fn product(a: i64, b: i64) -> i64
    requires a_bound { nat_abs a ≤ greatest_part }
    requires b_bound { nat_abs b ≤ greatest_part }
    ensures { (result ≡ a *ℤ b) × (nat_abs result ≤ greatest_part * greatest_part) }
{
    a * b
}

fn cross_of(a: Arrow, b: Arrow) -> i64
    requires sized { Sized a }
    requires sized_2 { Sized b }
    ensures { result ≡ cross a b }
{
    product(a.right, b.up) - product(a.up, b.right)
}

// Above 0 where b lies ahead of a, below where it lies behind.
pub fn ahead_of(clockwise: bool, a: Arrow, b: Arrow) -> i64
    requires sized { Sized a }
    requires sized_2 { Sized b }
    ensures { result ≡ ahead clockwise a b }
{
    if clockwise {
        return cross_of(b, a);
    }
    cross_of(a, b)
}

pub fn dot_of(a: Arrow, b: Arrow) -> i64
    requires sized { Sized a }
    requires sized_2 { Sized b }
    ensures { result ≡ dot a b }
{
    product(a.right, b.right) + product(a.up, b.up)
}
