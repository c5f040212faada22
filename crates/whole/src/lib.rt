// Whole numbers: what every other crate uses of numbers. Of lathes only the position type knows, and that its X is a diameter. Numbers as bytes stand in `octets`.
// Contracts speak of ℕ and ℤ: those of position.rt by the definitions of specs/Position.antt, and those here by specs/Signed.antt.
// Here are signed numbers around zero: how far apart two of them are, on which side one lies of another, and a step to a side. One rule serves both axes and both directions.
#![tactic(auto)]

pub mod position;

ghost use Rattle.std.specs.Prelude.{◌≡◌, ◌+ℤ◌, ◌-ℤ◌, nat_abs};
ghost use Rattle.std.specs.Int.{w32};
ghost use Rattle.std.proofs.Common.{SFits};
ghost use Rattle.whole.specs.Signed.{side_of, along};

use std::cmp::Ordering;

#[derive(Clone, Copy)]
pub enum Side {
    Minus,
    Zero,
    Plus,
}

// How far apart two numbers are.
pub fn distance(a: i32, b: i32) -> u32
    ensures { result ≡ nat_abs (a -ℤ b) }
{
    a.abs_diff(b)
}

// How far a number is from zero.
pub fn magnitude(v: i32) -> u32
    ensures { result ≡ nat_abs v }
{
    v.unsigned_abs()
}

// On which side of `from` the number `to` lies.
pub fn side_of(from: i32, to: i32) -> Side
    ensures { result ≡ side_of (to -ℤ from) }
{
    match to.cmp(&from) {
        Ordering::Less => Side::Minus,
        Ordering::Equal => Side::Zero,
        Ordering::Greater => Side::Plus,
    }
}

// Where a step of a length to a side leads, however far.
fn reach(from: i32, side: Side, by: u32) -> i64
    ensures { result ≡ from +ℤ along side by }
{
    match side {
        Side::Plus => i64::from(from) + i64::from(by),
        Side::Minus => i64::from(from) - i64::from(by),
        Side::Zero => i64::from(from),
    }
}

// The same in 32 bits. A caller shows that the end fits, mostly by `Sides.between`: what lies between two numbers that fit, fits.
pub fn step(from: i32, side: Side, by: u32) -> i32
    requires { SFits w32 (from +ℤ along side by) }
    ensures { result ≡ from +ℤ along side by }
{
    reach(from, side, by) as i32
}
