// Whether a groove that comes back from a caller is one that `plunges` can hand out: a caller may have changed it, and then its next record would be no record of a groove.
// Every cursor that was opened, or is left behind a record, passes. No cut and no plunge is gone through for it.
#![tactic(auto)]

ghost use Rattle.std.specs.Prelude.{◌≡◌, true, ◌+◌, ◌≤◌, ◌<◌, ◌^◌, ◌+ℤ◌};
ghost use Rattle.std.specs.Int.{w32};
ghost use Rattle.std.proofs.Common.{SFits};
ghost use Rattle.whole.specs.declared.Side.TheVariants.{Minus};
ghost use Rattle.whole.specs.Signed.{along};
ghost use Rattle.division.specs.Division.{sum};
ghost use Rattle.division.specs.Carried.{row_of};
ghost use Rattle.grooving.specs.Grooving.{length_of, cut_count, cuts};
ghost use Rattle.plunges.specs.Cursor.{Ready, Sound};

use division::Pieces;
use grooving::{Groove, Way};
use plunges::{Cursor, Stage};

// The least place that 32 bits hold.
const LEAST: i32 = -2_147_483_648;

// How many cuts a plunge has, also where alarm 19 was not asked: none where there is no depth to divide.
fn cut_count(g: Groove) -> u32
    ensures { result ≡ cut_count g }
{
    let depth = g.depth;
    let deep = grooving::length_of(depth);
    let piece = g.piece;
    if piece == 0 {
        return 1;
    }
    if deep == 0 {
        return 0;
    }
    division::piece_count(deep, piece)
}

// Whether pieces are some, and the cuts of a groove: pieces are known by how many they are and what they add up to.
fn are_cuts(p: Pieces, g: Groove) -> bool
    ensures sound { result ≡ true → (0 < p.left) × (row_of p ≡ cuts g) }
    ensures all { (0 < p.left) × (row_of p ≡ cuts g) → result ≡ true }
{
    let depth = g.depth;
    let deep = grooving::length_of(depth);
    let n = cut_count(g);
    if p.left == 0 {
        return false;
    }
    if p.left != n {
        return false;
    }
    totals::total(p) == (deep as u64)
}

// Whether the cuts that are left end within the depth, from the depth reached on.
fn stays_within(depth: Way, deep: u32, cuts: Pieces) -> bool
    ensures sound { result ≡ true → deep + sum (row_of cuts) ≤ length_of depth }
    ensures all { deep + sum (row_of cuts) ≤ length_of depth → result ≡ true }
{
    let length = grooving::length_of(depth) as u64;
    let cut = totals::total(cuts);
    if length < cut {
        return false;
    }
    (deep as u64) <= length - cut
}

// Whether the last place across fits 32 bits: the steps go toward minus, no farther than to the least place.
fn fits_across(width: i32, steps: Pieces) -> bool
    ensures sound { result ≡ true → (sum (row_of steps) < 2 ^ 32) × SFits w32 (width +ℤ along Minus (sum (row_of steps))) }
    ensures all { (sum (row_of steps) < 2 ^ 32) × SFits w32 (width +ℤ along Minus (sum (row_of steps))) → result ≡ true }
{
    let room = whole::distance(width, LEAST);
    let across = totals::total(steps);
    across <= (room as u64)
}

// Where a cut comes next, or the rapid back for one, a cut is left.
fn is_ready(c: Cursor) -> bool
    ensures sound { result ≡ true → Ready c.stage c }
    ensures all { Ready c.stage c → result ≡ true }
{
    let stage = c.stage;
    let cuts = c.cuts;
    match stage {
        Stage::Cut => 0 < cuts.left,
        Stage::Back => 0 < cuts.left,
        Stage::Dwell => true,
        Stage::Out => true,
        Stage::Across => true,
        Stage::Over => true,
    }
}

// Whether a cursor is sound: true of each that is, and of no other.
pub fn is_fit(c: Cursor) -> bool
    ensures sound { result ≡ true → Sound c }
    ensures all { Sound c → result ≡ true }
{
    let groove = c.groove;
    let depth = groove.depth;
    let plunge = c.plunge;
    let cuts = c.cuts;
    let steps = c.steps;
    if !are_cuts(plunge, groove) {
        return false;
    }
    if !stays_within(depth, c.deep, cuts) {
        return false;
    }
    if !fits_across(c.width, steps) {
        return false;
    }
    is_ready(c)
}
