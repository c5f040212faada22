// Whether a bore that comes back from a caller is one that `bores` can hand out: a caller may have changed it, and then its next record would be no record of a bore.
// Every cursor that was opened, or is left behind a record, passes.
#![tactic(auto)]

ghost use Rattle.std.specs.Prelude.{◌≡◌, true, ◌≤◌};
ghost use Rattle.bites.specs.Bites.{biting, has_zero};
ghost use Rattle.bores.specs.Cursor.{Ready, Sound};

use bores::{Cursor, Stage};

// Whether a bite of those that are left is 0: none where nothing is left, and the first where it is 0 itself.
fn has_zero(bite: u32, less: u32, least: u32, left: u32) -> bool
    requires { less ≤ 100 }
    ensures { result ≡ has_zero (biting less least bite left left) }
{
    if left == 0 {
        return false;
    }
    if bite == 0 {
        return true;
    }
    bites::has_zero(bite, less, least, left)
}

// Where a bite is still to come, something is left.
fn is_ready(c: Cursor) -> bool
    ensures sound { result ≡ true → Ready c.stage c }
    ensures all { Ready c.stage c → result ≡ true }
{
    let stage = c.stage;
    match stage {
        Stage::Bite => 0 < c.left,
        Stage::Home => 0 < c.left,
        Stage::Back => 0 < c.left,
        Stage::Dwell => true,
        Stage::Out => true,
        Stage::Over => true,
    }
}

// Whether a cursor is sound: true of each that is, and of no other.
pub fn is_fit(c: Cursor) -> bool
    ensures sound { result ≡ true → Sound c }
    ensures all { Sound c → result ≡ true }
{
    let bore = c.bore;
    let stroke = drilling::stroke_of(bore);
    if 100 < bore.less {
        return false;
    }
    // in 64 bits, where no sum of two depths wraps
    if (c.deep as u64) + (c.left as u64) != (stroke as u64) {
        return false;
    }
    if has_zero(c.bite, bore.less, bore.least, c.left) {
        return false;
    }
    is_ready(c)
}
