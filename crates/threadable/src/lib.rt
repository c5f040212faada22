// Whether a threading cycle that is opened can go on. Every cursor that `threads` made can; one that comes back from a caller who kept it may have been changed,
// and is asked here before its next record is.
#![tactic(auto)]

ghost use Rattle.std.specs.Prelude.{◌≡◌, true};
ghost use Rattle.threads.specs.Cursor.{Sound};

use threads::Cursor;

pub mod ends;

// 01: "D at most 32,767"
const GREATEST_D: u32 = 32_767;

// What the cuts add up to fits, no depth that is left falls, and the line of the last one fits, so that every line does.
pub fn is_fit(c: Cursor) -> bool
    ensures sound { result ≡ true → Sound c }
    ensures all { Sound c → result ≡ true }
{
    let pass = c.pass;
    let side = c.side;
    let cuts = c.cuts;
    if !ends::sum_fits(c.depth, cuts) {
        return false;
    }
    if !ends::is_rising(c.depth, cuts) {
        return false;
    }
    let deepest = ends::deepest_of(c.depth, cuts);
    if deepest > GREATEST_D {
        return false;
    }
    let by = threading::wide_of(pass.facing, deepest - c.depth) as u32;
    reaching::ends_within(c.line, side, by)
}
