// Whether a turning cycle that is opened can go on. Every cursor that `passes` made can; one that comes back from a caller who kept it may have been changed,
// and is asked here before its next record is.
#![tactic(auto)]

ghost use Rattle.std.specs.Prelude.{◌≡◌, true};
ghost use Rattle.passes.specs.Cursor.{Sound};

use passes::Cursor;

// The first number that 32 bits do not hold.
const BEYOND_32: u64 = 4_294_967_296;

// The line of the last pass fits, so that every line does.
pub fn is_fit(c: Cursor) -> bool
    ensures sound { result ≡ true → Sound c }
    ensures all { Sound c → result ≡ true }
{
    let depths = c.depths;
    let side = c.side;
    let together = totals::total(depths);
    if together >= BEYOND_32 {
        return false;
    }
    reaching::ends_within(c.line, side, together as u32)
}
