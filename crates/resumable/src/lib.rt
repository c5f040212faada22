// Whether a block that is opened can go on with what is kept of it: what is due, or the deed while a record of a word before it is due. What `opening` and `handing` left always can; what comes
// back from a caller who kept it may have been changed, and is asked here before its next record is.
#![tactic(auto)]

ghost use Rattle.std.specs.Prelude.{◌≡◌, true, not};
ghost use Rattle.resumable.specs.Kept.{leads, Fits};

use stages::{Due, Stage};

// Whether no word before the deed gives the record. (01: "speed if S, tool if T, M of group 0, M of group 3, motion or dwell, then M00 or M30.")
fn is_from_deed(stage: Stage) -> bool
    ensures { result ≡ not (leads stage) }
{
    match stage {
        Stage::Speed => false,
        Stage::Tool => false,
        Stage::Spindle => false,
        Stage::Coolant => false,
        Stage::Deed => true,
        Stage::Centre => true,
        Stage::Stop => true,
        Stage::Over => true,
    }
}

// Whether what is kept fits: a cycle by its own test, and a record that is no cycle's where no word before the deed gives it.
pub fn is_fit(slot: Due) -> bool
    ensures sound { result ≡ true → Fits slot }
    ensures all { Fits slot → result ≡ true }
{
    match slot {
        Due::Turning(c) => turnable::is_fit(c),
        Due::Threading(c) => threadable::is_fit(c),
        Due::Grooving(c) => groovable::is_fit(c),
        Due::Drilling(c) => drillable::is_fit(c),
        Due::Single(stage) => is_from_deed(stage),
    }
}
