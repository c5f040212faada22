// The next record of the cycle that is due, whichever of the four it is. The path of each stands in `passhand`, with what an ask comes to.
// All else that can be due is given by `inhand`: the record of a word, that of a deed that is no cycle, and M00 or M30 behind a cycle.
#![tactic(auto)]

ghost use Rattle.std.specs.Prelude.{◌≤◌, ◌≡◌, length};
ghost use Rattle.moves.specs.Form.{record_size};
ghost use Rattle.cyclewords.specs.Sizes.{due_words};
ghost use Rattle.handwords.specs.Due.{slot_of};
ghost use Rattle.passhand.specs.Gives.{has_next_in, Gives};

pub use handing;
pub use handwords;
pub use handwords::resumable;
use moves::Origin;
pub use passhand::{Gave, drilled, grooved};
use passhand::{threaded, turned};

// Lays the next record of the cycle that is due, with the block that it came from, and puts the cycle into the words as it stands behind that record; where no record is given nothing is done. `stops`
// says whether M00 or M30 stands behind the cycle.
#[tactic(auto, unfolding(handwords::specs::Due::slot_of))]
pub fn give(due: &mut [u32], record: &mut [u8], origin: Origin, stops: bool) -> Gave
    requires { (length due.old ≡ due_words) × (record_size ≤ length «record».old) }
    ensures { Gives (has_next_in due.old) (slot_of due.old) origin stops due.old «record».old result due.new «record».new }
{
    if !handwords::is_deed(due) {
        return Gave::Other;
    }
    match due[1] {
        cyclewords::turned::TAG => turned::give(due, record, origin, stops),
        cyclewords::threaded::TAG => threaded::give(due, record, origin, stops),
        cyclewords::grooved::TAG => grooved::give(due, record, origin, stops),
        cyclewords::drilled::TAG => drilled::give(due, record, origin, stops),
        _ => Gave::Other,
    }
}
