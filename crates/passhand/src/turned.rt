// The next record of a turning cycle.
ghost use Rattle.std.specs.Prelude.{◌≡◌, ◌≤◌, length, refl};
ghost use Rattle.moves.specs.Form.{record_size};
ghost use Rattle.stages.specs.declared.Due.TheVariants.{Turning};
ghost use Rattle.cyclewords.specs.Sizes.{due_words};
ghost use Rattle.cyclewords.specs.Turned.{turning_of};
ghost use Rattle.passhand.specs.Gives.{has_next, Gives};

use crate::{Gave, HandsOut};
use cyclewords::DUE_WORDS;
use moves::{Handed, Origin};
use passes::Cursor;

#[tactic(auto, using(handwords::proofs::Slots::slot_turning))]
impl HandsOut for Cursor {
    ghost due = { Turning };

    ghost read = { turning_of };

    ghost cycle = { λ c. refl };

    fn cursor_of(words: &[u32]) -> Cursor {
        cyclewords::turned::cursor_of(words)
    }

    fn is_over(self) -> bool {
        passes::is_over(self)
    }

    fn is_fit(self) -> bool {
        turnable::is_fit(self)
    }

    fn next(self) -> Handed<Cursor> {
        passes::next(self)
    }

    fn words_of(self) -> [u32; DUE_WORDS] {
        cyclewords::turned::words_of(handwords::DEEDS, self)
    }
}

// Lays the next record, and puts the cycle behind it into the words. Where the cycle has none left or cannot go on, nothing is done.
pub fn give(due: &mut [u32], record: &mut [u8], origin: Origin, stops: bool) -> Gave
    requires { (length due.old ≡ due_words) × (record_size ≤ length «record».old) }
    ensures { Gives (has_next (Turning (turning_of due.old))) (Turning (turning_of due.old)) origin stops due.old «record».old result due.new «record».new }
{
    crate::give::<Cursor>(due, record, origin, stops)
}
