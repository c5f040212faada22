// THE NEXT RECORD OF A CYCLE, of the state from the cycle's words alone: the cursor is read, it is asked whether it is sound, and it is put back behind the record that it gives. Each cycle has a path of its own, in which its cursor is
// never one case of all that can be due, so that an ask costs no more than the cycle does. (02, request 12: "hands out the next record or the alarm when asked".)
// `give` is the path, compiled for each of the four cycles by itself; what it needs of a cycle is `HandsOut`. The choice among the four stands in `cyclehand`.
#![tactic(auto)]

ghost use Rattle.std.specs.Prelude.{◌≡◌, ◌≤◌, true, false, List, ℕ, length};
ghost use Rattle.moves.specs.Form.{record_size};
ghost use Rattle.stages.specs.Cursor.{cycle_over, DueSound, Sound, Makes};
ghost use Rattle.stages.specs.declared.Due.{Due};
ghost use Rattle.stages.specs.declared.Plan.{Plan};
ghost use Rattle.cyclewords.specs.Sizes.{due_words};
ghost use Rattle.handwords.specs.Due.{is_deed, slot_of};
ghost use Rattle.passhand.specs.Gives.{is_cycle, has_next, Put, Gives};

use cyclewords::DUE_WORDS;
use moves::{Handed, Origin};

pub mod drilled;
pub mod grooved;
pub mod threaded;
pub mod turned;

// What an ask comes to: a record, which is laid at the front of the lent bytes; a cycle that is not sound; or no cycle that has a record left.
#[derive(Clone, Copy)]
pub enum Gave {
    Given,
    Unfit,
    Other,
}

// The cursor of a cycle, which words stand for, and which hands out the records of its cycle one after the other.
pub trait HandsOut: Copy {
    // What is due where the cycle is.
    ghost due: { Self → Due };

    // The cursor that words stand for.
    ghost read: { List ℕ → Self };

    fn cursor_of(words: &[u32]) -> Self
        requires { length words.now ≡ due_words }
        ensures { result ≡ read words.now };

    // Whether no record is left.
    fn is_over(self) -> bool
        ensures { result ≡ cycle_over (due self) };

    // Whether the cycle is sound, so that it can go on.
    fn is_fit(self) -> bool
        ensures sound { result ≡ true → DueSound (due self) }
        ensures all { DueSound (due self) → result ≡ true };

    // The next record, whatever the block's plan, and the cycle as it stands behind it.
    fn next(self) -> Handed<Self>
        requires { DueSound (due self) × (cycle_over (due self) ≡ false) }
        ensures { (p : Plan) → Sound p (due self) → Makes p (due self) result.«record» (due result.rest) };

    // The words that stand for the cycle, where a record of the deed is in hand.
    fn words_of(self) -> [u32; DUE_WORDS]
        ensures { (is_deed result ≡ true) × (slot_of result ≡ due self) };

    // A cycle it is, and no single record.
    ghost cycle: { (c : Self) → is_cycle (due c) ≡ true };
}

// Puts the cycle into the words, or nothing where its block is over: where the cycle is, and M00 or M30 does not stand behind it. (01: "motion or dwell, then M00 or M30.")
fn put_behind<C: HandsOut>(due: &mut [u32], c: C, stops: bool)
    requires { length due.old ≡ due_words }
    ensures { Put stops (C.due c) due.new }
{
    if c.is_over() & !stops {
        cells::put::put_words(due, 0, &handwords::empty_words());
        return;
    }
    cells::put::put_words(due, 0, &c.words_of());
}

// Lays the next record of the cycle that the words stand for, and puts the cycle behind it into the words. Where the cycle has none left or cannot go on, nothing is done.
pub fn give<C: HandsOut>(due: &mut [u32], record: &mut [u8], origin: Origin, stops: bool) -> Gave
    requires { (length due.old ≡ due_words) × (record_size ≤ length «record».old) }
    ensures { Gives (has_next (C.due (C.read due.old))) (C.due (C.read due.old)) origin stops due.old «record».old result due.new «record».new }
{
    let c = C::cursor_of(due);
    if c.is_over() {
        return Gave::Other;
    }
    if !c.is_fit() {
        return Gave::Unfit;
    }
    let handed = c.next();
    moves::list::put_record(record, handed.record, origin);
    put_behind(due, handed.rest, stops);
    Gave::Given
}
