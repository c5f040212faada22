// WHAT IS IN HAND OF A BLOCK, in the words of an engine's state: the next record of it is given. How the state is put into its words stands in `statewords`, whose functions are passed on. (02, request 12.)
// Words from elsewhere are tested before they are used.
#![tactic(auto)]

ghost use Rattle.std.specs.Prelude.{◌≡◌, false, ◌≤◌, length};
ghost use Rattle.moves.specs.Form.{record_size};
ghost use Rattle.inhand.specs.State.{state_words, is_empty_in, GiveMeets};

pub use cyclehand::handwords;
use cyclehand::{Gave, handing, resumable};
use cyclewords::DUE_WORDS;
use statewords::planwords::PLAN_WORDS;
use statewords::runwords::GOING_WORDS;
use statewords::{planwords, put_due};
pub use statewords::{GOING, PLAN, put_hand, put_nothing, put_run};

// The words of a state.
pub const STATE_WORDS: usize = DUE_WORDS + PLAN_WORDS + GOING_WORDS;

// The next record, whatever is due.
fn give_any(state: &mut [u32], record: &mut [u8]) -> bool
    requires { (length state.old ≡ state_words) × (is_empty_in state.old ≡ false) × (record_size ≤ length «record».old) }
    ensures { GiveMeets state.old «record».old result state.new «record».new }
{
    let part = &state[..PLAN];
    let slot = handwords::slot_of(part);
    if !resumable::is_fit(slot) {
        return false;
    }
    let due = handwords::due_of(part, slot);
    let rest = &state[PLAN..GOING];
    let plan = planwords::plan_of(rest, slot);
    let origin = planwords::origin_of(rest);
    if handing::is_over(plan, due) {
        return false;
    }
    let handed = handing::next(plan, due);
    let what = handed.record;
    let behind = handed.rest;
    moves::list::put_record(record, what, origin);
    if handing::is_over(plan, behind) {
        put_nothing(state);
        return true;
    }
    put_due(state, slot, behind);
    true
}

// Lays the next record of the present block at the front of the lent bytes. Where the words hold no sound block that has one, nothing is done, and the answer is no.
// A cycle that is due has its own path, since it has the most records.
pub fn give_next(state: &mut [u32], record: &mut [u8]) -> bool
    requires { (length state.old ≡ state_words) × (is_empty_in state.old ≡ false) × (record_size ≤ length «record».old) }
    ensures { GiveMeets state.old «record».old result state.new «record».new }
{
    let rest = &state[PLAN..GOING];
    let origin = planwords::origin_of(rest);
    let stops = planwords::stops_of(rest);
    let gave = cyclehand::give(&mut state[..PLAN], record, origin, stops);
    match gave {
        Gave::Given => true,
        Gave::Unfit => false,
        Gave::Other => give_any(state, record),
    }
}
