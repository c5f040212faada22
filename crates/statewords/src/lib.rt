// THE STATE OF AN ENGINE IN WORDS that the caller lends, in three parts: what is due of the present block, the block's plan, and where the run goes on behind it. (02, request 12.)
// Each part is put by itself, so that an ask for the next record of a block touches the first alone.
#![tactic(auto)]

ghost use Rattle.std.specs.Prelude.{◌≡◌, length};
ghost use Rattle.runlaid.specs.of_taking.declared.Hand.TheVariants.{Nothing};
ghost use Rattle.planwords.specs.of_resumable.Kept.{kept};
ghost use Rattle.runlaid.specs.of_runwords.Laid.{Small};
ghost use Rattle.statewords.specs.State.{state_words, hand_in, run_in, PutMeets, hand_from, hand_kept, plan_in};

use cyclewords::DUE_WORDS;
use moves::Origin;
pub use planwords;
use planwords::PLAN_WORDS;
use planwords::stages::{Due, Plan};
use runlaid::paused::Going;
pub use runlaid::runwords;

// Where the plan begins, and where the run.
pub const PLAN: usize = DUE_WORDS;

pub const GOING: usize = DUE_WORDS + PLAN_WORDS;

// Nothing is in hand.
pub fn put_nothing(state: &mut [u32])
    requires { length state.old ≡ state_words }
    ensures { PutMeets state.old Nothing state.new }
{
    cells::put::put_words(state, 0, &handwords::empty_words());
}

// What is due of the block whose plan the words have.
pub fn put_due(state: &mut [u32], deed: Due, due: Due)
    requires { length state.old ≡ state_words }
    ensures { PutMeets state.old (hand_from (plan_in state.old) (kept deed due) due) state.new }
{
    cells::put::put_words(state, 0, &handwords::due_words(deed, due));
}

// What is due of a block, with its plan.
pub fn put_hand(state: &mut [u32], plan: Plan, due: Due, origin: Origin)
    requires { length state.old ≡ state_words }
    ensures { PutMeets state.old (hand_kept plan due origin) state.new }
{
    let deed = plan.deed;
    cells::put::put_words(state, PLAN, &planwords::plan_words(plan, origin));
    put_due(state, deed, due);
}

// Where the run goes on.
pub fn put_run(state: &mut [u32], g: Going)
    requires { (length state.old ≡ state_words) × Small g }
    ensures run { run_in state.new ≡ g }
    ensures hand { (hand_in state.new ≡ hand_in state.old) × (length state.new ≡ state_words) }
{
    runlaid::put_going(&mut state[GOING..], g);
}
