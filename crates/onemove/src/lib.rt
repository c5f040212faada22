// ONE MOVE AT A TIME, with the engine's state in words that the caller lends: a run is started in them, and asked for its next record or its answer. (02, request 12: "hands out the next record or
// the alarm when asked"; "After an alarm or the end it repeats that answer; a new start clears it.")
// While a block has records, an ask hands out the next of them (`inhand`); else blocks are done, until one has a record or the run is over (`stepping`). Words from elsewhere are tested before
// they are used: those that cannot be asked (`CanAsk`) are refused, all others are answered, whoever made them.
#![tactic(auto)]

ghost use Rattle.std.specs.Prelude.{◌≡◌, true, false, ◌≤◌, length};
ghost use Rattle.panel.specs.Row.{unfit};
ghost use Rattle.moves.specs.Form.{record_size};
ghost use Rattle.packing.specs.of_taking.declared.Hand.TheVariants.{Nothing, Block};
ghost use Rattle.runbounds.specs.of_paused.declared.Phase.TheVariants.{Running};
ghost use Rattle.stepping.specs.of_holding.Held.{Held};
ghost use Rattle.stepping.specs.Meets.{Stands};
ghost use Rattle.runbounds.specs.of_runwords.Laid.{Small};
ghost use Rattle.inhand.specs.State.{state_words, hand_in, run_in};
ghost use Rattle.onemove.specs.OneMove.{CanGoOn, OneGiven, FirstMeets, AskMeets, NextMeets, BegunMeets, places_started, StartsIn};

pub use inhand;
use inhand::handwords;
use moves::Origin;
pub use packing;
use packing::Told;
use packing::answers::Answer;
use packing::stages::Cursor;
use packing::taking::Hand;
use runbounds::paused::{Going, Phase};
pub use runbounds::runwords;
use stepping::{Turned, holding};

// Lays the first record of a block that was opened, and puts what is left of it into the words.
fn give_one(state: &mut [u32], c: Cursor, origin: Origin, record: &mut [u8])
    requires { (length state.old ≡ state_words) × Held (Block c origin) × (record_size ≤ length «record».old) }
    ensures { OneGiven (Block c origin) state.old «record».old state.new «record».new }
{
    let taken = holding::take_record(c, origin);
    let listed = taken.listed;
    let rest = taken.rest;
    let what = listed.what;
    let block = listed.origin;
    moves::list::put_record(record, what, block);
    match rest {
        Hand::Nothing => {
            inhand::put_nothing(state);
        }
        Hand::Block(left, from) => {
            let plan = left.plan;
            let due = left.due;
            inhand::put_hand(state, plan, due, from);
        }
    }
}

// Puts what some turns have come to into the words, and lays the first record. Where there is none, the run is over.
fn give_first(state: &mut [u32], turned: Turned, record: &mut [u8]) -> Told
    requires { (length state.old ≡ state_words) × (hand_in state.old ≡ Nothing) × Held turned.hand × Stands turned.hand turned.going.phase × Small turned.going × (record_size ≤ length «record».old) }
    ensures { FirstMeets turned «record».old result state.new «record».new }
{
    let going = turned.going;
    let phase = going.phase;
    let hand = turned.hand;
    inhand::put_run(state, going);
    match hand {
        Hand::Block(c, origin) => {
            give_one(state, c, origin, record);
            Told::Move
        }
        Hand::Nothing => match phase {
            Phase::Over(answer) => Told::Over(answer),
            // a turn that has nothing in hand is over: no caller comes here
            Phase::Running => Told::Refused,
        },
    }
}

// Whether a run from elsewhere can go on: its numbers are within their bounds, its state is one that a block can run on, something of a tape was read (cleared words are no state), and tape and table of places are as long as it needs them.
fn can_go_on(g: Going, tape: usize, places: usize) -> bool
    ensures sound { result ≡ true → CanGoOn tape places g }
    ensures all { CanGoOn tape places g → result ≡ true }
{
    if !runbounds::is_kept(g) {
        return false;
    }
    let run = g.run;
    let state = run.state;
    if !stateable::is_fit(state) {
        return false;
    }
    (0 < g.end) & ((g.end <= tape) & (g.filled <= places))
}

// The blocks up to the next one that has a record, or to the end.
fn go_on(
    tape: &[u8],
    table: &[i32],
    settings: &[i32],
    places: &[u64],
    state: &mut [u32],
    record: &mut [u8],
) -> Told
    requires { (length state.old ≡ state_words) × (hand_in state.old ≡ Nothing) × ((run_in state.old).phase ≡ Running) × (record_size ≤ length «record».old) }
    ensures { AskMeets tape.now table.now settings.now places.now state.old «record».old result state.new «record».new }
{
    if panel::unfit(settings) {
        return Told::Refused;
    }
    let set = panel::settings_of(settings);
    if settings::settings_wrong(table, set) {
        return Told::Refused;
    }
    let g = runwords::going_of(&state[inhand::GOING..]);
    if !can_go_on(g, tape.len(), places.len()) {
        return Told::Refused;
    }
    let end = g.end;
    let running = settings::with_points(set, false);
    let lines = &tape[..end];
    let turned = stepping::advance(lines, table, running, places, g);
    give_first(state, turned, record)
}

// The next record, or the answer. The tape, its table of offsets, the settings and the table of places are lent as they were at the start, the last as the start left it.
pub fn next(
    tape: &[u8],
    table: &[i32],
    settings: &[i32],
    places: &[u64],
    state: &mut [u32],
    record: &mut [u8],
) -> Told
    ensures { NextMeets tape.now table.now settings.now places.now state.old «record».old result state.new «record».new }
{
    if state.len() != inhand::STATE_WORDS {
        return Told::Refused;
    }
    if record.len() < moves::RECORD_SIZE {
        return Told::Refused;
    }
    if !handwords::is_empty(&state[..inhand::PLAN]) {
        if inhand::give_next(state, record) {
            return Told::Move;
        }
        return Told::Refused;
    }
    let phase = runwords::phase_of(&state[inhand::GOING..]);
    if !runbounds::is_fitting(phase) {
        return Told::Refused;
    }
    match phase {
        Phase::Over(again) => Told::Over(again),
        Phase::Running => go_on(tape, table, settings, places, state, record),
    }
}

// The run that is started.
fn begun(tape: &[u8], table: &[i32], settings: &[i32], places: &mut [u64]) -> Going
    ensures run { BegunMeets tape.now table.now settings.now places.old result }
    ensures filled { places.new ≡ places_started tape.now table.now settings.now places.old }
{
    if panel::unfit(settings) {
        return starting::refused(alarms::BAD_SETTINGS, 0);
    }
    let set = panel::settings_of(settings);
    starting::start(tape, table, set, places)
}

// Starts a run in the words: whether they are as many as a state has. Nothing of what they held is asked for.
pub fn start(
    tape: &[u8],
    table: &[i32],
    settings: &[i32],
    places: &mut [u64],
    state: &mut [u32],
) -> bool
    ensures { StartsIn tape.now table.now settings.now places.old state.old result places.new state.new }
{
    if state.len() != inhand::STATE_WORDS {
        return false;
    }
    let going = begun(tape, table, settings, places);
    inhand::put_run(state, going);
    inhand::put_nothing(state);
    true
}
