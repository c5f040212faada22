// What is due of a block that is opened, as 32-bit words that a caller lends, both ways. The first says what is in hand: nothing, a record of a word before the deed, or one of the deed; the second is the tag of what is kept beside it, which follows.
// A record of a word before the deed leaves the deed whole, so the deed is kept; from the deed on, what is due is all that is kept.
// Reading is total: any words are something due, and whether that is sound is asked elsewhere. The plan of the block, and where it came from, stand in `planwords`.
#![tactic(auto)]

ghost use Rattle.std.specs.Prelude.{◌≡◌, true, false, ◌<◌, length};
ghost use Rattle.stages.specs.declared.Due.{Due};
ghost use Rattle.stages.specs.declared.Due.TheVariants.{Single};
ghost use Rattle.cells.specs.Numbers.{at};
ghost use Rattle.cyclewords.specs.Sizes.{due_words};
ghost use Rattle.resumable.specs.Kept.{leads, kept};
ghost use Rattle.handwords.specs.Due.{is_empty, is_deed, stage_of, slot_of, due_from, due_by, Hands};

use cyclewords::DUE_WORDS;
pub use resumable;
use stages::{Due, Stage};

// What is in hand.
const NOTHING: u32 = 0;

const LEADS_SPEED: u32 = 1;

const LEADS_TOOL: u32 = 2;

const LEADS_SPINDLE: u32 = 3;

const LEADS_COOLANT: u32 = 4;

pub const DEEDS: u32 = 5;

// The tags of what is kept; those of the cycles stand with the cycles.
const SPEED: u32 = 0;

const TOOL: u32 = 1;

const SPINDLE: u32 = 2;

const COOLANT: u32 = 3;

const DEED: u32 = 4;

const CENTRE: u32 = 5;

const STOP: u32 = 6;

const OVER: u32 = 7;

fn stage_word(stage: Stage) -> u32
    ensures { (stage_of result ≡ stage) × (result < 8) }
{
    match stage {
        Stage::Speed => SPEED,
        Stage::Tool => TOOL,
        Stage::Spindle => SPINDLE,
        Stage::Coolant => COOLANT,
        Stage::Deed => DEED,
        Stage::Centre => CENTRE,
        Stage::Stop => STOP,
        Stage::Over => OVER,
    }
}

fn stage_of(u: u32) -> Stage
    ensures { result ≡ stage_of u }
{
    match u {
        SPEED => Stage::Speed,
        TOOL => Stage::Tool,
        SPINDLE => Stage::Spindle,
        COOLANT => Stage::Coolant,
        DEED => Stage::Deed,
        CENTRE => Stage::Centre,
        STOP => Stage::Stop,
        _ => Stage::Over,
    }
}

// What is kept beside what is in hand.
#[tactic(auto, unfolding(crate::specs::Due::slot_of))]
pub fn slot_of(w: &[u32]) -> Due
    requires { length w.now ≡ due_words }
    ensures { result ≡ slot_of w.now }
{
    match w[1] {
        cyclewords::turned::TAG => Due::Turning(cyclewords::turned::cursor_of(w)),
        cyclewords::threaded::TAG => Due::Threading(cyclewords::threaded::cursor_of(w)),
        cyclewords::grooved::TAG => Due::Grooving(cyclewords::grooved::cursor_of(w)),
        cyclewords::drilled::TAG => Due::Drilling(cyclewords::drilled::cursor_of(w)),
        tag => Due::Single(stage_of(tag)),
    }
}

fn due_from(hand: u32, slot: Due) -> Due
    ensures { result ≡ due_from hand slot }
{
    match hand {
        LEADS_SPEED => Due::Single(Stage::Speed),
        LEADS_TOOL => Due::Single(Stage::Tool),
        LEADS_SPINDLE => Due::Single(Stage::Spindle),
        LEADS_COOLANT => Due::Single(Stage::Coolant),
        _ => slot,
    }
}

// What is due, where anything is in hand.
pub fn due_of(w: &[u32], slot: Due) -> Due
    requires { length w.now ≡ due_words }
    ensures { result ≡ due_by w.now slot }
{
    due_from(w[0], slot)
}

// Whether nothing is in hand.
pub fn is_empty(w: &[u32]) -> bool
    requires { length w.now ≡ due_words }
    ensures { result ≡ is_empty w.now }
{
    w[0] == NOTHING
}

// Whether a record of the deed is due, so that what is kept is what is due.
pub fn is_deed(w: &[u32]) -> bool
    requires { length w.now ≡ due_words }
    ensures { result ≡ is_deed w.now }
{
    w[0] == DEEDS
}

pub fn empty_words() -> [u32; DUE_WORDS]
    ensures { is_empty result ≡ true }
{
    [NOTHING; DUE_WORDS]
}

// Whether a record is one of a word before the deed.
fn is_lead(stage: Stage) -> bool
    ensures { result ≡ leads stage }
{
    match stage {
        Stage::Speed => true,
        Stage::Tool => true,
        Stage::Spindle => true,
        Stage::Coolant => true,
        Stage::Deed => false,
        Stage::Centre => false,
        Stage::Stop => false,
        Stage::Over => false,
    }
}

// What is kept of a deed where a single record is due, and where anything is.
fn kept_at(deed: Due, stage: Stage) -> Due
    ensures { result ≡ kept deed (Single stage) }
{
    if is_lead(stage) {
        return deed;
    }
    Due::Single(stage)
}

fn kept_of(deed: Due, due: Due) -> Due
    ensures { result ≡ kept deed due }
{
    match due {
        Due::Turning(_) => due,
        Due::Threading(_) => due,
        Due::Grooving(_) => due,
        Due::Drilling(_) => due,
        Due::Single(stage) => kept_at(deed, stage),
    }
}

fn hand_at(stage: Stage) -> u32
    ensures { Hands result (Single stage) }
{
    match stage {
        Stage::Speed => LEADS_SPEED,
        Stage::Tool => LEADS_TOOL,
        Stage::Spindle => LEADS_SPINDLE,
        Stage::Coolant => LEADS_COOLANT,
        Stage::Deed => DEEDS,
        Stage::Centre => DEEDS,
        Stage::Stop => DEEDS,
        Stage::Over => DEEDS,
    }
}

fn hand_of(due: Due) -> u32
    ensures { Hands result due }
{
    match due {
        Due::Turning(_) => DEEDS,
        Due::Threading(_) => DEEDS,
        Due::Grooving(_) => DEEDS,
        Due::Drilling(_) => DEEDS,
        Due::Single(stage) => hand_at(stage),
    }
}

fn single_words(hand: u32, stage: Stage) -> [u32; DUE_WORDS]
    ensures { (at result 0 ≡ hand) × (slot_of result ≡ Single stage) }
{
    let tag = stage_word(stage);
    [
        hand, tag, 0, 0, 0, 0, 0, 0, 0, 0, 0, 0, 0, 0, 0, 0, 0, 0, 0, 0, 0, 0, 0, 0, 0, 0, 0,
    ]
}

fn slot_words(hand: u32, slot: Due) -> [u32; DUE_WORDS]
    ensures { (at result 0 ≡ hand) × (slot_of result ≡ slot) }
{
    match slot {
        Due::Turning(c) => cyclewords::turned::words_of(hand, c),
        Due::Threading(c) => cyclewords::threaded::words_of(hand, c),
        Due::Grooving(c) => cyclewords::grooved::words_of(hand, c),
        Due::Drilling(c) => cyclewords::drilled::words_of(hand, c),
        Due::Single(stage) => single_words(hand, stage),
    }
}

pub fn due_words(deed: Due, due: Due) -> [u32; DUE_WORDS]
    ensures { (slot_of result ≡ kept deed due) × (due_by result (kept deed due) ≡ due) × (is_empty result ≡ false) }
{
    let hand = hand_of(due);
    let slot = kept_of(deed, due);
    slot_words(hand, slot)
}
