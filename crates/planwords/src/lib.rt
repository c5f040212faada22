// The plan of a block in words, without its deed, which is kept with what is due, and the block that it came from.
#![tactic(auto)]

ghost use Rattle.std.specs.Prelude.{◌≡◌, ◌+◌, ◌≤◌, length};
ghost use Rattle.stages.specs.declared.Due.{Due};
ghost use Rattle.resumable.specs.Kept.{with_deed};
ghost use Rattle.planwords.specs.Plan.{plan_words, record_words, record_at, own_at, Tail, plan_of, origin_of};

use moves::{Origin, Record};
pub use stages;
use stages::{Due, Own, Plan};

pub const PLAN_WORDS: usize = 27;

const RECORD_WORDS: usize = 5;

// Where the words say whether M00 or M30 stands behind the deed.
const STOPS: usize = 25;

fn record_words(r: Record) -> [u32; RECORD_WORDS]
    ensures { record_at result 0 ≡ r }
{
    let kind = cells::figures::byte_word(r.kind);
    let flags = cells::figures::byte_word(r.flags);
    let x = cells::figures::word_of(r.x);
    let z = cells::figures::word_of(r.z);
    [kind, flags, x, z, r.value]
}

fn record_at(w: &[u32], at: usize) -> Record
    requires { at + record_words ≤ length w.now }
    ensures { result ≡ record_at w.now at }
{
    Record {
        kind: cells::figures::byte_at(w, at),
        flags: cells::figures::byte_at(w, at + 1),
        x: cells::figures::signed_at(w, at + 2),
        z: cells::figures::signed_at(w, at + 3),
        value: w[at + 4],
    }
}

fn own_of(w: &[u32]) -> Own
    requires { length w.now ≡ plan_words }
    ensures { result ≡ own_at w.now 8 }
{
    let goes = record_at(w, 8);
    let centre = record_at(w, 13);
    Own {
        goes,
        centre,
        has_centre: cells::figures::flag_at(w, 18),
    }
}

pub fn plan_of(w: &[u32], deed: Due) -> Plan
    requires { length w.now ≡ plan_words }
    ensures { result ≡ plan_of w.now deed }
{
    let own = own_of(w);
    Plan {
        x: cells::figures::signed_at(w, 2),
        z: cells::figures::signed_at(w, 3),
        speed: w[4],
        tool: w[5],
        spindle: w[6],
        coolant: w[7],
        own,
        x_behind: cells::figures::signed_at(w, 19),
        z_behind: cells::figures::signed_at(w, 20),
        stop: w[21],
        has_tool: cells::figures::flag_at(w, 22),
        has_spindle: cells::figures::flag_at(w, 23),
        has_coolant: cells::figures::flag_at(w, 24),
        stops: cells::figures::flag_at(w, STOPS),
        g96: cells::figures::flag_at(w, 26),
        deed,
    }
}

pub fn origin_of(w: &[u32]) -> Origin
    requires { length w.now ≡ plan_words }
    ensures { result ≡ origin_of w.now }
{
    Origin {
        program: cells::figures::short_at(w, 0),
        block: cells::figures::short_at(w, 1),
    }
}

// Whether M00 or M30 stands behind the deed.
pub fn stops_of(w: &[u32]) -> bool
    requires { length w.now ≡ plan_words }
    ensures { (d : Due) → result ≡ (plan_of w.now d).stops }
{
    cells::figures::flag_at(w, STOPS)
}

fn own_words(own: Own) -> [u32; 11]
    ensures { own_at result 0 ≡ own }
{
    let goes = record_words(own.goes);
    let centre = record_words(own.centre);
    let has_centre = cells::figures::flag_word(own.has_centre);
    [
        goes[0], goes[1], goes[2], goes[3], goes[4], centre[0], centre[1], centre[2], centre[3],
        centre[4], has_centre,
    ]
}

// Where the axes stand behind the deed, what stops the run there, and the flags.
fn tail_words(p: Plan) -> [u32; 8]
    ensures { Tail result p }
{
    let x_behind = cells::figures::word_of(p.x_behind);
    let z_behind = cells::figures::word_of(p.z_behind);
    let has_tool = cells::figures::flag_word(p.has_tool);
    let has_spindle = cells::figures::flag_word(p.has_spindle);
    let has_coolant = cells::figures::flag_word(p.has_coolant);
    let stops = cells::figures::flag_word(p.stops);
    let g96 = cells::figures::flag_word(p.g96);
    [
        x_behind,
        z_behind,
        p.stop,
        has_tool,
        has_spindle,
        has_coolant,
        stops,
        g96,
    ]
}

pub fn plan_words(p: Plan, o: Origin) -> [u32; PLAN_WORDS]
    ensures { ((d : Due) → plan_of result d ≡ with_deed p d) × (origin_of result ≡ o) }
{
    let program = cells::figures::short_word(o.program);
    let block = cells::figures::short_word(o.block);
    let x = cells::figures::word_of(p.x);
    let z = cells::figures::word_of(p.z);
    let own = own_words(p.own);
    let tail = tail_words(p);
    [
        program, block, x, z, p.speed, p.tool, p.spindle, p.coolant, own[0], own[1], own[2],
        own[3], own[4], own[5], own[6], own[7], own[8], own[9], own[10], tail[0], tail[1], tail[2],
        tail[3], tail[4], tail[5], tail[6], tail[7],
    ]
}
