// A block is opened: its plan is made, and its first record is due. (02, of an arc: "a following record, kind 10, carries the centre".) What is due stands in `stages`.
#![tactic(auto)]

ghost use Rattle.std.specs.Prelude.{◌≡◌, false};
ghost use Rattle.cycles.specs.Cycle.{wrong, records};
ghost use Rattle.cycles.specs.Known as cycle;
ghost use Rattle.deeds.specs.Known.{Right, Known};
ghost use Rattle.writing.specs.Writes.{writes};
ghost use Rattle.stages.specs.Cursor.{rest_of, Sound};
ghost use Rattle.opening.specs.Opened.{alone, own_of_round, own_in, Opens, OpensDeed, IsPlan};

use block::Block;
use cycles::Cycle;
use deeds::{Deed, Round};
use moves::Record;
use stages::{Cursor, Due, Own, Plan, Stage};
use state::State;

// A record that no centre follows.
fn alone(goes: Record) -> Own
    ensures { result ≡ alone goes }
{
    Own {
        goes,
        centre: goes,
        has_centre: false,
    }
}

// The two records of an arc. (02: "kinds 8 and 9 are as kind 2 with the end point, and a following record, kind 10, carries the centre".)
fn own_of_round(r: Round) -> Own
    ensures { result ≡ own_of_round r }
{
    let arc = r.arc;
    let goes = arcs::end_record(arc, r.f, r.g95);
    let centre = arcs::centre_record(arc);
    Own {
        goes,
        centre,
        has_centre: true,
    }
}

// The deed's records where it is no cycle. Of a deed that has none, none is due, and no caller asks.
fn own_of(d: Deed) -> Own
    ensures { result ≡ own_in d }
{
    match d {
        Deed::Nothing => alone(Record::rapid(0, 0)),
        Deed::Nowhere => alone(Record::rapid(0, 0)),
        Deed::Dwell(r) => alone(r),
        Deed::Straight(m) => alone(m.goes),
        Deed::Round(r) => own_of_round(r),
        Deed::Cycle(_) => alone(Record::rapid(0, 0)),
    }
}

// A cycle before its first record. Alarm 19 was judged before.
fn open_cycle(c: Cycle) -> Due
    requires { (wrong c ≡ false) × cycle.Known c }
    ensures { Opens (records c) result }
{
    match c {
        Cycle::Turning(t) => Due::Turning(passes::open(t)),
        Cycle::Threading(t) => Due::Threading(threads::open(t)),
        Cycle::Grooving(g) => Due::Grooving(plunges::open(g)),
        Cycle::Drilling(b) => Due::Drilling(bores::open(b)),
    }
}

// What is due once the words before the deed have given their records.
fn open_deed(d: Deed, stops: bool) -> Due
    requires { Right d × Known d }
    ensures { OpensDeed d stops result }
{
    match d {
        Deed::Nothing => Due::Single(stages::stage_behind(stops)),
        Deed::Nowhere => Due::Single(stages::stage_behind(stops)),
        Deed::Dwell(_) => Due::Single(Stage::Deed),
        Deed::Straight(_) => Due::Single(Stage::Deed),
        Deed::Round(_) => Due::Single(Stage::Deed),
        Deed::Cycle(c) => open_cycle(c),
    }
}

// What a block writes, of the settled state.
fn plan_of(s: State, b: Block, d: Deed) -> Plan
    requires { Right d × Known d }
    ensures { IsPlan s b d result }
{
    let behind = writing::done_of(s, d);
    let stops = writing::stops(b);
    let own = own_of(d);
    let deed = open_deed(d, stops);
    Plan {
        x: s.x,
        z: s.z,
        speed: block::code_in(b, block::S),
        tool: block::code_in(b, block::T),
        spindle: block::code_in(b, block::SPINDLE),
        coolant: block::code_in(b, block::COOLANT),
        own,
        x_behind: behind.x,
        z_behind: behind.z,
        stop: block::code_in(b, block::FLOW),
        has_tool: block::has(b, block::T),
        has_spindle: block::has(b, block::SPINDLE),
        has_coolant: block::has(b, block::COOLANT),
        stops,
        g96: s.g96,
        deed,
    }
}

// A block before its first record, of the settled state. It was not refused.
pub fn open_block(s: State, b: Block, d: Deed) -> Cursor
    requires { Right d × Known d }
    ensures { (rest_of result.plan result.due ≡ writes s b d) × Sound result.plan result.due }
{
    let plan = plan_of(s, b, d);
    let due = stages::first_due(plan, block::has(b, block::S));
    Cursor { plan, due }
}
