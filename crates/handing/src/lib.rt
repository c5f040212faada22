// A block that is opened hands out its records one after the other, whatever its deed; none is left where it is over. What is due stands in `stages`.
#![tactic(auto)]

ghost use Rattle.std.specs.Prelude.{◌≡◌, false};
ghost use Rattle.stages.specs.Cursor.{stage_over, cycle_over, over, Sound, Makes};

use moves::Handed;
use stages::{Due, Plan, Stage};

// Whether none of the records that are no cycle's is due.
fn is_stage_over(stage: Stage) -> bool
    ensures { result ≡ stage_over stage }
{
    match stage {
        Stage::Speed => false,
        Stage::Tool => false,
        Stage::Spindle => false,
        Stage::Coolant => false,
        Stage::Deed => false,
        Stage::Centre => false,
        Stage::Stop => false,
        Stage::Over => true,
    }
}

// Whether a cycle is due that has no record left.
fn is_cycle_over(due: Due) -> bool
    ensures { result ≡ cycle_over due }
{
    match due {
        Due::Turning(c) => passes::is_over(c),
        Due::Threading(c) => threads::is_over(c),
        Due::Grooving(c) => plunges::is_over(c),
        Due::Drilling(c) => bores::is_over(c),
        Due::Single(_) => false,
    }
}

// Whether no record is left.
pub fn is_over(p: Plan, due: Due) -> bool
    ensures { result ≡ over p due }
{
    match due {
        Due::Turning(c) => passes::is_over(c) & !p.stops,
        Due::Threading(c) => threads::is_over(c) & !p.stops,
        Due::Grooving(c) => plunges::is_over(c) & !p.stops,
        Due::Drilling(c) => bores::is_over(c) & !p.stops,
        Due::Single(stage) => is_stage_over(stage),
    }
}

// The next record, and what is due behind it: of a cycle that is over, M00 or M30.
pub fn next(p: Plan, due: Due) -> Handed<Due>
    requires { Sound p due × (over p due ≡ false) }
    ensures { Makes p due result.record result.rest }
{
    if is_cycle_over(due) {
        return Handed {
            record: stages::single(p, Stage::Stop),
            rest: Due::Single(Stage::Over),
        };
    }
    next_on(p, due)
}

// The same of a single record that is due, or of a cycle that has one left.
fn next_on(p: Plan, due: Due) -> Handed<Due>
    requires { Sound p due × (over p due ≡ false) × (cycle_over due ≡ false) }
    ensures { Makes p due result.record result.rest }
{
    match due {
        Due::Turning(c) => {
            let handed = passes::next(c);
            let record = handed.record;
            let behind = handed.rest;
            Handed {
                record,
                rest: Due::Turning(behind),
            }
        }
        Due::Threading(c) => {
            let handed = threads::next(c);
            let record = handed.record;
            let behind = handed.rest;
            Handed {
                record,
                rest: Due::Threading(behind),
            }
        }
        Due::Grooving(c) => {
            let handed = plunges::next(c);
            let record = handed.record;
            let behind = handed.rest;
            Handed {
                record,
                rest: Due::Grooving(behind),
            }
        }
        Due::Drilling(c) => {
            let handed = bores::next(c);
            let record = handed.record;
            let behind = handed.rest;
            Handed {
                record,
                rest: Due::Drilling(behind),
            }
        }
        Due::Single(stage) => Handed {
            record: stages::single(p, stage),
            rest: stages::after(p, stage),
        },
    }
}
