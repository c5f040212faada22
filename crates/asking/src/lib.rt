// The alarms of a deed, in the paper's order: 15, 16, 17, 19, 18, 20. (01: "then blocks as run: .. 15, 16, 17, 19, 18, 20".)
// Nothing is written and no cycle is opened to judge it.
#![tactic(auto)]

ghost use Rattle.std.specs.Prelude.{◌≡◌, ◌<◌};
ghost use Rattle.cycles.specs.Cycle as cycle;
ghost use Rattle.cycles.specs.Known as known;
ghost use Rattle.asking.specs.Judge.{quiet, of_straight, of_round, of_cycle, asks_of, alarm_of};
ghost use Rattle.settings.specs.Known.{SpanIn};
ghost use Rattle.deeds.specs.Known.{Curved, Known};

use cycles::Cycle;
use deeds::{Deed, Round, Straight};
use settings::Limits;

// What the alarms ask of a deed: whether it has a path word with no motion (15), whether it is a traverse and no G00 (16), the least F that it takes, 0 where none is asked for (17),
// whether its lengths are wrong (19), whether a move of it ends, or an arc strays, outside the limits (18), how many records it has (20).
#[derive(Clone, Copy)]
pub struct Asks {
    pub nowhere: bool,
    pub waits: bool,
    pub least: u32,
    pub wrong: bool,
    pub outside: bool,
    pub count: u64,
}

// What is asked of a deed that moves nothing.
fn quiet(count: u64) -> Asks
    ensures { result ≡ quiet count }
{
    Asks {
        nowhere: false,
        waits: false,
        least: 0,
        wrong: false,
        outside: false,
        count,
    }
}

fn of_straight(m: Straight, l: Limits) -> Asks
    ensures { result ≡ of_straight m l }
{
    let goes = m.goes;
    let outside = settings::is_outside(l, goes.x, goes.z);
    Asks {
        nowhere: false,
        waits: !m.rapid,
        least: m.least,
        wrong: false,
        outside,
        count: 1,
    }
}

// "need F and want a path word as G01 does"; "a zero distance or unequal distances in 19; a quadrant point outside in 18".
fn of_round(round: Round, l: Limits) -> Asks
    requires { Curved round × SpanIn l.x × SpanIn l.z }
    ensures { result ≡ of_round round l }
{
    let arc = round.arc;
    let wrong = arcs::is_uneven(arc);
    let outside = straying::is_straying(l, arc);
    Asks {
        nowhere: false,
        waits: true,
        least: cycles::LEAST_FEED,
        wrong,
        outside,
        count: 2,
    }
}

// Nothing more is asked of a cycle whose lengths are wrong: 19 comes before 18 and 20.
fn of_cycle(c: Cycle, l: Limits) -> Asks
    requires { known.Known c }
    ensures { (result ≡ of_cycle c l) × (result.count < 1_000_000_000_000_000_000) }
{
    let least = cycles::least_feed(c);
    if cycles::is_wrong(c) {
        return Asks {
            nowhere: false,
            waits: true,
            least,
            wrong: true,
            outside: false,
            count: 0,
        };
    }
    let outside = cycles::ends_outside(c, l);
    let count = cycles::record_count(c);
    Asks {
        nowhere: false,
        waits: true,
        least,
        wrong: false,
        outside,
        count,
    }
}

// The one place of the judgement that goes by the kind of a deed.
pub fn asks_of(d: Deed, l: Limits) -> Asks
    requires { Known d × SpanIn l.x × SpanIn l.z }
    ensures { (result ≡ asks_of d l) × (result.count < 1_000_000_000_000_000_000) }
{
    match d {
        Deed::Nothing => quiet(0),
        Deed::Nowhere => Asks {
            nowhere: true,
            waits: false,
            least: 0,
            wrong: false,
            outside: false,
            count: 0,
        },
        Deed::Dwell(_) => quiet(1),
        Deed::Straight(m) => of_straight(m, l),
        Deed::Round(r) => of_round(r, l),
        Deed::Cycle(c) => of_cycle(c, l),
    }
}

// What a block asks beside: whether a G00 is due, the feed in force, how many records the block has beside the deed's, and how many may still be written.
#[derive(Clone, Copy)]
pub struct Asked {
    pub rapid_due: bool,
    pub f: u32,
    pub other_count: u32,
    pub room_left: u32,
}

// The alarm, 0 for none.
pub fn alarm_of(q: Asks, a: Asked) -> u8
    requires { q.count < 1_000_000_000_000_000_000 }
    ensures { result ≡ alarm_of q a }
{
    if q.nowhere {
        return alarms::NO_MOTION;
    }
    if a.rapid_due & q.waits {
        return alarms::NOT_RAPID;
    }
    if (0 < q.least) & ((cycles::GREATEST_FEED < a.f) | (a.f < q.least)) {
        return alarms::BAD_FEED;
    }
    if q.wrong {
        return alarms::BAD_LENGTHS;
    }
    if q.outside {
        return alarms::OUTSIDE_LIMITS;
    }
    let records = q.count + (a.other_count as u64);
    if (0 < records) & ((a.room_left as u64) < records) {
        return alarms::NO_ROOM;
    }
    0
}
