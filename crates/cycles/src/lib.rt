// The cycles as one family. Whoever runs a block asks a cycle what is asked here, and never which cycle it is.
// A new cycle is crates of its own, a row in the table of `codes` and in that of `stands`, a clause of `keep` of `acts`, the function of `scaling` that gives it its numbers and its clause in `deeds`, and one arm in each function below and in the block's cursor (`stages`, `opening`, `handing`).
#![tactic(auto)]

ghost use Rattle.std.specs.Prelude.{◌≡◌, false, length};
ghost use Rattle.axes.specs.Limits.{any_outside};
ghost use Rattle.cycles.specs.Cycle.{wrong, least_feed, records};
ghost use Rattle.cycles.specs.Known.{Known};

use drilling::Bore;
use grooving::Groove;
use settings::Limits;
use threading::Thread;
use turning::Turning;

// "A move by G01, G84 or G86 needs 1 to 9999, by G33 10 to 9999." A thread by G85 needs what G33 does, a bore by G87 or G88 what G84 does.
pub const LEAST_FEED: u32 = 1;

pub const LEAST_PITCH: u32 = 10;

pub const GREATEST_FEED: u32 = 9_999;

#[derive(Clone, Copy)]
pub enum Cycle {
    Turning(Turning),
    Threading(Thread),
    Grooving(Groove),
    Drilling(Bore),
}

// Alarm 19: lengths, directions, tool width or bites.
pub fn is_wrong(c: Cycle) -> bool
    ensures { result ≡ wrong c }
{
    match c {
        Cycle::Turning(t) => turning::is_wrong(t),
        Cycle::Threading(t) => threading::is_wrong(t),
        Cycle::Grooving(g) => grooving::is_wrong(g),
        Cycle::Drilling(b) => drilling::is_wrong(b),
    }
}

// Alarm 17: the least F that the cycle takes.
pub fn least_feed(c: Cycle) -> u32
    ensures { result ≡ least_feed c }
{
    match c {
        Cycle::Turning(_) => LEAST_FEED,
        Cycle::Threading(_) => LEAST_PITCH,
        Cycle::Grooving(_) => LEAST_FEED,
        Cycle::Drilling(_) => LEAST_FEED,
    }
}

// Alarm 18: a move of the cycle ends outside the limits. Alarm 19 was judged before.
pub fn ends_outside(c: Cycle, l: Limits) -> bool
    requires { (wrong c ≡ false) × Known c }
    ensures { result ≡ any_outside l (records c) }
{
    match c {
        Cycle::Turning(t) => turning::ends_outside(t, l),
        Cycle::Threading(t) => threading::ends_outside(t, l),
        Cycle::Grooving(g) => grooving::ends_outside(g, l),
        Cycle::Drilling(b) => drilling::ends_outside(b, l),
    }
}

// Alarm 20: how many records the cycle has. Alarm 19 was judged before.
pub fn record_count(c: Cycle) -> u64
    requires { (wrong c ≡ false) × Known c }
    ensures { result ≡ length (records c) }
{
    match c {
        Cycle::Turning(t) => turning::record_count(t),
        Cycle::Threading(t) => threading::record_count(t),
        Cycle::Grooving(g) => grooving::record_count(g),
        Cycle::Drilling(b) => drilling::record_count(b),
    }
}
