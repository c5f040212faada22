// A thread that is opened: it hands out its records one after the other. What a thread is stands in `threading`, its depths in `depths`.
// Each pass line is made from the one before it and what the next cut takes; a constant cut has no product and no quotient.
#![tactic(auto)]

ghost use Rattle.std.specs.Prelude.{◌≡◌, true, false, ◌<◌};
ghost use Rattle.axes.specs.declared.Stage.TheVariants.{In, Cut, Out, Back};
ghost use Rattle.cuts.specs.Cuts as cut;
ghost use Rattle.threading.specs.Threading.{wrong, threading, Told};
ghost use Rattle.threads.specs.Cursor.{rest_of, over, at, Sound, Makes};

use axes::Stage;
use cuts::Cuts;
use moves::{Handed, Record};
use threading::{Pass, Thread};
use whole::Side;

// `line` and `depth` are those of the present pass, and before the first pass those of the crest; `cuts` and `empty` cuts are left behind it.
#[derive(Clone, Copy)]
pub struct Cursor {
    pub pass: Pass,
    pub side: Side,
    pub line: i32,
    pub depth: u32,
    pub cuts: Cuts,
    pub empty: u32,
    pub stage: Stage,
}

// A cycle before its first record. Alarm 19 was asked before.
pub fn open(t: Thread) -> Cursor
    requires { Told t × (wrong t ≡ false) }
    ensures { (rest_of result ≡ threading t) × Sound result }
{
    let infeed = t.infeed;
    let rule = t.rule;
    let pass = threading::pass_of(t);
    let side = whole::side_of(infeed.start, infeed.target);
    let line = threading::crest_of(t);
    let cuts = cuts::open(rule, t.d3, t.d6);
    Cursor {
        pass,
        side,
        line,
        depth: 0,
        cuts,
        empty: t.empty,
        stage: Stage::In,
    }
}

// Whether no record is left.
pub fn is_over(c: Cursor) -> bool
    ensures { result ≡ over c }
{
    let stage = c.stage;
    let cuts = c.cuts;
    match stage {
        Stage::In => cuts::is_over(cuts) & (c.empty == 0),
        Stage::Cut => false,
        Stage::Out => false,
        Stage::Back => false,
    }
}

// The next record, and what is left behind it.
pub fn next(c: Cursor) -> Handed<Cursor>
    requires { Sound c × (over c ≡ false) }
    ensures { Makes c result.record result.rest }
{
    let stage = c.stage;
    match stage {
        Stage::In => go_in(c),
        Stage::Cut => cut(c),
        Stage::Out => go_out(c),
        Stage::Back => go_back(c),
    }
}

// The same pass at another of its records.
fn at_stage(c: Cursor, stage: Stage) -> Cursor
    ensures { result ≡ at c stage }
{
    let pass = c.pass;
    let side = c.side;
    let cuts = c.cuts;
    Cursor {
        pass,
        side,
        line: c.line,
        depth: c.depth,
        cuts,
        empty: c.empty,
        stage,
    }
}

// "rapid in": to the line of the next cut, or, where none is left, to the same line again.
fn go_in(c: Cursor) -> Handed<Cursor>
    requires { Sound c × (c.stage ≡ In) × (over c ≡ false) }
    ensures { Makes c result.record result.rest }
{
    let cuts = c.cuts;
    if cuts::is_over(cuts) {
        return go_in_again(c);
    }
    go_deeper(c)
}

// "Empty cuts repeat the last pass".
fn go_in_again(c: Cursor) -> Handed<Cursor>
    requires { Sound c × (c.stage ≡ In) × (cut.over c.cuts ≡ true) × (0 < c.empty) }
    ensures { Makes c result.record result.rest }
{
    let pass = c.pass;
    let side = c.side;
    let cuts = c.cuts;
    let record = axes::goes::rapid_to(pass.facing, c.line, pass.home);
    let rest = Cursor {
        pass,
        side,
        line: c.line,
        depth: c.depth,
        cuts,
        empty: c.empty - 1,
        stage: Stage::Cut,
    };
    Handed { record, rest }
}

// The line of the next cut: the line before it, and what the cut takes.
fn go_deeper(c: Cursor) -> Handed<Cursor>
    requires { Sound c × (c.stage ≡ In) × (cut.over c.cuts ≡ false) }
    ensures { Makes c result.record result.rest }
{
    let pass = c.pass;
    let side = c.side;
    let present = c.cuts;
    let handed = cuts::next(c.depth, present);
    let depth = handed.depth;
    let cuts = handed.rest;
    let by = threading::wide_of(pass.facing, depth - c.depth) as u32;
    let line = whole::step(c.line, side, by);
    let record = axes::goes::rapid_to(pass.facing, line, pass.home);
    let rest = Cursor {
        pass,
        side,
        line,
        depth,
        cuts,
        empty: c.empty,
        stage: Stage::Cut,
    };
    Handed { record, rest }
}

// "thread"
fn cut(c: Cursor) -> Handed<Cursor>
    requires { Sound c × (c.stage ≡ Cut) }
    ensures { Makes c result.record result.rest }
{
    let pass = c.pass;
    let record = axes::goes::thread_to(pass.facing, pass.pitch, c.line, pass.end);
    let rest = at_stage(c, Stage::Out);
    Handed { record, rest }
}

// "rapid out"
fn go_out(c: Cursor) -> Handed<Cursor>
    requires { Sound c × (c.stage ≡ Out) }
    ensures { Makes c result.record result.rest }
{
    let pass = c.pass;
    let record = axes::goes::rapid_to(pass.facing, pass.from, pass.end);
    let rest = at_stage(c, Stage::Back);
    Handed { record, rest }
}

// "rapid back"
fn go_back(c: Cursor) -> Handed<Cursor>
    requires { Sound c × (c.stage ≡ Back) }
    ensures { Makes c result.record result.rest }
{
    let pass = c.pass;
    let record = axes::goes::rapid_to(pass.facing, pass.from, pass.home);
    let rest = at_stage(c, Stage::In);
    Handed { record, rest }
}
