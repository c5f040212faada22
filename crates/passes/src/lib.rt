// A turning cycle that is opened: it hands out its records one after the other. What a turning cycle is stands in `turning`.
// Each pass line is made from the one before it and the next piece of the division; no pass has a product or a quotient.
#![tactic(auto)]

ghost use Rattle.std.specs.Prelude.{◌≡◌, true, false, ◌<◌};
ghost use Rattle.axes.specs.declared.Stage.TheVariants.{In, Cut, Out, Back};
ghost use Rattle.turning.specs.Turning.{too_short, turning};
ghost use Rattle.passes.specs.Cursor.{rest_of, over, before_pass, at, Sound, Makes, MakesPass};

use axes::Stage;
use division::Pieces;
use moves::{Handed, Record};
use turning::{Pass, Turning};
use whole::Side;

// `line` is the line of the present pass, between two passes that of the one before, and before the first pass the start; `depths` are those of the passes that are left behind it.
#[derive(Clone, Copy)]
pub struct Cursor {
    pub pass: Pass,
    pub side: Side,
    pub line: i32,
    pub depths: Pieces,
    pub stage: Stage,
}

// A pass as a whole: its four records, and what is left behind them.
#[derive(Clone, Copy)]
pub struct Passed {
    pub inward: Record,
    pub along: Record,
    pub outward: Record,
    pub home: Record,
    pub rest: Cursor,
}

// A cycle before its first record. Its lengths were asked for before (alarm 19).
pub fn open(c: Turning) -> Cursor
    requires { too_short c ≡ false }
    ensures { (rest_of result ≡ turning c) × Sound result }
{
    let infeed = c.infeed;
    let from = infeed.start;
    let pass = turning::pass_of(c);
    let side = whole::side_of(from, infeed.target);
    let e = axes::net_of(infeed);
    let n = turning::pass_count(e, c.division);
    let depths = division::divide(e, n);
    Cursor {
        pass,
        side,
        line: from,
        depths,
        stage: Stage::In,
    }
}

// Whether no record is left.
pub fn is_over(c: Cursor) -> bool
    ensures { result ≡ over c }
{
    let stage = c.stage;
    let depths = c.depths;
    match stage {
        Stage::In => depths.left == 0,
        Stage::Cut => false,
        Stage::Out => false,
        Stage::Back => false,
    }
}

// The next record, and what is left behind it.
pub fn next(c: Cursor) -> Handed<Cursor>
    requires { Sound c × (over c ≡ false) }
    ensures { Makes c result.record result.rest }
{
    let stage = c.stage;
    match stage {
        Stage::In => go_in(c),
        Stage::Cut => cut(c),
        Stage::Out => go_out(c),
        Stage::Back => go_back(c),
    }
}

// The same pass at another of its records.
fn at_stage(c: Cursor, stage: Stage) -> Cursor
    ensures { result ≡ at c stage }
{
    let pass = c.pass;
    let side = c.side;
    let depths = c.depths;
    Cursor {
        pass,
        side,
        line: c.line,
        depths,
        stage,
    }
}

// "rapid X to the pass line": the line before it, and one piece of the division more.
fn go_in(c: Cursor) -> Handed<Cursor>
    requires { Sound c × (c.stage ≡ In) × (0 < c.depths.left) }
    ensures { Makes c result.record result.rest × (result.rest.stage ≡ Cut) }
{
    let pass = c.pass;
    let side = c.side;
    let depths = c.depths;
    let handed = division::hand_out(depths);
    let line = whole::step(c.line, side, handed.piece);
    let record = axes::goes::rapid_to(pass.facing, line, pass.home);
    let others = handed.rest;
    let rest = Cursor {
        pass,
        side,
        line,
        depths: others,
        stage: Stage::Cut,
    };
    Handed { record, rest }
}

// "feed Z to the end line"
fn cut(c: Cursor) -> Handed<Cursor>
    requires { Sound c × (c.stage ≡ Cut) }
    ensures { Makes c result.record result.rest × (result.rest.stage ≡ Out) }
{
    let pass = c.pass;
    let record = axes::goes::feed_to(pass.facing, pass.f, pass.g95, c.line, pass.end);
    let rest = at_stage(c, Stage::Out);
    Handed { record, rest }
}

// "feed X to the start X"
fn go_out(c: Cursor) -> Handed<Cursor>
    requires { Sound c × (c.stage ≡ Out) }
    ensures { Makes c result.record result.rest × (result.rest.stage ≡ Back) }
{
    let pass = c.pass;
    let record = axes::goes::feed_to(pass.facing, pass.f, pass.g95, pass.from, pass.end);
    let rest = at_stage(c, Stage::Back);
    Handed { record, rest }
}

// "rapid Z to the start Z"
fn go_back(c: Cursor) -> Handed<Cursor>
    requires { Sound c × (c.stage ≡ Back) }
    ensures { Makes c result.record result.rest × (result.rest.stage ≡ In) }
{
    let pass = c.pass;
    let record = axes::goes::rapid_to(pass.facing, pass.from, pass.home);
    let rest = at_stage(c, Stage::In);
    Handed { record, rest }
}

// Whether the next record, if there is one, is the first of a pass.
pub fn is_before_pass(c: Cursor) -> bool
    ensures { result ≡ before_pass c }
{
    let stage = c.stage;
    match stage {
        Stage::In => true,
        Stage::Cut => false,
        Stage::Out => false,
        Stage::Back => false,
    }
}

// The four records of a pass at once, where its first is the next.
pub fn next_pass(c: Cursor) -> Passed
    requires { Sound c × (before_pass c ≡ true) × (over c ≡ false) }
    ensures { MakesPass c result }
{
    let first = go_in(c);
    let inward = first.record;
    let at_line = first.rest;
    let second = cut(at_line);
    let along = second.record;
    let at_end = second.rest;
    let third = go_out(at_end);
    let outward = third.record;
    let outside = third.rest;
    let fourth = go_back(outside);
    let home = fourth.record;
    let rest = fourth.rest;
    Passed {
        inward,
        along,
        outward,
        home,
        rest,
    }
}
