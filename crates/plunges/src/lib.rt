// A groove that is opened: it hands out its records one after the other. What a groove is stands in `grooving`.
// Each depth and each place across is made from the one before it and the next piece of its division; no plunge and no cut has a product or a quotient.
#![tactic(auto)]

pub mod before;

ghost use Rattle.std.specs.Prelude.{◌≡◌, true, false, cond, ◌-◌, ◌<◌, ◌≤◌};
ghost use Rattle.division.specs.Carried.{row_of};
ghost use Rattle.grooving.specs.Grooving.{length_of, wrong, steps, cuts, deep_at, grooving};
ghost use Rattle.plunges.specs.declared.Stage.TheVariants.{Cut, Back, Dwell, Out, Across, Over};
ghost use Rattle.plunges.specs.Cursor.{rest_of, over, before_cut, before_cut_and_back, at, after_cut, Sound, Makes, MakesCut};

use division::Pieces;
use grooving::Groove;
use moves::{Handed, Record};
use whole::Side;

// Which record comes next: a cut, the rapid back between two cuts, the dwell, the rapid out, the rapid to the next plunge or to the start, or none.
#[derive(Clone, Copy)]
pub enum Stage {
    Cut,
    Back,
    Dwell,
    Out,
    Across,
    Over,
}

// The present plunge stands at `width`, has reached the depth `deep`, and has `cuts` left; `plunge` has the cuts of every plunge, `steps` are those across that are
// left. Where there are `several` plunges, a rapid to the start ends the cycle.
#[derive(Clone, Copy)]
pub struct Cursor {
    pub groove: Groove,
    pub stage: Stage,
    pub width: i32,
    pub deep: u32,
    pub cuts: Pieces,
    pub plunge: Pieces,
    pub steps: Pieces,
    pub several: bool,
}

// A cut and the rapid back behind it, and what is left behind them.
#[derive(Clone, Copy)]
pub struct CutAndBack {
    pub cut: Record,
    pub back: Record,
    pub rest: Cursor,
}

// The cuts of a plunge.
fn cuts_of(g: Groove) -> Pieces
    requires { wrong g ≡ false }
    ensures { row_of result ≡ cuts g }
{
    let depth = g.depth;
    let deep = grooving::length_of(depth);
    let n = grooving::cut_count(g);
    division::divide(deep, n)
}

// The steps from plunge to plunge.
fn steps_of(g: Groove) -> Pieces
    requires { wrong g ≡ false }
    ensures { row_of result ≡ steps g }
{
    let width = g.width;
    let rest = grooving::length_of(width) - g.tool;
    if rest == 0 {
        return division::divide_nothing();
    }
    let n = grooving::step_count(g);
    division::divide(rest, n)
}

// A groove before its first record. It was not refused (alarm 19).
pub fn open(g: Groove) -> Cursor
    requires { wrong g ≡ false }
    ensures { (rest_of result ≡ grooving g) × Sound result }
{
    let width = g.width;
    let cuts = cuts_of(g);
    let steps = steps_of(g);
    Cursor {
        groove: g,
        stage: Stage::Cut,
        width: width.start,
        deep: 0,
        cuts,
        plunge: cuts,
        steps,
        several: 0 < steps.left,
    }
}

// Whether no record is left.
pub fn is_over(c: Cursor) -> bool
    ensures { result ≡ over c }
{
    let stage = c.stage;
    match stage {
        Stage::Cut => false,
        Stage::Back => false,
        Stage::Dwell => false,
        Stage::Out => false,
        Stage::Across => false,
        Stage::Over => true,
    }
}

// The next record, and what is left behind it.
pub fn next(c: Cursor) -> Handed<Cursor>
    requires { Sound c × (over c ≡ false) }
    ensures { Makes c result.record result.rest }
{
    let stage = c.stage;
    match stage {
        Stage::Cut => cut(c),
        Stage::Back => draw_back(c),
        Stage::Dwell => dwell(c),
        Stage::Out => go_out(c),
        Stage::Across => go_across(c),
        // none is left: no caller comes here
        Stage::Over => go_across(c),
    }
}

// The same, for a path that has grooves alone (`passhand`). The choice is written out once more so that either has one caller and becomes a part of it: as a function by itself it would keep its
// numbers below the stack pointer, also where a list is written, and an interrupt on the same stack would break them.
pub fn next_alone(c: Cursor) -> Handed<Cursor>
    requires { Sound c × (over c ≡ false) }
    ensures { Makes c result.record result.rest }
{
    let stage = c.stage;
    match stage {
        Stage::Cut => cut(c),
        Stage::Back => draw_back(c),
        Stage::Dwell => dwell(c),
        Stage::Out => go_out(c),
        Stage::Across => go_across(c),
        // none is left: no caller comes here
        Stage::Over => go_across(c),
    }
}

// The same plunge at another of its records.
fn at_stage(c: Cursor, stage: Stage) -> Cursor
    ensures { result ≡ at c stage }
{
    Cursor { stage, ..c }
}

// The place at depth t, from the start toward the target.
fn deep_at(g: Groove, t: u32) -> i32
    requires { t ≤ length_of g.depth }
    ensures { result ≡ deep_at g t }
{
    let depth = g.depth;
    let start = depth.start;
    let target = depth.target;
    let side = whole::side_of(start, target);
    match side {
        Side::Plus => whole::step(start, Side::Plus, t),
        Side::Minus => whole::step(start, Side::Minus, t),
        // the target is the start, and t is 0: a step to either side. So told, the loop over the cuts has two ways to go and not three, and costs less.
        Side::Zero => whole::step(start, Side::Plus, t),
    }
}

// What follows a cut: the rapid back for the next one, or the dwell, or the rapid out.
fn after_cut(left: u32, dwell: u32) -> Stage
    ensures { result ≡ after_cut left dwell }
{
    if 0 < left {
        return Stage::Back;
    }
    if 0 < dwell {
        return Stage::Dwell;
    }
    Stage::Out
}

// A cut, one piece deeper than the one before it.
pub fn cut(c: Cursor) -> Handed<Cursor>
    requires { Sound c × (c.stage ≡ Cut) }
    ensures { Makes c result.record result.rest × (result.rest.stage ≡ after_cut (c.cuts.left - 1) c.groove.dwell) }
{
    let groove = c.groove;
    let plunge = c.plunge;
    let steps = c.steps;
    let width = c.width;
    let handed = division::hand_out(c.cuts);
    let deep = c.deep + handed.piece;
    let cuts = handed.rest;
    let to = deep_at(groove, deep);
    let record = axes::goes::feed_to(groove.facing, groove.f, groove.g95, to, width);
    let stage = after_cut(cuts.left, groove.dwell);
    let rest = Cursor {
        groove,
        stage,
        width,
        deep,
        cuts,
        plunge,
        steps,
        several: c.several,
    };
    Handed { record, rest }
}

// The rapid back between two cuts, not past the start.
fn draw_back(c: Cursor) -> Handed<Cursor>
    requires { Sound c × (c.stage ≡ Back) }
    ensures { Makes c result.record result.rest × (result.rest.stage ≡ Cut) }
{
    let groove = c.groove;
    let t = c.deep.saturating_sub(groove.back);
    let to = deep_at(groove, t);
    let record = axes::goes::rapid_to(groove.facing, to, c.width);
    let rest = at_stage(c, Stage::Cut);
    Handed { record, rest }
}

// "Then dwell if D4 is above 0"
pub fn dwell(c: Cursor) -> Handed<Cursor>
    requires { Sound c × (c.stage ≡ Dwell) }
    ensures { Makes c result.record result.rest × (result.rest.stage ≡ Out) }
{
    let groove = c.groove;
    let depth = groove.depth;
    let record = axes::goes::dwell_at(groove.facing, groove.dwell, depth.target, c.width);
    let rest = at_stage(c, Stage::Out);
    Handed { record, rest }
}

// "rapid to start X"
pub fn go_out(c: Cursor) -> Handed<Cursor>
    requires { Sound c × (c.stage ≡ Out) }
    ensures { Makes c result.record result.rest × (result.rest.stage ≡ cond c.several Across Over) }
{
    let groove = c.groove;
    let depth = groove.depth;
    let record = axes::goes::rapid_to(groove.facing, depth.start, c.width);
    if c.several {
        let rest = at_stage(c, Stage::Across);
        return Handed { record, rest };
    }
    let rest = at_stage(c, Stage::Over);
    Handed { record, rest }
}

// "rapid to the next Z", or, behind the last plunge, "rapid to start Z at the end"
pub fn go_across(c: Cursor) -> Handed<Cursor>
    requires { Sound c × (c.stage ≡ Across) }
    ensures { Makes c result.record result.rest × (before_cut result.rest ≡ true) }
{
    let steps = c.steps;
    if steps.left == 0 {
        return go_home(c);
    }
    go_on(c)
}

fn go_home(c: Cursor) -> Handed<Cursor>
    requires { Sound c × (c.stage ≡ Across) × (c.steps.left ≡ 0) }
    ensures { Makes c result.record result.rest × (before_cut result.rest ≡ true) }
{
    let groove = c.groove;
    let depth = groove.depth;
    let width = groove.width;
    let record = axes::goes::rapid_to(groove.facing, depth.start, width.start);
    let rest = at_stage(c, Stage::Over);
    Handed { record, rest }
}

// Behind another plunge there are several, whatever the flag was: the rapid to the start comes at the end.
fn go_on(c: Cursor) -> Handed<Cursor>
    requires { Sound c × (c.stage ≡ Across) × (0 < c.steps.left) }
    ensures { Makes c result.record result.rest × (before_cut result.rest ≡ true) }
{
    let groove = c.groove;
    let plunge = c.plunge;
    let depth = groove.depth;
    let handed = division::hand_out(c.steps);
    let width = whole::step(c.width, Side::Minus, handed.piece);
    let steps = handed.rest;
    let record = axes::goes::rapid_to(groove.facing, depth.start, width);
    let rest = Cursor {
        groove,
        stage: Stage::Cut,
        width,
        deep: 0,
        cuts: plunge,
        plunge,
        steps,
        several: true,
    };
    Handed { record, rest }
}

// A cut and the rapid back behind it at once, where these are the next two records.
pub fn next_cut(c: Cursor) -> CutAndBack
    requires { Sound c × (before_cut_and_back c ≡ true) }
    ensures { MakesCut c result }
{
    let first = cut(c);
    let down = first.record;
    let below = first.rest;
    let second = draw_back(below);
    let back = second.record;
    let rest = second.rest;
    CutAndBack {
        cut: down,
        back,
        rest,
    }
}
