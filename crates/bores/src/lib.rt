// A bore that is opened: it hands out its records one after the other, of G87 and of G88. What a bore is stands in `drilling`.
// Each bite is made from the one before it, by one product and one quotient of 100; nothing else has either.
#![tactic(auto)]

ghost use Rattle.std.specs.Prelude.{◌≡◌, false, cond, ◌-◌, ◌≤◌, ◌<◌, eqb};
ghost use Rattle.moves.specs.Kinds.{dwell};
ghost use Rattle.drilling.specs.Drilling.{stroke_of, wrong, deep_at, bore_to, out_to, drilling};
ghost use Rattle.bores.specs.declared.Stage.TheVariants.{Bite, Home, Back, Dwell, Out};
ghost use Rattle.bores.specs.Cursor.{rest_of, over, at, after_bite, after_last, bitten, bottomed, Sound, Makes};

use drilling::Bore;
use moves::{Handed, Record};

// Which record comes next: a bite, the rapid to the start between two bites (G88), the rapid to the retract short of the depth reached, the dwell, the rapid to the start at the end, or none.
#[derive(Clone, Copy)]
pub enum Stage {
    Bite,
    Home,
    Back,
    Dwell,
    Out,
    Over,
}

// `deep` is the depth reached, `bite` the next bite as it is before it is cut to reach the target, `left` what is left of the stroke.
#[derive(Clone, Copy)]
pub struct Cursor {
    pub bore: Bore,
    pub stage: Stage,
    pub deep: u32,
    pub bite: u32,
    pub left: u32,
}

// The first bite: all of the stroke where none is asked for.
fn first_bite(first: u32, stroke: u32) -> u32
    ensures { result ≡ cond (eqb first 0) stroke first }
{
    if first == 0 {
        return stroke;
    }
    first
}

// A bore before its first record. It was not refused (alarm 19).
pub fn open(b: Bore) -> Cursor
    requires { wrong b ≡ false }
    ensures { (rest_of result ≡ drilling b) × Sound result }
{
    let stroke = drilling::stroke_of(b);
    let bite = first_bite(b.first, stroke);
    Cursor {
        bore: b,
        stage: Stage::Bite,
        deep: 0,
        bite,
        left: stroke,
    }
}

// Whether no record is left.
pub fn is_over(c: Cursor) -> bool
    ensures { result ≡ over c }
{
    let stage = c.stage;
    match stage {
        Stage::Bite => false,
        Stage::Home => false,
        Stage::Back => false,
        Stage::Dwell => false,
        Stage::Out => false,
        Stage::Over => true,
    }
}

// The next record, and what is left behind it.
pub fn next(c: Cursor) -> Handed<Cursor>
    requires { Sound c × (over c ≡ false) }
    ensures { Makes c result.record result.rest }
{
    let stage = c.stage;
    match stage {
        Stage::Bite => bite(c),
        Stage::Home => go_home(c),
        Stage::Back => draw_back(c),
        Stage::Dwell => dwell(c),
        Stage::Out => go_out(c),
        // none is left: no caller comes here
        Stage::Over => go_out(c),
    }
}

// The place at depth t, from the start toward the target.
fn deep_at(b: Bore, t: u32) -> i32
    requires { t ≤ stroke_of b }
    ensures { result ≡ deep_at b t }
{
    let start = b.start;
    let target = b.target;
    let side = whole::side_of(start, target);
    whole::step(start, side, t)
}

// The feed to the depth t, the rapid there, the rapid to the start, and the dwell at the target.
fn feed_at(b: Bore, t: u32) -> Record
    requires { t ≤ stroke_of b }
    ensures { result ≡ bore_to b (deep_at b t) }
{
    let to = deep_at(b, t);
    Record::feed(b.x, to, b.f, b.g95)
}

fn rapid_at(b: Bore, t: u32) -> Record
    requires { t ≤ stroke_of b }
    ensures { result ≡ out_to b (deep_at b t) }
{
    let to = deep_at(b, t);
    Record::rapid(b.x, to)
}

fn rapid_home(b: Bore) -> Record
    ensures { result ≡ out_to b b.start }
{
    Record::rapid(b.x, b.start)
}

fn dwell_of(b: Bore) -> Record
    ensures { result ≡ dwell b.x b.target b.dwell }
{
    Record::dwell(b.x, b.target, b.dwell)
}

// The same cursor at another of its records.
fn at_stage(c: Cursor, stage: Stage) -> Cursor
    ensures { result ≡ at c stage }
{
    Cursor { stage, ..c }
}

// Which stage follows a bite that is not the last, and which the last one.
fn after_bite(full: bool) -> Stage
    ensures { result ≡ after_bite full }
{
    if full {
        return Stage::Home;
    }
    Stage::Back
}

fn after_last(dwell: u32) -> Stage
    ensures { result ≡ after_last dwell }
{
    if dwell == 0 {
        return Stage::Out;
    }
    Stage::Dwell
}

// The cursor behind a bite that is not the last.
fn bite_off(c: Cursor) -> Cursor
    requires { Sound c × (c.bite < c.left) }
    ensures { result ≡ bitten c }
{
    let bore = c.bore;
    let stage = after_bite(bore.full);
    let deep = c.deep + c.bite;
    let bite = bites::next_bite(c.bite, bore.less, bore.least);
    let left = c.left - c.bite;
    Cursor {
        stage,
        deep,
        bite,
        left,
        ..c
    }
}

// The cursor behind the last bite, which is cut to reach the target exactly.
fn reach_bottom(c: Cursor) -> Cursor
    requires { Sound c }
    ensures { result ≡ bottomed c }
{
    let bore = c.bore;
    let stage = after_last(bore.dwell);
    let deep = c.deep + c.left;
    Cursor {
        stage,
        deep,
        left: 0,
        ..c
    }
}

// A bite that is not the last.
fn bite_more(c: Cursor) -> Handed<Cursor>
    requires { Sound c × (c.stage ≡ Bite) × (c.bite < c.left) }
    ensures { Makes c result.record result.rest }
{
    let b = c.bore;
    let rest = bite_off(c);
    let t = rest.deep;
    let record = feed_at(b, t);
    Handed { record, rest }
}

// The last bite.
fn bite_last(c: Cursor) -> Handed<Cursor>
    requires { Sound c × (c.stage ≡ Bite) × (c.left ≤ c.bite) }
    ensures { Makes c result.record result.rest }
{
    let b = c.bore;
    let rest = reach_bottom(c);
    let t = rest.deep;
    let record = feed_at(b, t);
    Handed { record, rest }
}

fn bite(c: Cursor) -> Handed<Cursor>
    requires { Sound c × (c.stage ≡ Bite) }
    ensures { Makes c result.record result.rest }
{
    if c.bite < c.left {
        return bite_more(c);
    }
    bite_last(c)
}

// The rapid to the start between two bites.
fn go_home(c: Cursor) -> Handed<Cursor>
    requires { Sound c × (c.stage ≡ Home) }
    ensures { Makes c result.record result.rest }
{
    let b = c.bore;
    let record = rapid_home(b);
    let rest = at_stage(c, Stage::Back);
    Handed { record, rest }
}

// The rapid to the retract short of the depth reached, not past the start.
fn draw_back(c: Cursor) -> Handed<Cursor>
    requires { Sound c × (c.stage ≡ Back) }
    ensures { Makes c result.record result.rest }
{
    let b = c.bore;
    let t = c.deep.saturating_sub(b.back);
    let record = rapid_at(b, t);
    let rest = at_stage(c, Stage::Bite);
    Handed { record, rest }
}

// "D4 dwells at the target"
fn dwell(c: Cursor) -> Handed<Cursor>
    requires { Sound c × (c.stage ≡ Dwell) }
    ensures { Makes c result.record result.rest }
{
    let b = c.bore;
    let record = dwell_of(b);
    let rest = at_stage(c, Stage::Out);
    Handed { record, rest }
}

// "then rapid to the start"
fn go_out(c: Cursor) -> Handed<Cursor>
    requires { Sound c × (c.stage ≡ Out) }
    ensures { Makes c result.record result.rest }
{
    let b = c.bore;
    let record = rapid_home(b);
    let rest = at_stage(c, Stage::Over);
    Handed { record, rest }
}
