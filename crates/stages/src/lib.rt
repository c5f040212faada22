// What is due of a block that is opened: its plan, the records that are no cycle's, and what is due behind each. Which records a block has stands in `writing`; `opening` opens a block, and `handing` hands its records out.
// (01: "Records of a block, in order: speed if S, tool if T, M of group 0, M of group 3, motion or dwell, then M00 or M30." 02, of an arc: "a following record, kind 10, carries the centre".)
// A cycle's records come from the cycle's own cursor; each of the others is a single one, made when it is due. A new cycle is one arm in each function that matches on what is due.
#![tactic(auto)]

ghost use Rattle.std.specs.Prelude.{◌≡◌};
ghost use Rattle.stages.specs.Cursor.{single_of, from_speed, from_tool, from_spindle, from_coolant, from_centre, behind_at, deed_row, stage_behind, Planned, Follows};

use moves::Record;

// The records that are no cycle's, in their order, and none. `Deed` is a dwell, a straight move or the end of an arc, `Centre` the arc's centre.
#[derive(Clone, Copy)]
pub enum Stage {
    Speed,
    Tool,
    Spindle,
    Coolant,
    Deed,
    Centre,
    Stop,
    Over,
}

// What is due: a record that is no cycle's, or the next of a cycle.
#[derive(Clone, Copy)]
pub enum Due {
    Turning(passes::Cursor),
    Threading(threads::Cursor),
    Grooving(plunges::Cursor),
    Drilling(bores::Cursor),
    Single(Stage),
}

// The records of a deed that is no cycle: its first, and the centre that follows it where the deed is an arc. Where none follows, no one asks for a centre.
#[derive(Clone, Copy)]
pub struct Own {
    pub goes: Record,
    pub centre: Record,
    pub has_centre: bool,
}

// What a block writes, as it stays while the block is written: the words that give a record, where the axes stand before the deed and behind it, the deed's records where it is no cycle, and
// what is due once the words before the deed have given theirs.
#[derive(Clone, Copy)]
pub struct Plan {
    pub x: i32,
    pub z: i32,
    pub speed: u32,
    pub tool: u32,
    pub spindle: u32,
    pub coolant: u32,
    pub own: Own,
    pub x_behind: i32,
    pub z_behind: i32,
    pub stop: u32,
    pub has_tool: bool,
    pub has_spindle: bool,
    pub has_coolant: bool,
    pub stops: bool,
    pub g96: bool,
    pub deed: Due,
}

// What is left of a block.
#[derive(Clone, Copy)]
pub struct Cursor {
    pub plan: Plan,
    pub due: Due,
}

// A record that is no cycle's. Where none is due, no caller asks.
pub fn single(p: Plan, stage: Stage) -> Record
    ensures { result ≡ single_of p stage }
{
    let own = p.own;
    match stage {
        Stage::Speed => Record::speed(p.x, p.z, p.speed, p.g96),
        Stage::Tool => Record::tool(p.x, p.z, p.tool),
        Stage::Spindle => Record::miscellaneous(p.x, p.z, p.spindle),
        Stage::Coolant => Record::miscellaneous(p.x, p.z, p.coolant),
        Stage::Deed => own.goes,
        Stage::Centre => own.centre,
        Stage::Stop => Record::miscellaneous(p.x_behind, p.z_behind, p.stop),
        Stage::Over => own.goes,
    }
}

// What is due behind the deed.
pub fn stage_behind(stops: bool) -> Stage
    ensures { result ≡ stage_behind stops }
{
    if stops {
        return Stage::Stop;
    }
    Stage::Over
}

// What is due behind the M word of group 0, behind the tool, and behind the speed.
fn after_spindle(p: Plan) -> Due
    requires { Planned p }
    ensures { Follows p (from_coolant p (deed_row p)) result }
{
    let deed = p.deed;
    if p.has_coolant {
        return Due::Single(Stage::Coolant);
    }
    deed
}

fn after_tool(p: Plan) -> Due
    requires { Planned p }
    ensures { Follows p (from_spindle p (deed_row p)) result }
{
    if p.has_spindle {
        return Due::Single(Stage::Spindle);
    }
    after_spindle(p)
}

fn after_speed(p: Plan) -> Due
    requires { Planned p }
    ensures { Follows p (from_tool p (deed_row p)) result }
{
    if p.has_tool {
        return Due::Single(Stage::Tool);
    }
    after_tool(p)
}

// What is due behind the deed's own record.
fn after_goes(p: Plan) -> Due
    ensures { Follows p (from_centre p) result }
{
    let own = p.own;
    if own.has_centre {
        return Due::Single(Stage::Centre);
    }
    Due::Single(stage_behind(p.stops))
}

// What is due behind a record that is no cycle's.
pub fn after(p: Plan, stage: Stage) -> Due
    requires { Planned p }
    ensures { Follows p (behind_at p (deed_row p) stage) result }
{
    match stage {
        Stage::Speed => after_speed(p),
        Stage::Tool => after_tool(p),
        Stage::Spindle => after_spindle(p),
        Stage::Coolant => p.deed,
        Stage::Deed => after_goes(p),
        Stage::Centre => Due::Single(stage_behind(p.stops)),
        Stage::Stop => Due::Single(Stage::Over),
        Stage::Over => Due::Single(Stage::Over),
    }
}

// What is due first.
pub fn first_due(p: Plan, has_speed: bool) -> Due
    requires { Planned p }
    ensures { Follows p (from_speed p has_speed (deed_row p)) result }
{
    if has_speed {
        return Due::Single(Stage::Speed);
    }
    after_speed(p)
}
