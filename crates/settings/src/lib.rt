// What a control is set to: its settings and soft limits, what alarm 1 asks of them and of the offset table, and whether a place lies outside the limits (alarm 18).
// (01: "Offset table: 208 signed numbers"; "Settings: main program number; lowest subroutine number ..; retract ..; start position; soft limits"; of alarm 1 "table not 208 numbers, a number out of range,
// lowest limit above highest, start outside limits, lowest subroutine above 255, main above 6999 or from lowest subroutine to 255".)
#![tactic(auto)]

ghost use Rattle.std.specs.Prelude.{◌≡◌};
ghost use Rattle.settings.specs.Wrong.{table_wrong, span_wrong, numbers_wrong, settings_wrong};
ghost use Rattle.settings.specs.Points.{with_points};
ghost use Rattle.settings.specs.Limits.{outside_span, outside};

use whole::position::Position;

// How many numbers the offset table has.
pub const TABLE_SIZE: usize = 208;

pub const GREATEST_RETRACT: u32 = 32_767;

// The most empty cuts that a thread has where its block names none (02: "S01, factory 1, 0 to 32,767").
pub const GREATEST_EMPTY_CUTS: u32 = 32_767;

// The highest number of a program, and of one that can be called.
pub const HIGHEST_PROGRAM: u32 = 6_999;

pub const HIGHEST_SUBROUTINE: u32 = 255;

// (01: "Settings: main program number; lowest subroutine number ..; retract ..; start position; soft limits X and Z, lowest and highest"; 02: "Empty cuts repeat the last pass D4
// times, else as a new setting says"; "a setting turns missing points into an alarm for X Z U W".)
#[derive(Clone, Copy)]
pub struct Settings {
    pub main: u32,
    pub lowest_subroutine: u32,
    pub retract: u32,
    pub x: i32,
    pub z: i32,
    pub limits: Limits,
    pub empty_cuts: u32,
    // whether the numbers of X Z U W must have a point (alarm 21)
    pub points: bool,
}

// Whether the table has not its size, or a number out of range. All its numbers are looked at, so that the compiler compares several at once.
fn table_wrong(table: &[i32]) -> bool
    ensures { result ≡ table_wrong table.now }
{
    if table.len() != TABLE_SIZE {
        return true;
    }
    table.iter().fold(false, |wrong, number| wrong | !Position::in_table(*number))
}

// Whether the limits of an axis or its start are wrong.
fn span_wrong(s: Span, start: i32) -> bool
    ensures { result ≡ span_wrong s start }
{
    let range = !Position::in_table(s.lowest) | !Position::in_table(s.highest);
    let order = !Position::in_table(start) | (s.highest < s.lowest);
    range | (order | outside_span(s, start))
}

fn numbers_wrong(main: u32, lowest: u32) -> bool
    ensures { result ≡ numbers_wrong main lowest }
{
    let called = (lowest <= main) & (main <= HIGHEST_SUBROUTINE);
    (HIGHEST_SUBROUTINE < lowest) | ((HIGHEST_PROGRAM < main) | called)
}

// Alarm 1.
pub fn settings_wrong(table: &[i32], set: Settings) -> bool
    ensures { result ≡ settings_wrong table.now set }
{
    let limits = set.limits;
    let x = limits.x;
    let z = limits.z;
    let given = table_wrong(table)
        | (GREATEST_RETRACT < set.retract)
        | (GREATEST_EMPTY_CUTS < set.empty_cuts);
    let spans = span_wrong(x, set.x) | span_wrong(z, set.z);
    given | (spans | numbers_wrong(set.main, set.lowest_subroutine))
}

// The settings with points asked for or not, and all else as it is.
pub fn with_points(set: Settings, points: bool) -> Settings
    ensures { result ≡ with_points points set }
{
    Settings { points, ..set }
}

#[derive(Clone, Copy)]
pub struct Span {
    pub lowest: i32,
    pub highest: i32,
}

#[derive(Clone, Copy)]
pub struct Limits {
    pub x: Span,
    pub z: Span,
}

pub fn outside_span(s: Span, v: i32) -> bool
    ensures { result ≡ outside_span s v }
{
    (v < s.lowest) | (s.highest < v)
}

pub fn is_outside(l: Limits, x: i32, z: i32) -> bool
    ensures { result ≡ outside l x z }
{
    let for_x = l.x;
    let for_z = l.z;
    outside_span(for_x, x) | outside_span(for_z, z)
}
