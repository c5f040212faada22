// The settings as a row of numbers, as a caller in C hands them over. Each number has its place, and new settings come behind the old ones.
// And what 01's program `listmoves` runs with: "with main 1, lowest subroutine 80, retract 500, start X 60000 Z 50000, limits -200000 to 200000, table zero"; and with the factory's one empty cut
// (02: "factory 1") and no points asked for. The stored tapes and the trials run with it too.
#![tactic(auto)]

ghost use Rattle.std.specs.Prelude.{◌≡◌, length};
ghost use Rattle.panel.specs.Row.{settings_count, unfit, settings_of};
ghost use Rattle.panel.specs.Listmoves.{listmoves_row, listmoves, no_offsets};

use settings::{Limits, Settings, Span, TABLE_SIZE};

pub const MAIN: usize = 0;

pub const LOWEST_SUBROUTINE: usize = 1;

pub const RETRACT: usize = 2;

pub const START_X: usize = 3;

pub const START_Z: usize = 4;

pub const X_LOWEST: usize = 5;

pub const X_HIGHEST: usize = 6;

pub const Z_LOWEST: usize = 7;

pub const Z_HIGHEST: usize = 8;

pub const EMPTY_CUTS: usize = 9;

pub const POINTS: usize = 10;

// How many settings there are.
pub const COUNT: usize = 11;

// Whether they are not as many, or main, lowest subroutine, retract or the empty cuts are below 0, or the points neither 0 nor 1. What else alarm 1 asks of them is judged of the settings (`settings::settings_wrong`).
pub fn unfit(numbers: &[i32]) -> bool
    ensures { result ≡ unfit numbers.now }
{
    if numbers.len() != COUNT {
        return true;
    }
    let below = (numbers[MAIN] < 0)
        | (numbers[LOWEST_SUBROUTINE] < 0)
        | (numbers[RETRACT] < 0)
        | (numbers[EMPTY_CUTS] < 0);
    let points = numbers[POINTS];
    below | ((points < 0) | (1 < points))
}

pub fn settings_of(numbers: &[i32]) -> Settings
    requires { length numbers.now ≡ settings_count }
    ensures { result ≡ settings_of numbers.now }
{
    let x = Span {
        lowest: numbers[X_LOWEST],
        highest: numbers[X_HIGHEST],
    };
    let z = Span {
        lowest: numbers[Z_LOWEST],
        highest: numbers[Z_HIGHEST],
    };
    Settings {
        main: whole::magnitude(numbers[MAIN]),
        lowest_subroutine: whole::magnitude(numbers[LOWEST_SUBROUTINE]),
        retract: whole::magnitude(numbers[RETRACT]),
        x: numbers[START_X],
        z: numbers[START_Z],
        limits: Limits { x, z },
        empty_cuts: whole::magnitude(numbers[EMPTY_CUTS]),
        points: 0 < numbers[POINTS],
    }
}

// In the order of the row.
pub fn row_of_listmoves() -> [i32; COUNT]
    ensures { result ≡ listmoves_row }
{
    [
        1, 80, 500, 60_000, 50_000, -200_000, 200_000, -200_000, 200_000, 1, 0,
    ]
}

pub fn of_listmoves() -> Settings
    ensures { result ≡ listmoves }
{
    let row = row_of_listmoves();
    settings_of(&row)
}

pub fn no_offsets() -> [i32; TABLE_SIZE]
    ensures { result ≡ no_offsets }
{
    [0i32; TABLE_SIZE]
}
