// What a case is run with: the numbers of the table and the settings. They stand in one array, the table's 208 first and then the settings, as 01's
// `listmoves` has them until a line names another: `=retract 300`, `=empty 2`, `=points 1`, `=offset 3 -1500` for number 3 of the table, `=bytes 24` for the buffer's size, `=numbers 207` for a table cut short, `=held 3` for the entries of the table of places; the first two letters of a word tell it.
ghost use Rattle.std.specs.Prelude.{◌≡◌, ◌<◌, ◌≤◌, IfSome};
ghost use Rattle.settings.specs.Wrong.{table_size};
ghost use Rattle.stored.specs.Given.{usual};
ghost use Rattle.stored.specs.Texts.{EndOf};

use crate::text;
use numbers::{Number, NumberForm};

const TABLE: usize = settings::TABLE_SIZE;

pub const MAIN: usize = TABLE + panel::MAIN;

pub const LOWEST: usize = TABLE + panel::LOWEST_SUBROUTINE;

pub const RETRACT: usize = TABLE + panel::RETRACT;

pub const X: usize = TABLE + panel::START_X;

pub const Z: usize = TABLE + panel::START_Z;

pub const X_LOW: usize = TABLE + panel::X_LOWEST;

pub const X_HIGH: usize = TABLE + panel::X_HIGHEST;

pub const Z_LOW: usize = TABLE + panel::Z_LOWEST;

pub const Z_HIGH: usize = TABLE + panel::Z_HIGHEST;

pub const EMPTY: usize = TABLE + panel::EMPTY_CUTS;

pub const POINTS: usize = TABLE + panel::POINTS;

const NUMBERS: usize = TABLE + panel::COUNT;

const BYTES: usize = NUMBERS + 1;

const HELD: usize = BYTES + 1;

// How many numbers there are.
pub const ALL: usize = HELD + 1;

// A table of zeros and the settings of `listmoves`, as the contract holds them to be; its table of places is long enough for every tape, and its buffer has room for every list.
pub fn usual() -> [i32; ALL]
    ensures { result ≡ usual }
{
    let mut given = [0i32; ALL];
    given[MAIN] = 1;
    given[LOWEST] = 80;
    given[RETRACT] = 500;
    given[X] = 60_000;
    given[Z] = 50_000;
    given[X_LOW] = -200_000;
    given[X_HIGH] = 200_000;
    given[Z_LOW] = -200_000;
    given[Z_HIGH] = 200_000;
    given[EMPTY] = 1;
    given[NUMBERS] = 208;
    given[BYTES] = 64_008;
    given[HELD] = 21_845;
    given
}

fn at_most(n: u32, most: usize) -> usize
    ensures { result ≤ most }
{
    (n as usize).min(most)
}

// How many numbers the table has.
pub fn numbers_of(given: &[i32; ALL]) -> usize
    ensures { result ≤ table_size }
{
    at_most(whole::magnitude(given[NUMBERS]), TABLE)
}

// How many bytes the buffer has.
pub fn bytes_of(given: &[i32; ALL]) -> usize
    ensures { result ≤ 65536 }
{
    at_most(whole::magnitude(given[BYTES]), 65_536)
}

// How many entries the table of places has.
pub fn held_of(given: &[i32; ALL]) -> usize
    ensures { result ≤ 21845 }
{
    at_most(whole::magnitude(given[HELD]), 21_845)
}

// The place of the number that a word names, by its first two letters.
fn place_of(word: &[u8]) -> Option<usize>
    ensures { IfSome result (λ place. place < ALL) }
{
    match word {
        [b'm', ..] => Some(MAIN),
        [b'l', ..] => Some(LOWEST),
        [b'r', ..] => Some(RETRACT),
        [b'x'] => Some(X),
        [b'x', b'l', ..] => Some(X_LOW),
        [b'x', b'h', ..] => Some(X_HIGH),
        [b'z'] => Some(Z),
        [b'z', b'l', ..] => Some(Z_LOW),
        [b'z', b'h', ..] => Some(Z_HIGH),
        [b'e', ..] => Some(EMPTY),
        [b'p', ..] => Some(POINTS),
        [b'n', ..] => Some(NUMBERS),
        [b'b', ..] => Some(BYTES),
        [b'h', ..] => Some(HELD),
        _ => None,
    }
}

// The number that digits say.
fn number_of(digits: &[u8], form: NumberForm) -> Option<i32> {
    let number = numbers::read_number(digits, form);
    match number {
        Number::Value(n, _) => Some(n),
        Number::Bad => None,
    }
}

// The place of a number of the table, which counts from 1.
fn table_place(digits: &[u8]) -> Option<usize>
    ensures { IfSome result (λ place. place < table_size) }
{
    let n = number_of(digits, NumberForm::FourDigits)?;
    let place = (whole::magnitude(n) as usize).checked_sub(1)?;
    if place < TABLE { Some(place) } else { None }
}

// What a line says behind its `=`: the place of the number that it names, and the number. Behind `offset ` stand the number's place in the table, a space, and the number.
fn setting_of(line: &[u8]) -> Option<(usize, i32)>
    ensures { IfSome result (λ setting. setting.0 < ALL) }
{
    let (word, digits) = text::split_once(line, b' ')?;
    if let [b'o', ..] = word {
        let (place, digits) = text::split_once(digits, b' ')?;
        return Some((table_place(place)?, number_of(digits, NumberForm::Path)?));
    }
    Some((place_of(word)?, number_of(digits, NumberForm::Path)?))
}

// Reads the lines at the front of a text that begin with `=`, and answers what stands behind them: nothing where one of them cannot be read.
pub fn read_given<'a>(text: &'a [u8], given: &mut [i32; ALL]) -> Option<&'a [u8]>
    ensures { IfSome result (λ rest. EndOf text.now rest.now) }
{
    let mut rest = text;
    loop {
        let (line, behind) = text::split_line(rest);
        let [b'=', setting @ ..] = line else {
            return Some(rest);
        };
        let (place, number) = setting_of(setting)?;
        given[place] = number;
        rest = behind;
    }
}
