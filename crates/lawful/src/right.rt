// Which records a list may have: its kind is known, the flags are those of its kind, and the position is within its range.
// (02: "known kinds, 10 after each 8 or 9 and nowhere else, .. its kind's flags, any value and positions within the table's range (a centre's within three times it)".)
ghost use Rattle.std.specs.Prelude.{◌≡◌, ◌&&◌};
ghost use Rattle.moves.specs.Kinds.{is_arc, in_turn};
ghost use Rattle.lawful.specs.Right.{flag_of, place_right, is_right};

use moves::Record;
use whole::position::Position;

// A centre lies within three times the table's range.
pub const CENTRE_LEAST: i32 = -29_999_997;

pub const CENTRE_GREATEST: i32 = 29_999_997;

pub fn is_arc(kind: u8) -> bool
    ensures { result ≡ is_arc kind }
{
    (kind == Record::CLOCKWISE) | (kind == Record::COUNTERCLOCKWISE)
}

// The flag that a record of this kind may have.
fn flag_of(kind: u8) -> u8
    ensures { result ≡ flag_of kind }
{
    if (kind == Record::FEED) | is_arc(kind) {
        return Record::FLAG_G95;
    }
    if kind == Record::SPEED {
        return Record::FLAG_G96;
    }
    0
}

fn place_right(kind: u8, place: i32) -> bool
    ensures { result ≡ place_right kind place }
{
    if kind == Record::CENTRE {
        return (CENTRE_LEAST <= place) & (place <= CENTRE_GREATEST);
    }
    Position::in_table(place)
}

// Whether a record is right by itself.
fn is_right(what: Record) -> bool
    ensures { result ≡ is_right what }
{
    let flag = flag_of(what.kind);
    let known = (Record::RAPID <= what.kind) & (what.kind <= Record::CENTRE);
    let flagged = (what.flags == 0) | (what.flags == flag);
    if known & flagged {
        if place_right(what.kind, what.x) {
            return place_right(what.kind, what.z);
        }
    }
    false
}

// Whether a kind stands where it may: behind an arc a centre is due, and elsewhere none.
fn in_turn(due: bool, kind: u8) -> bool
    ensures { result ≡ in_turn due kind }
{
    let centre = kind == Record::CENTRE;
    if due {
        return centre;
    }
    !centre
}

// Whether a record is right where it stands. It leaves at the first test that fails: what is kept for all of them at once is more than the registers hold.
pub fn is_right_after(due: bool, what: Record) -> bool
    ensures { result ≡ (in_turn due what.kind && is_right what) }
{
    if in_turn(due, what.kind) {
        return is_right(what);
    }
    false
}
