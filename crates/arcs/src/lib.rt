// The arcs G02 and G03: the arc that a block gives, its records, and whether the distances of start and end from the centre are near enough (alarm 19). How far an arc goes stands in
// `sweeps`, and whether it keeps to the limits (18) in `straying`.
#![tactic(auto)]

ghost use Rattle.std.specs.Prelude.{◌≡◌, true, pos, ◌+ℤ◌, ◌*ℤ◌};
ghost use Rattle.whole.specs.Position.{in_table};
ghost use Rattle.arcs.specs.Arcs.{arc_of, end_record, centre_record, uneven};
ghost use Rattle.arcs.specs.Known.{Central, InReach};

use arrows::Spot;
use moves::Record;

// From where the axes stand to its end, around its centre.
#[derive(Clone, Copy)]
pub struct Arc {
    pub clockwise: bool,
    pub start: Spot,
    pub end: Spot,
    pub centre: Spot,
}

// I and K of a block, 0 where it has none.
#[derive(Clone, Copy)]
pub struct CentreWords {
    pub i: i32,
    pub k: i32,
}

// Where the centre lies. (02: "I and K .. give the centre from the start, per side": I counts twice on the diameter.)
fn centre_x(start: i32, i: i32) -> i32
    requires start_value { in_table start ≡ true }
    requires i_value { in_table i ≡ true }
    ensures { result ≡ start +ℤ pos 2 *ℤ i }
{
    start + 2 * i
}

fn centre_z(start: i32, k: i32) -> i32
    requires start_value { in_table start ≡ true }
    requires k_value { in_table k ≡ true }
    ensures { result ≡ start +ℤ k }
{
    start + k
}

// The arc that a block gives by its end, I and K.
pub fn arc_of(clockwise: bool, start: Spot, end: Spot, words: CentreWords) -> Arc
    requires { Central start words }
    ensures { result ≡ arc_of clockwise start end words }
{
    let x = centre_x(start.x, words.i);
    let z = centre_z(start.z, words.k);
    Arc {
        clockwise,
        start,
        end,
        centre: Spot { x, z },
    }
}

// Its two records, one behind the other: the end with F, and the centre.
pub fn end_record(a: Arc, f: u32, g95: bool) -> Record
    ensures { result ≡ end_record a f g95 }
{
    let end = a.end;
    Record::arc(a.clockwise, end.x, end.z, f, g95)
}

pub fn centre_record(a: Arc) -> Record
    ensures { result ≡ centre_record a }
{
    let centre = a.centre;
    Record::centre(centre.x, centre.z)
}

// Alarm 19. (02: "a zero distance or unequal distances in 19".)
pub fn is_uneven(a: Arc) -> bool
    requires { InReach a }
    ensures { result ≡ uneven a }
{
    let centre = a.centre;
    let start = a.start;
    let end = a.end;
    let m = arrows::square_of(arrows::arrow_to(centre, start));
    let n = arrows::square_of(arrows::arrow_to(centre, end));
    if m == 0 {
        return true;
    }
    if n == 0 {
        return true;
    }
    arrows::root::too_long(m, n) | arrows::root::too_long(n, m)
}
