// A groove is written by a loop of its own, in which its cursor is not one case of all that can be due, and each cut that another follows with its rapid back, two records at a time. The room for
// all of it was asked for before (alarm 20).
#![tactic(auto)]

ghost use Rattle.std.specs.Prelude.{◌≡◌, true, false, ◌+◌, ◌*◌, ◌<◌, ◌≤◌, length};
ghost use Rattle.octets.specs.Bytes.{laid};
ghost use Rattle.moves.specs.Form.{record_size, row_from};
ghost use Rattle.plunges.specs.declared.Stage.TheVariants.{Cut, Out};
ghost use Rattle.plunges.specs.Cursor.{rest_of, before_cut, before_cut_and_back, behind_cuts, Sound};
ghost use Rattle.plunging.specs.Puts.{Puts};

use moves::Origin;
use plunges::Cursor;

const TWO_RECORDS: usize = 2 * moves::RECORD_SIZE;

// What is left of a groove of which some records were written, and the place of the next.
#[derive(Clone, Copy)]
pub struct Put {
    pub at: usize,
    pub rest: Cursor,
}

// "Then dwell if D4 is above 0": of a plunge whose cuts are written.
fn put_dwell(buf: &mut [u8], first: usize, c: Cursor, origin: Origin) -> Put
    requires { Sound c × (behind_cuts c ≡ true) × (first + record_size * length (rest_of c) ≤ length buf.old) }
    ensures { Puts origin buf.old first c buf.new result × (result.rest.stage ≡ Out) }
{
    if !plunges::before::is_before_dwell(c) {
        return Put { at: first, rest: c };
    }
    let dwelling = plunges::dwell(c);
    let record = dwelling.record;
    let rest = dwelling.rest;
    moves::list::put_record(&mut buf[first..], record, origin);
    Put {
        at: first + moves::RECORD_SIZE,
        rest,
    }
}

// Writes a plunge from its last cut on, and the rapid to the next plunge or to the start where one follows.
fn put_end(buf: &mut [u8], first: usize, c: Cursor, origin: Origin) -> Put
    requires { Sound c × (c.stage ≡ Cut) × (before_cut_and_back c ≡ false) × (first + record_size * length (rest_of c) ≤ length buf.old) }
    ensures { Puts origin buf.old first c buf.new result × (before_cut result.rest ≡ true) × (length (rest_of result.rest) < length (rest_of c)) }
{
    let last = plunges::cut(c);
    let down = last.record;
    let below = last.rest;
    moves::list::put_record(&mut buf[first..], down, origin);
    let rested = put_dwell(buf, first + moves::RECORD_SIZE, below, origin);
    let at = rested.at;
    let leaving = plunges::go_out(rested.rest);
    let out = leaving.record;
    let outside = leaving.rest;
    moves::list::put_record(&mut buf[at..], out, origin);
    if plunges::is_over(outside) {
        return Put {
            at: at + moves::RECORD_SIZE,
            rest: outside,
        };
    }
    let crossing = plunges::go_across(outside);
    let across = crossing.record;
    let rest = crossing.rest;
    moves::list::put_record(&mut buf[at + moves::RECORD_SIZE..], across, origin);
    Put {
        at: at + TWO_RECORDS,
        rest,
    }
}

// Writes what is left of a groove of which a cut comes next, or nothing, the first byte of its record at `first`, and answers the place behind the last. (Two loops: with the inner one in a function
// of its own the passes of a G84, which are compiled into the same function, would be dearer.)
pub fn put_plunges(buf: &mut [u8], first: usize, c: Cursor, origin: Origin) -> usize
    requires { Sound c × (before_cut c ≡ true) × (first + record_size * length (rest_of c) ≤ length buf.old) }
    ensures { (result ≡ first + record_size * length (rest_of c)) × (buf.new ≡ laid buf.old first (row_from origin (rest_of c))) }
{
    let mut left = c;
    let mut at = first;
    while !plunges::is_over(left) {
        while plunges::before::is_before_cut_and_back(left) {
            let cutting = plunges::next_cut(left);
            let down = cutting.cut;
            let back = cutting.back;
            moves::list::put_two(&mut buf[at..], down, back, origin);
            left = cutting.rest;
            at += TWO_RECORDS;
        }
        let end = put_end(buf, at, left, origin);
        left = end.rest;
        at = end.at;
    }
    at
}
