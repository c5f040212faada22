// A turning cycle is written a pass at a time by a loop of its own, in which its cursor is not one case of all that can be due. The room for all of it was asked for before (alarm 20).
#![tactic(auto)]

ghost use Rattle.std.specs.Prelude.{◌≡◌, true, ◌+◌, ◌*◌, ◌≤◌, length};
ghost use Rattle.octets.specs.Bytes.{laid};
ghost use Rattle.moves.specs.Form.{record_size, row_from};
ghost use Rattle.passes.specs.Cursor.{rest_of, before_pass, Sound};

use moves::Origin;
use passes::Cursor;

// The bytes of the four records of a pass, and of two of them.
const PASS_SIZE: usize = 4 * moves::RECORD_SIZE;

const HALF_PASS: usize = 2 * moves::RECORD_SIZE;

// Writes what is left of a turning cycle of which the next record is the first of a pass, or none is left, that record's first byte at `first`, and answers the place behind the last.
pub fn put_passes(buf: &mut [u8], first: usize, c: Cursor, origin: Origin) -> usize
    requires { Sound c × (before_pass c ≡ true) × (first + record_size * length (rest_of c) ≤ length buf.old) }
    ensures { (result ≡ first + record_size * length (rest_of c)) × (buf.new ≡ laid buf.old first (row_from origin (rest_of c))) }
{
    let mut left = c;
    let mut at = first;
    while !passes::is_over(left) {
        let passed = passes::next_pass(left);
        let home = passed.home;
        let outward = passed.outward;
        let along = passed.along;
        let inward = passed.inward;
        moves::list::put_two(&mut buf[at..], inward, along, origin);
        moves::list::put_two(&mut buf[at + HALF_PASS..], outward, home, origin);
        left = passed.rest;
        at += PASS_SIZE;
    }
    at
}
