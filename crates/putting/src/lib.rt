// The records of a block are written: one loop asks the opened block (`handing`) for them, up to a G84 or a G86, which `passing` and `plunging` write. (01: "written into the room after the header".)
// The room for all of them was asked for before (alarm 20).
#![tactic(auto)]

ghost use Rattle.std.specs.Prelude.{◌≡◌, true, ◌+◌, ◌*◌, ◌≤◌, length};
ghost use Rattle.octets.specs.Bytes.{laid};
ghost use Rattle.moves.specs.Form.{record_size, record_start, row_from};
ghost use Rattle.asking.specs.Judge.{doing};
ghost use Rattle.deeds.specs.Known.{Right, Known};
ghost use Rattle.writing.specs.Writes.{writes};
ghost use Rattle.stages.specs.Cursor.{rest_of, DueSound, Sound};
ghost use Rattle.putting.specs.Cycles.{has_own_loop, cycle_row};

use block::Block;
use deeds::Deed;
pub use handing;
use moves::Origin;
pub use opening;
pub use stages;
use stages::{Cursor, Due, Stage};
use state::State;

// Whether a cycle is due that has a loop of its own: a turning cycle of which the next record is the first of a pass, or a groove of which it is a cut; or either, of which none is left.
fn has_own_loop(due: Due) -> bool
    ensures { result ≡ has_own_loop due }
{
    match due {
        Due::Turning(c) => passes::is_before_pass(c),
        Due::Threading(_) => false,
        Due::Grooving(c) => plunges::before::is_before_cut(c),
        Due::Drilling(_) => false,
        Due::Single(_) => false,
    }
}

// Writes such a cycle, its next record's first byte at `first`, and answers the place behind its last.
fn put_cycle(buf: &mut [u8], first: usize, due: Due, origin: Origin) -> usize
    requires { DueSound due × (has_own_loop due ≡ true) × (first + record_size * length (cycle_row due) ≤ length buf.old) }
    ensures { (result ≡ first + record_size * length (cycle_row due)) × (buf.new ≡ laid buf.old first (row_from origin (cycle_row due))) }
{
    match due {
        Due::Turning(c) => passing::put_passes(buf, first, c, origin),
        Due::Grooving(c) => plunging::put_plunges(buf, first, c, origin),
        // it is no other: no caller comes here
        Due::Threading(_) => first,
        Due::Drilling(_) => first,
        Due::Single(_) => first,
    }
}

// Writes all that is left of a block, its next record's first byte at `first`: by the one loop, whatever the record, up to a cycle that has a loop of its own, and behind that loop the cycle and M00
// or M30. What is handed out knows nothing of its block: that is put on where a record is written.
pub fn put_rest(buf: &mut [u8], first: usize, c: Cursor, origin: Origin)
    requires { Sound c.plan c.due × (first + record_size * length (rest_of c.plan c.due) ≤ length buf.old) }
    ensures { buf.new ≡ laid buf.old first (row_from origin (rest_of c.plan c.due)) }
{
    let plan = c.plan;
    let mut due = c.due;
    let mut at = first;
    while !handing::is_over(plan, due) & !has_own_loop(due) {
        let handed = handing::next(plan, due);
        let record = handed.record;
        moves::list::put_record(&mut buf[at..], record, origin);
        due = handed.rest;
        at += moves::RECORD_SIZE;
    }
    // by a loop of its own, so that its cursor is not put into `due` and taken out of it for each record
    if has_own_loop(due) {
        let behind = put_cycle(buf, at, due, origin);
        if plan.stops {
            let stop = stages::single(plan, Stage::Stop);
            moves::list::put_record(&mut buf[behind..], stop, origin);
        }
    }
}

// Writes the records of a block, of which `count` are its deed's, from number k on, each with the program and the block that it came from, and answers the number of the next record.
pub fn put_writes(
    buf: &mut [u8],
    k: usize,
    s: State,
    b: Block,
    d: Deed,
    count: usize,
    origin: Origin,
) -> usize
    requires { Right d × Known d × (count ≡ length (doing d)) × (record_start (k + length (writes s b d)) ≤ length buf.old) }
    ensures { (result ≡ k + length (writes s b d)) × (buf.new ≡ laid buf.old (record_start k) (row_from origin (writes s b d))) }
{
    let total = count + writing::other_count(b) as usize;
    if total == 0 {
        return k;
    }
    // 01: "written into the room after the header".
    let first = moves::HEADER_SIZE + moves::RECORD_SIZE * k;
    let opened = opening::open_block(s, b, d);
    put_rest(buf, first, opened, origin);
    k + total
}
