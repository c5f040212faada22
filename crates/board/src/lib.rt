// THE BOARD'S DOORS: what the control's firmware and the axis board, which are written in C, call: crates/board_c hands them to C, and include/tm02.h declares them there.
// `tm02_interpret` runs a tape; `tm02_start` and `tm02_next` run it one move at a time, with no list; `tm02_read` reads a record of a list back, and `tm02_judge` with `tm02_read_judged` a whole list in
// one pass.
// Settings come as eleven numbers and the answer goes as one. No caller has to check a number first: settings that are not eleven numbers, or of which one is out of range, are alarm 1.
#![tactic(auto)]

ghost use Rattle.std.specs.Prelude.{◌≡◌, length};
ghost use Rattle.judging.specs.Judging.{judged};
ghost use Rattle.readback.specs.Lists.{read_of, read_judged};
ghost use Rattle.numbered.specs.Numbers.{refusal_of, answer_of, numbers_after};
ghost use Rattle.board.specs.Door.{answer_at, places_at, buffer_at};
ghost use Rattle.onemove.specs.of_packing.Packing.{Packed};
ghost use Rattle.board.specs.Asked.{StartAtDoor, NextAtDoor};

use alarmed::answers::Answer;
use alarmed::interpreter;
pub use onemove::{inhand, packing, runwords};

// Bits 0 to 15 of the answer are the records written, bits 16 to 31 the place on the tape, bits 32 to 39 the alarm, 0 where the list is complete. The bits above are 0.
pub fn tm02_interpret(
    tape: &[u8],
    table: &[i32],
    settings: &[i32],
    places: &mut [u64],
    buf: &mut [u8],
) -> u64
    ensures result { Packed (answer_at tape.now table.now settings.now (length places.old) (length buf.old)) result }
    ensures filled { places.new ≡ places_at tape.now table.now settings.now places.old (length buf.old) }
    ensures records { buf.new ≡ buffer_at tape.now table.now settings.now (length places.old) buf.old }
{
    if panel::unfit(settings) {
        return packing::packed_answer(Answer::Alarm(alarms::BAD_SETTINGS, 0, 0));
    }
    let answer = interpreter::interpret::interpret(
        tape,
        table,
        panel::settings_of(settings),
        places,
        buf,
    );
    packing::packed_answer(answer)
}

// What a start answers where the words are not as many as a state has.
pub const NOT_STARTED: u32 = 1;

// Starts a run that is asked for one move at a time, in the lent words, whatever they hold. Answers 0, or 1 where they are not as many as a state has.
pub fn tm02_start(
    tape: &[u8],
    table: &[i32],
    settings: &[i32],
    places: &mut [u64],
    state: &mut [u32],
) -> u32
    ensures { StartAtDoor tape.now table.now settings.now places.old state.old result places.new state.new }
{
    if onemove::start(tape, table, settings, places, state) {
        return 0;
    }
    NOT_STARTED
}

// The next record of a run that was started in the words, laid in 20 bytes at the front of the lent ones, or its answer, which is repeated from then on. Bits 0 to 39 are the answer as `tm02_interpret`
// gives it; bit 40 is set where there is one, and bit 41 where nothing was done: the words cannot be asked with what is lent, or the bytes have no room for a record. All else is lent as it was at the start, and as the
// start left it.
pub fn tm02_next(
    tape: &[u8],
    table: &[i32],
    settings: &[i32],
    places: &[u64],
    state: &mut [u32],
    record: &mut [u8],
) -> u64
    ensures { NextAtDoor tape.now table.now settings.now places.now state.old «record».old result state.new «record».new }
{
    let told = onemove::next(tape, table, settings, places, state, record);
    packing::told_number(told)
}

// Record number k, from 0, of a list, as seven numbers: kind, flags, X, Z, value, program, block. Answers 0, or why the list or k is refused, and then the lent numbers are as they came.
pub fn tm02_read(list: &[u8], k: usize, numbers: &mut [i64]) -> u32
    ensures result { result ≡ answer_of (read_of list.now k) (length numbers.old) }
    ensures lent { numbers.new ≡ numbers_after (read_of list.now k) numbers.old }
{
    numbered::read(list, k, numbers)
}

// Whether a list is refused: 0, or why.
pub fn tm02_judge(list: &[u8]) -> u32
    ensures { result ≡ refusal_of (judged list.now) }
{
    numbered::judge(list)
}

// As `tm02_read`, of a list that `tm02_judge` has not refused, and which is not judged again. Of other bytes it gives what stands there.
pub fn tm02_read_judged(list: &[u8], k: usize, numbers: &mut [i64]) -> u32
    ensures result { result ≡ answer_of (read_judged list.now k) (length numbers.old) }
    ensures lent { numbers.new ≡ numbers_after (read_judged list.now k) numbers.old }
{
    numbered::read_judged(list, k, numbers)
}
