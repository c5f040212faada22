// The board's doors for C: each calls the function of its name in the crate `board`, and states its clauses again. include/tm02.h declares them, and says what C owes.
#![tactic(auto)]

ghost use Rattle.std.specs.Prelude.{◌≡◌, length};
ghost use Rattle.judging.specs.Judging.{judged};
ghost use Rattle.readback.specs.Lists.{read_of, read_judged};
ghost use Rattle.numbered.specs.Numbers.{refusal_of, answer_of, numbers_after};
ghost use Rattle.board.specs.Door.{answer_at, places_at, buffer_at};
ghost use Rattle.packing.specs.Packing.{Packed};
ghost use Rattle.board.specs.Asked.{StartAtDoor, NextAtDoor};

#[unsafe(no_mangle)]
pub extern "C" fn tm02_interpret(
    tape: &[u8],
    table: &[i32],
    settings: &[i32],
    places: &mut [u64],
    buf: &mut [u8],
) -> u64
    ensures result { Packed (answer_at tape.now table.now settings.now (length places.old) (length buf.old)) result }
    ensures filled { places.new ≡ places_at tape.now table.now settings.now places.old (length buf.old) }
    ensures records { buf.new ≡ buffer_at tape.now table.now settings.now (length places.old) buf.old }
{
    board::tm02_interpret(tape, table, settings, places, buf)
}

#[unsafe(no_mangle)]
pub extern "C" fn tm02_start(
    tape: &[u8],
    table: &[i32],
    settings: &[i32],
    places: &mut [u64],
    state: &mut [u32],
) -> u32
    ensures { StartAtDoor tape.now table.now settings.now places.old state.old result places.new state.new }
{
    board::tm02_start(tape, table, settings, places, state)
}

#[unsafe(no_mangle)]
pub extern "C" fn tm02_next(
    tape: &[u8],
    table: &[i32],
    settings: &[i32],
    places: &[u64],
    state: &mut [u32],
    record: &mut [u8],
) -> u64
    ensures { NextAtDoor tape.now table.now settings.now places.now state.old «record».old result state.new «record».new }
{
    board::tm02_next(tape, table, settings, places, state, record)
}

#[unsafe(no_mangle)]
pub extern "C" fn tm02_read(list: &[u8], k: usize, numbers: &mut [i64]) -> u32
    ensures result { result ≡ answer_of (read_of list.now k) (length numbers.old) }
    ensures lent { numbers.new ≡ numbers_after (read_of list.now k) numbers.old }
{
    board::tm02_read(list, k, numbers)
}

#[unsafe(no_mangle)]
pub extern "C" fn tm02_judge(list: &[u8]) -> u32
    ensures { result ≡ refusal_of (judged list.now) }
{
    board::tm02_judge(list)
}

#[unsafe(no_mangle)]
pub extern "C" fn tm02_read_judged(list: &[u8], k: usize, numbers: &mut [i64]) -> u32
    ensures result { result ≡ answer_of (read_judged list.now k) (length numbers.old) }
    ensures lent { numbers.new ≡ numbers_after (read_judged list.now k) numbers.old }
{
    board::tm02_read_judged(list, k, numbers)
}
