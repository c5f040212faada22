// A record as seven numbers, as a caller in C gets it: kind, flags, X, Z, value, program and block. A list of version 1 has no program and block, and both are -1.
#![tactic(auto)]

ghost use Rattle.std.specs.Prelude.{◌≡◌, ◌++◌, ◌≤◌, length, drop};
ghost use Rattle.judging.specs.Judging.{judged};
ghost use Rattle.readback.specs.Lists.{read_of, read_judged};
ghost use Rattle.numbered.specs.Numbers.{program_of, block_of, numbers_count, numbers_of, refusal_of, answer_of, numbers_after};

use judging::Refusal;
use moves::{Origin, Record};

pub const COUNT: usize = 7;

// What program and block are where the list has none.
pub const NONE: i64 = -1;

// Fewer numbers are lent. It is asked last.
pub const TOO_FEW_NUMBERS: u32 = 6;

fn program_of(source: Option<Origin>) -> i64
    ensures { result ≡ program_of source }
{
    match source {
        Some(origin) => i64::from(origin.program),
        None => NONE,
    }
}

fn block_of(source: Option<Origin>) -> i64
    ensures { result ≡ block_of source }
{
    match source {
        Some(origin) => i64::from(origin.block),
        None => NONE,
    }
}

#[tactic(auto, unfolding(crate::specs::Numbers::numbers_of))]
fn numbers_of(what: Record, source: Option<Origin>) -> [i64; COUNT]
    ensures { result ≡ numbers_of what source }
{
    [
        i64::from(what.kind),
        i64::from(what.flags),
        i64::from(what.x),
        i64::from(what.z),
        i64::from(what.value),
        program_of(source),
        block_of(source),
    ]
}

// One by one: a copy of the seven at once would keep them below the stack pointer first, and ask whether the two overlap.
fn put_numbers(numbers: &mut [i64], seven: [i64; COUNT])
    requires { numbers_count ≤ length numbers.old }
    ensures { numbers.new ≡ seven ++ drop numbers_count numbers.old }
{
    numbers[0] = seven[0];
    numbers[1] = seven[1];
    numbers[2] = seven[2];
    numbers[3] = seven[3];
    numbers[4] = seven[4];
    numbers[5] = seven[5];
    numbers[6] = seven[6];
}

// What came of a reading: 0 and the numbers of the record, or why it is refused, and then the numbers are as they came.
#[tactic(auto, unfolding(crate::specs::Numbers::answer_of, crate::specs::Numbers::numbers_after))]
fn answer(back: Result<(Record, Option<Origin>), Refusal>, numbers: &mut [i64]) -> u32
    ensures result { result ≡ answer_of back (length numbers.old) }
    ensures lent { numbers.new ≡ numbers_after back numbers.old }
{
    match back {
        Err(refusal) => u32::from(refusal),
        Ok((what, source)) => {
            if numbers.len() < COUNT {
                return TOO_FEW_NUMBERS;
            }
            put_numbers(numbers, numbers_of(what, source));
            0
        }
    }
}

// Record number k of any bytes, or the first refusal.
pub fn read(list: &[u8], k: usize, numbers: &mut [i64]) -> u32
    ensures result { result ≡ answer_of (read_of list.now k) (length numbers.old) }
    ensures lent { numbers.new ≡ numbers_after (read_of list.now k) numbers.old }
{
    answer(readback::read::read_record(list, k), numbers)
}

// A whole list in one pass: whether it is refused, 0 or the refusal, and then its records, one after the other.
pub fn judge(list: &[u8]) -> u32
    ensures { result ≡ refusal_of (judged list.now) }
{
    match judging::judge_list(list) {
        Ok(_) => 0,
        Err(refusal) => u32::from(refusal),
    }
}

pub fn read_judged(list: &[u8], k: usize, numbers: &mut [i64]) -> u32
    ensures result { result ≡ answer_of (read_judged list.now k) (length numbers.old) }
    ensures lent { numbers.new ≡ numbers_after (read_judged list.now k) numbers.old }
{
    answer(readback::read::read_judged(list, k), numbers)
}
