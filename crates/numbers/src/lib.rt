// The one number reader. It takes the part of a line that holds a word's number (for P and D what stands behind `=`), and reads it by the form that
// the word's address asks for. (01: "The part of a word after its address is read as a number by one rule".)
#![tactic(auto)]

ghost use Rattle.std.specs.Prelude.{◌≡◌, ◌-◌, ◌^◌, ◌≤◌, ◌<◌, length, drop};
ghost use Rattle.numbers.specs.declared.NumberForm.TheVariants.{FiveDigits};
ghost use Rattle.numbers.specs.Numbers.{Run, with_sign, unsigned_path, sign_size, path_of, digits_in, number_of};

// The forms of numbers: a path's (X Z U W P); digits alone, two (G M), four (N F S T and program numbers) or five (L); and D's.
#[derive(Clone, Copy)]
pub enum NumberForm {
    Path,
    TwoDigits,
    FourDigits,
    FiveDigits,
    DNumber,
}

// A number and whether it was written with a point, or the refusal.
#[derive(Clone, Copy)]
pub enum Number {
    Value(i32, bool),
    Bad,
}

// A run of digits: its value, and how many they are.
#[derive(Clone, Copy)]
pub struct Digits {
    pub value: u32,
    pub count: usize,
}

// The digits that stand in `part` from `at` on, at most `limit` of them, which keeps the value within 32 bits.
fn digit_run(part: &[u8], at: usize, limit: usize) -> Digits
    requires { (at ≤ length part.now) × (limit ≤ 7) }
    ensures { Run part.now at limit result }
{
    let most = limit.min(part.len() - at);
    let mut value: u32 = 0;
    for count in 0..most {
        let byte = part[at + count];
        if !byte.is_ascii_digit() {
            return Digits { value, count };
        }
        value = value * 10 + u32::from(byte - b'0');
    }
    Digits { value, count: most }
}

// How many micrometres the last of m digits behind a point is worth; 1000 where there is none.
fn worth(m: usize) -> u32
    requires { m ≤ 3 }
    ensures { result ≡ 10 ^ (3 - m) }
{
    match m {
        0 => 1000,
        1 => 100,
        2 => 10,
        _ => 1,
    }
}

fn with_sign(negative: bool, v: u32) -> i32
    requires { v < 10_000_000 }
    ensures { result ≡ with_sign negative v }
{
    let size = v as i32;
    if negative { -size } else { size }
}

// A path number behind its sign, from `at` on.
fn read_unsigned_path(part: &[u8], at: usize, negative: bool) -> Number
    requires { at ≤ length part.now }
    ensures { result ≡ unsigned_path negative (drop at part.now) }
{
    let whole = digit_run(part, at, 7);
    let n = whole.count;
    let p = at + n;
    if p >= part.len() {
        if n == 0 {
            return Number::Bad;
        }
        return Number::Value(with_sign(negative, whole.value), false);
    }
    if part[p] != b'.' {
        return Number::Bad;
    }
    if n > 4 {
        return Number::Bad;
    }
    let q = p + 1;
    let rest = digit_run(part, q, 3);
    let m = rest.count;
    if q + m != part.len() {
        return Number::Bad;
    }
    if n + m == 0 {
        return Number::Bad;
    }
    Number::Value(
        with_sign(negative, whole.value * 1000 + rest.value * worth(m)),
        true,
    )
}

// How many bytes the sign takes, by a number's first byte.
#[tactic(auto, unfolding(crate::specs::Numbers::sign_size))]
fn sign_size(b: u8) -> usize
    ensures { result ≡ sign_size b }
{
    usize::from((b == b'-') | (b == b'+'))
}

fn read_path(part: &[u8]) -> Number
    ensures { result ≡ path_of part.now }
{
    if part.len() == 0 {
        return Number::Bad;
    }
    let b = part[0];
    let at = sign_size(b);
    read_unsigned_path(part, at, b == b'-')
}

// Unsigned digits, 1 to `limit` of them, of a value at most `most`.
fn read_digits(part: &[u8], limit: usize, most: u32) -> Number
    requires { limit ≤ 7 }
    ensures { result ≡ digits_in limit most part.now }
{
    let d = digit_run(part, 0, limit);
    let n = d.count;
    if n != part.len() {
        return Number::Bad;
    }
    if n == 0 {
        return Number::Bad;
    }
    let value = d.value;
    if value > most {
        return Number::Bad;
    }
    Number::Value(with_sign(false, value), false)
}

// The number of L, which a jump that stands alone is asked for by itself.
pub fn read_five_digits(part: &[u8]) -> Number
    ensures { result ≡ number_of FiveDigits part.now }
{
    read_digits(part, 5, 99_999)
}

// The number that a part of a line holds.
pub fn read_number(part: &[u8], form: NumberForm) -> Number
    ensures { result ≡ number_of form part.now }
{
    match form {
        NumberForm::Path => read_path(part),
        NumberForm::TwoDigits => read_digits(part, 2, 99),
        NumberForm::FourDigits => read_digits(part, 4, 9_999),
        NumberForm::FiveDigits => read_five_digits(part),
        NumberForm::DNumber => read_digits(part, 5, 32_767),
    }
}
