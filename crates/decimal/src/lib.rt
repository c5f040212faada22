// Words and decimal numbers written as text into a lent buffer, one behind the other.
// Each function writes from a place on and answers the place behind what it wrote; all other bytes stay. Whoever calls it has seen to the room.
#![tactic(auto)]

ghost use Rattle.std.specs.Prelude.{◌≡◌, [], ◌∷◌, ◌++◌, ◌+◌, ◌<◌, ◌≤◌, length};
ghost use Rattle.decimal.specs.Decimal.{digits, decimal, signed};
ghost use Rattle.decimal.specs.Wrote.{Wrote};

fn put_byte(out: &mut [u8], at: usize, byte: u8) -> usize
    requires { at < length out.old }
    ensures { Wrote out.old at (byte ∷ []) result out.new }
{
    out[at] = byte;
    at + 1
}

pub fn put_text(out: &mut [u8], at: usize, text: &[u8]) -> usize
    requires { at + length text.now ≤ length out.old }
    ensures { Wrote out.old at text.now result out.new }
{
    let next = at + text.len();
    out[at..next].copy_from_slice(text);
    next
}

// How many digits a number above 0 has.
fn digit_count(n: usize) -> usize
    requires { 0 < n }
    ensures { result ≡ length (digits n) }
{
    n.ilog10() as usize + 1
}

// The digits of a number above 0, the last one first.
fn put_digits(out: &mut [u8], at: usize, n: usize) -> usize
    requires { (0 < n) × (at + length (digits n) ≤ length out.old) }
    ensures { Wrote out.old at (digits n) result out.new }
{
    let next = at + digit_count(n);
    let mut rest = n;
    for place in (at..next).rev() {
        out[place] = b'0' + (rest % 10) as u8;
        rest /= 10;
    }
    next
}

fn put_decimal(out: &mut [u8], at: usize, n: usize) -> usize
    requires { at + length (decimal n) ≤ length out.old }
    ensures { Wrote out.old at (decimal n) result out.new }
{
    if n == 0 {
        return put_byte(out, at, b'0');
    }
    put_digits(out, at, n)
}

// A number, and the byte behind it: a space, or the line feed.
pub fn put_number(out: &mut [u8], at: usize, n: usize, behind: u8) -> usize
    requires { at + length (decimal n ++ (behind ∷ [])) ≤ length out.old }
    ensures { Wrote out.old at (decimal n ++ (behind ∷ [])) result out.new }
{
    let next = put_decimal(out, at, n);
    put_byte(out, next, behind)
}

// The same of a number that may be below zero.
pub fn put_signed(out: &mut [u8], at: usize, n: i32, behind: u8) -> usize
    requires { at + length (signed n ++ (behind ∷ [])) ≤ length out.old }
    ensures { Wrote out.old at (signed n ++ (behind ∷ [])) result out.new }
{
    let size = whole::magnitude(n) as usize;
    if n < 0 {
        let next = put_byte(out, at, b'-');
        return put_number(out, next, size, behind);
    }
    put_number(out, at, size, behind)
}
