// The words of single fields, and of the pieces of a division, both ways.
ghost use Rattle.std.specs.Prelude.{◌≡◌, ◌+◌, ◌/◌, ◌%◌, ◌^◌, ◌<◌, ◌≤◌, length};
ghost use Rattle.octets.specs.Bytes.{signed_of};
ghost use Rattle.cells.specs.Numbers.{flag_of, flag_at, signed_at, byte_at, short_at, wide_at, side_of, pieces_at};

use division::Pieces;
use whole::Side;

const TRUE: u32 = 1;

const MINUS: u32 = 0;

const ZERO: u32 = 1;

const PLUS: u32 = 2;

// A signed number, in two's complement.
#[tactic(auto, unfolding(octets::specs::Bytes::signed_of))]
pub fn word_of(v: i32) -> u32
    ensures { signed_of result ≡ v }
{
    v.cast_unsigned()
}

#[tactic(auto, unfolding(octets::specs::Bytes::signed_of))]
pub fn signed_at(w: &[u32], at: usize) -> i32
    requires { at < length w.now }
    ensures { result ≡ signed_at w.now at }
{
    w[at].cast_signed()
}

pub fn flag_word(flag: bool) -> u32
    ensures { flag_of result ≡ flag }
{
    u32::from(flag)
}

pub fn flag_at(w: &[u32], at: usize) -> bool
    requires { at < length w.now }
    ensures { result ≡ flag_at w.now at }
{
    w[at] == TRUE
}

pub fn byte_word(b: u8) -> u32
    ensures { result % 2 ^ 8 ≡ b }
{
    u32::from(b)
}

pub fn byte_at(w: &[u32], at: usize) -> u8
    requires { at < length w.now }
    ensures { result ≡ byte_at w.now at }
{
    (w[at] % 256) as u8
}

pub fn short_word(v: u16) -> u32
    ensures { result % 2 ^ 16 ≡ v }
{
    u32::from(v)
}

pub fn short_at(w: &[u32], at: usize) -> u16
    requires { at < length w.now }
    ensures { result ≡ short_at w.now at }
{
    (w[at] % 65_536) as u16
}

// A number of 64 bits is two words, the low one first.
pub fn low_word(v: u64) -> u32
    ensures { result ≡ v % 2 ^ 32 }
{
    (v % 4_294_967_296) as u32
}

pub fn high_word(v: u64) -> u32
    ensures { result ≡ v / 2 ^ 32 }
{
    (v / 4_294_967_296) as u32
}

pub fn wide_at(w: &[u32], at: usize) -> u64
    requires { at + 2 ≤ length w.now }
    ensures { result ≡ wide_at w.now at }
{
    octets::joined(w[at], w[at + 1])
}

pub fn side_word(side: Side) -> u32
    ensures { side_of result ≡ side }
{
    match side {
        Side::Minus => MINUS,
        Side::Zero => ZERO,
        Side::Plus => PLUS,
    }
}

pub fn side_of(u: u32) -> Side
    ensures { result ≡ side_of u }
{
    match u {
        MINUS => Side::Minus,
        ZERO => Side::Zero,
        _ => Side::Plus,
    }
}

// The pieces of a division, from a place on.
pub fn pieces_at(w: &[u32], at: usize) -> Pieces
    requires { at + 3 ≤ length w.now }
    ensures { result ≡ pieces_at w.now at }
{
    Pieces {
        piece: w[at],
        remainder: w[at + 1],
        left: w[at + 2],
    }
}
