// Numbers as bytes, the lowest byte first, both ways; and bytes put into a lent buffer.
// Only these functions know the order of the bytes.
#![tactic(auto)]

ghost use Rattle.std.specs.Prelude.{◌≡◌, ◌+◌, ◌*◌, ◌^◌, ◌<◌, ◌≤◌, length};
ghost use Rattle.octets.specs.Bytes.{little_endian, value_of, word_of, signed_bytes, signed_of, laid};

pub fn bytes_of_u16(v: u16) -> [u8; 2]
    ensures { result ≡ little_endian 2 v }
{
    u16::to_le_bytes(v)
}

pub fn bytes_of_u32(v: u32) -> [u8; 4]
    ensures { result ≡ little_endian 4 v }
{
    u32::to_le_bytes(v)
}

// A signed number as 32 bits, in two's complement.
pub fn word_of(v: i32) -> u32
    ensures { result ≡ word_of v }
{
    v.cast_unsigned()
}

#[tactic(auto, unfolding(crate::specs::Bytes::signed_bytes))]
pub fn bytes_of_i32(v: i32) -> [u8; 4]
    ensures { result ≡ signed_bytes v }
{
    i32::to_le_bytes(v)
}

pub fn u16_of_bytes(b: [u8; 2]) -> u16
    ensures { result ≡ value_of b }
{
    u16::from_le_bytes(b)
}

pub fn u32_of_bytes(b: [u8; 4]) -> u32
    ensures { result ≡ value_of b }
{
    u32::from_le_bytes(b)
}

#[tactic(auto, unfolding(crate::specs::Bytes::signed_of))]
pub fn i32_of_bytes(b: [u8; 4]) -> i32
    ensures { result ≡ signed_of (value_of b) }
{
    i32::from_le_bytes(b)
}

// Two numbers of 32 bits as one of 64, the first the low one.
pub fn joined(low: u32, high: u32) -> u64
    ensures { result ≡ low + 2 ^ 32 * high }
{
    u64::from(low) + 4_294_967_296 * u64::from(high)
}

// Puts bytes at a place of a lent buffer that has room for them there; all its other bytes stay.
fn put<const N: usize>(buf: &mut [u8], at: usize, bytes: [u8; N])
    requires { at + N ≤ length buf.old }
    ensures { buf.new ≡ laid buf.old at bytes.entry }
{
    buf[at..at + N].copy_from_slice(&bytes);
}

// Puts four bytes at a place of a lent buffer that has room for them there; all its other bytes stay.
pub fn put_four(buf: &mut [u8], at: usize, four: [u8; 4])
    requires { at + 4 ≤ length buf.old }
    ensures { buf.new ≡ laid buf.old at four }
{
    put(buf, at, four);
}

// Puts the eight bytes of a number in the same way. As bytes of one number they are one store when compiled.
pub fn put_eight(buf: &mut [u8], at: usize, v: u64)
    requires { at + 8 ≤ length buf.old }
    ensures { buf.new ≡ laid buf.old at (little_endian 8 v) }
{
    put(buf, at, u64::to_le_bytes(v));
}
