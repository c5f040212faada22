// A record taken from the bytes of a list. It judges nothing.
#![tactic(auto)]

ghost use Rattle.std.specs.Prelude.{◌≡◌, ◌+◌, ◌<◌, ◌≤◌, length, take, drop};
ghost use Rattle.moves.specs.Form.{record_size, record_start, program_at};
ghost use Rattle.moves.specs.Reading.{number_at, record_in, origin_in, listed_in};
ghost use Rattle.lawful.specs.Versions.{first_record_size, start_in};
ghost use Rattle.lawful.specs.declared.Version.TheVariants.{One};

use moves::{Listed, Origin, Record};

fn four_at(part: &[u8], at: usize) -> [u8; 4]
    requires { at + 4 ≤ length part.now }
    ensures { result ≡ take 4 (drop at part.now) }
{
    [part[at], part[at + 1], part[at + 2], part[at + 3]]
}

// The 16 bits from a place on.
#[tactic(auto, using(crate::proofs::Taking::two_taken))]
pub fn two_at(part: &[u8], at: usize) -> usize
    requires { at + 2 ≤ length part.now }
    ensures { (result ≡ number_at part.now at 2) × (result < 65_536) }
{
    usize::from(octets::u16_of_bytes([part[at], part[at + 1]]))
}

// What is done by the record at the front of a part that begins at its first byte.
pub fn record_in(part: &[u8]) -> Record
    requires { program_at ≤ length part.now }
    ensures { result ≡ record_in part.now }
{
    let x = four_at(part, moves::AT_X);
    let z = four_at(part, moves::AT_Z);
    let value = four_at(part, moves::AT_VALUE);
    Record {
        kind: part[moves::AT_KIND],
        flags: part[moves::AT_FLAGS],
        x: octets::i32_of_bytes(x),
        z: octets::i32_of_bytes(z),
        value: octets::u32_of_bytes(value),
    }
}

// The block that it came from, in a list of version 2.
fn origin_in(part: &[u8]) -> Origin
    requires { record_size ≤ length part.now }
    ensures { result ≡ origin_in part.now }
{
    let program = two_at(part, moves::AT_PROGRAM);
    let block = two_at(part, moves::AT_BLOCK);
    Origin {
        program: program as u16,
        block: block as u16,
    }
}

// Record number k, from 0, of a list of version 2 that has it, with the block that it came from. A list that was judged good has as many as it was found to have (readback/proofs/Accepted.antt).
pub fn listed_at(list: &[u8], k: usize) -> Listed
    requires { record_start k + record_size ≤ length list.now }
    ensures { result ≡ listed_in (drop (record_start k) list.now) }
{
    let first = moves::HEADER_SIZE + moves::RECORD_SIZE * k;
    let what = record_in(&list[first..]);
    let origin = origin_in(&list[first..]);
    Listed { what, origin }
}

// Record number k, from 0, of a list of version 1 that has it.
pub fn first_at(list: &[u8], k: usize) -> Record
    requires { start_in One k + first_record_size ≤ length list.now }
    ensures { result ≡ record_in (drop (start_in One k) list.now) }
{
    let first = moves::HEADER_SIZE + lawful::FIRST_RECORD_SIZE * k;
    record_in(&list[first..])
}
