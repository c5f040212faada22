// Which lists are lawful. (02, request 6: "It accepts exactly lists in the written form".) Here is what differs between the two versions of a list that are read; right.rt judges a record.
// (02, request 7: "the reader takes both, version 1 to 4,000 records and without a block".) Version 2 is what the writer writes: its sizes stand in `moves`.
#![tactic(auto)]

pub mod right;

ghost use Rattle.std.specs.Prelude.{◌≡◌, ◌-◌, ◌<◌};
ghost use Rattle.lawful.specs.Versions.{size_in, limit_in, start_in};

#[derive(Clone, Copy)]
pub enum Version {
    One,
    Two,
}

// The number of version 1 in the header, the bytes of its records, and how many it may have.
pub const FIRST_VERSION: usize = 1;

pub const FIRST_RECORD_SIZE: usize = 16;

pub const FIRST_RECORD_LIMIT: usize = 4_000;

// The bytes of a record.
pub fn record_size(v: Version) -> usize
    ensures { result ≡ size_in v }
{
    match v {
        Version::One => FIRST_RECORD_SIZE,
        Version::Two => moves::RECORD_SIZE,
    }
}

// How many records a list may have.
pub fn record_limit(v: Version) -> usize
    ensures { result ≡ limit_in v }
{
    match v {
        Version::One => FIRST_RECORD_LIMIT,
        Version::Two => moves::RECORD_LIMIT,
    }
}

// The place of the first byte of record k, from 0, which is that behind the last byte of k records.
pub fn record_start(v: Version, k: usize) -> usize
    requires { k < 65_536 }
    ensures { result ≡ start_in v k }
{
    match v {
        Version::One => moves::HEADER_SIZE + FIRST_RECORD_SIZE * k,
        Version::Two => moves::HEADER_SIZE + moves::RECORD_SIZE * k,
    }
}
