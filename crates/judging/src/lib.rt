// A list judged as a whole: its version and how many records it has, or why it is refused. (02: "It accepts exactly lists in the written form"; "the reader takes both".)
#![tactic(auto)]

ghost use Rattle.std.specs.Prelude.{◌≡◌, ◌&&◌, ◌<◌, ◌≤◌, length, drop};
ghost use Rattle.moves.specs.Form.{header_size, program_at};
ghost use Rattle.moves.specs.Reading.{record_in, count_in};
ghost use Rattle.moves.specs.Kinds.{in_turn};
ghost use Rattle.judging.specs.Refusals.{refusal_number};
ghost use Rattle.lawful.specs.Right.{is_right, right_row};
ghost use Rattle.lawful.specs.Versions.{size_in, start_in};
ghost use Rattle.judging.specs.Judging.{mark_wrong, length_wrong, records_every, spare_zero, spares_zero, judged_as, judged, version_named};

use lawful::Version;

// Why a list is refused, in the order in which it is asked. (02: "mark (or under 8 bytes), version, length (or count above the limit or header's spare byte), any bad record, index (k from 0)".)
#[derive(Clone, Copy)]
pub enum Refusal {
    BadMark,
    BadVersion,
    BadLength,
    BadRecord,
    BadIndex,
}

// The numbers of the refusals, as a caller in C gets them.
pub const BAD_MARK: u32 = 1;

pub const BAD_VERSION: u32 = 2;

pub const BAD_LENGTH: u32 = 3;

pub const BAD_RECORD: u32 = 4;

pub const BAD_INDEX: u32 = 5;

impl From<Refusal> for u32 {
    ghost from_gives = { λ refusal n. n ≡ refusal_number refusal };

    fn from(refusal: Refusal) -> u32 {
        match refusal {
            Refusal::BadMark => BAD_MARK,
            Refusal::BadVersion => BAD_VERSION,
            Refusal::BadLength => BAD_LENGTH,
            Refusal::BadRecord => BAD_RECORD,
            Refusal::BadIndex => BAD_INDEX,
        }
    }
}

// The number of version 2 in the header.
const SECOND_VERSION: usize = moves::VERSION as usize;

// "mark (or under 8 bytes)"
#[tactic(auto, unfolding(crate::specs::Judging::mark_wrong))]
fn mark_wrong(list: &[u8]) -> bool
    ensures { result ≡ mark_wrong list.now }
{
    if list.len() < moves::HEADER_SIZE {
        return true;
    }
    let mark = moves::MARK;
    (list[moves::AT_MARK] != mark[0])
        | (list[moves::AT_MARK + 1] != mark[1])
        | (list[moves::AT_MARK + 2] != mark[2])
}

// The version that a header names: 1, or else 2. Of a list that was judged good it is one of the two.
pub fn version_named(list: &[u8]) -> Version
    requires { header_size ≤ length list.now }
    ensures { result ≡ version_named list.now }
{
    match fields::two_at(list, moves::AT_VERSION) {
        lawful::FIRST_VERSION => Version::One,
        _ => Version::Two,
    }
}

// "length (or count above the limit or header's spare byte)", of a list that has a header and this count in it.
#[tactic(auto, unfolding(crate::specs::Judging::length_wrong))]
fn length_wrong(list: &[u8], v: Version, count: usize) -> bool
    requires { (header_size ≤ length list.now) × (count ≡ count_in list.now) × (count < 65_536) }
    ensures { result ≡ length_wrong v list.now }
{
    if count > lawful::record_limit(v) {
        return true;
    }
    (list.len() != lawful::record_start(v, count)) | (list[moves::AT_HEADER_ZERO] != 0)
}

// Whether the record at the front of a part is right where it stands, its spare bytes too. The block that it came from is not asked.
fn front_right(due: bool, part: &[u8]) -> bool
    requires { program_at ≤ length part.now }
    ensures { result ≡ (spare_zero part.now && (in_turn due (record_in part.now).kind && is_right (record_in part.now))) }
{
    if (part[moves::AT_ZEROS] != 0) | (part[moves::AT_ZEROS + 1] != 0) {
        return false;
    }
    lawful::right::is_right_after(due, fields::record_in(part))
}

// Whether so many records are right, one behind the other.
#[tactic(auto, using(crate::proofs::Judges::within, crate::proofs::Judges::next_start, crate::proofs::Judges::whole_what))]
fn row_right(list: &[u8], v: Version, count: usize) -> bool
    requires { start_in v count ≤ length list.now }
    ensures { result ≡ (spares_zero (size_in v) count (drop header_size list.now) && right_row (records_every (size_in v) count (drop header_size list.now))) }
{
    let size = lawful::record_size(v);
    let mut due = false;
    let mut first = moves::HEADER_SIZE;
    let mut k = 0;
    while k < count {
        if !front_right(due, &list[first..]) {
            return false;
        }
        due = lawful::right::is_arc(list[first + moves::AT_KIND]);
        first += size;
        k += 1;
    }
    !due
}

// Judges the length and the records of a list whose header names a version.
#[tactic(auto, using(crate::proofs::Judges::right_length), unfolding(crate::specs::Judging::judged_as, crate::specs::Judging::records_wrong))]
fn judge_as(list: &[u8], v: Version) -> Result<(Version, usize), Refusal>
    requires { header_size ≤ length list.now }
    ensures { result ≡ judged_as v list.now }
{
    let count = fields::two_at(list, moves::AT_COUNT);
    if length_wrong(list, v, count) {
        return Err(Refusal::BadLength);
    }
    if !row_right(list, v, count) {
        return Err(Refusal::BadRecord);
    }
    Ok((v, count))
}

// Judges a list, in one pass over its records: its version and how many records it has, or the first refusal.
#[tactic(auto, using(crate::proofs::Judges::long_enough), unfolding(crate::specs::Judging::judged))]
pub fn judge_list(list: &[u8]) -> Result<(Version, usize), Refusal>
    ensures { result ≡ judged list.now }
{
    if mark_wrong(list) {
        return Err(Refusal::BadMark);
    }
    let version = match fields::two_at(list, moves::AT_VERSION) {
        lawful::FIRST_VERSION => Version::One,
        SECOND_VERSION => Version::Two,
        _ => return Err(Refusal::BadVersion),
    };
    judge_as(list, version)
}
