// The lent table of the places of program lines and blocks. (02, request 8: "a lent table of the places of program lines and their blocks, by program, its line first, then by number".)
// An entry is one number: the program's number, the slot (0 for the program's line, the block's number and one more for a block) and the place on the tape, 16 bits for each of the lower two.
// The first `count` entries ascend, so that one search finds a line, and finds a repeated number. A search may be asked of any table: it ends, and is right where the entries ascend.
#![tactic(auto)]

ghost use Rattle.std.specs.Prelude.{◌≡◌, ◌++◌, ◌+◌, ◌*◌, ◌<◌, ◌≤◌, length, take, drop};
ghost use Rattle.places.specs.Places.{sixteen_bits, key_of, entry_of, key_in, place_in, Row, inserted, below, looked_up, is_held, program_in, block_in};

// A slot and a place have 16 bits each.
const SIXTEEN_BITS: u64 = 65_536;

// The highest slot. The number of a block is below it.
const HIGHEST_SLOT: u32 = 65_535;

// The first byte of the line that was sought, or that there is none.
#[derive(Clone, Copy)]
pub enum Found {
    At(usize),
    Nowhere,
}

// The key of a program's line, or of a block in it.
pub fn key_of(program: u32, slot: u32) -> u64
    requires { slot < sixteen_bits }
    ensures { result ≡ key_of program slot }
{
    program as u64 * SIXTEEN_BITS + slot as u64
}

// An entry: a key, and a place on the tape.
pub fn entry_of(key: u64, place: usize) -> u64
    requires { (key < sixteen_bits * sixteen_bits * sixteen_bits) × (place < sixteen_bits) }
    ensures { result ≡ entry_of key place }
{
    key * SIXTEEN_BITS + place as u64
}

fn key_in(entry: u64) -> u64
    ensures { result ≡ key_in entry }
{
    entry / SIXTEEN_BITS
}

fn place_in(entry: u64) -> usize
    ensures { result ≡ place_in entry }
{
    (entry % SIXTEEN_BITS) as usize
}

// How many entries have a key below `key`, where they ascend; of any table no more than `count`. Lines mostly come in ascending order: then the last entry answers at once.
fn below_key(table: &[u64], count: usize, key: u64) -> usize
    requires { count ≤ length table.now }
    ensures { (Row (take count table.now) → result ≡ below key (take count table.now)) × (result ≤ count) }
{
    if count == 0 {
        return 0;
    }
    let last = count - 1;
    let top = key_in(table[last]);
    if top < key {
        return count;
    }
    let mut low: usize = 0;
    let mut high = last;
    while low < high {
        let mid = low + (high - low) / 2;
        let here = key_in(table[mid]);
        if here < key {
            low = mid + 1;
        } else {
            high = mid;
        }
    }
    low
}

// The place of the line with a key among the first `count` entries, where they ascend. So it is with the two that follow.
pub fn find(table: &[u64], count: usize, key: u64) -> Found
    requires { count ≤ length table.now }
    ensures { Row (take count table.now) → result ≡ looked_up key (take count table.now) }
{
    let at = below_key(table, count, key);
    if at >= count {
        return Found::Nowhere;
    }
    let entry = table[at];
    let here = key_in(entry);
    if here != key {
        return Found::Nowhere;
    }
    Found::At(place_in(entry))
}

// The place of a program's line.
pub fn find_program(table: &[u64], count: usize, number: u32) -> Found
    requires { count ≤ length table.now }
    ensures { Row (take count table.now) → result ≡ program_in number (take count table.now) }
{
    let key = key_of(number, 0);
    find(table, count, key)
}

// The place of a block of a program. A number that no slot has room for would give another block's key.
pub fn find_block(table: &[u64], count: usize, program: u32, number: u32) -> Found
    requires { count ≤ length table.now }
    ensures { Row (take count table.now) → result ≡ block_in program number (take count table.now) }
{
    if number >= HIGHEST_SLOT {
        return Found::Nowhere;
    }
    let slot = number + 1;
    let key = key_of(program, slot);
    find(table, count, key)
}

// Whether there is an entry with a key among the first `count`.
pub fn holds(table: &[u64], count: usize, key: u64) -> bool
    requires { (count ≤ length table.now) × Row (take count table.now) }
    ensures { result ≡ is_held key (take count table.now) }
{
    matches!(find(table, count, key), Found::At(_))
}

// Puts an entry at its place among the first `count`; those behind it move up by one, and all behind the row are as they came.
pub fn insert(table: &mut [u64], count: usize, entry: u64)
    requires { (count < length table.old) × Row (take count table.old) }
    ensures { table.new ≡ inserted entry (take count table.old) ++ drop (count + 1) table.old }
{
    let key = key_in(entry);
    let at = below_key(table, count, key);
    for i in (at..count).rev() {
        table[i + 1] = table[i];
    }
    table[at] = entry;
}
