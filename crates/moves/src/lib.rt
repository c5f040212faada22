// The form of the list of moves. (01: "The list in bytes"; 02, request 7: "version 2 of the list has 20-byte records", "The writer writes version 2 only".) list.rt has its place in the lent buffer.
// The header's size, the record's size, the record limit, the version, the mark and the places of the fields stand here, once each, as they do in specs/Form.antt: who writes a list and who
// reads one go by them. So do the kinds' numbers and flags, as in specs/Kinds.antt.
// A record is what is done, and the machine position after it, with a function for each kind; the block that it came from is put on where it is written.
#![tactic(auto)]

pub mod list;

ghost use Rattle.std.specs.Prelude.{◌≡◌, cond};
ghost use Rattle.moves.specs.Kinds.{rapid, feed, thread, dwell, tool, miscellaneous, speed, arc, centre, clockwise_kind, counterclockwise_kind};

pub const HEADER_SIZE: usize = 8;

pub const RECORD_SIZE: usize = 20;

// How many records a list may have.
pub const RECORD_LIMIT: usize = 3_200;

pub const VERSION: u16 = 2;

pub const MARK: [u8; 3] = [b'T', b'M', b'V'];

// Where the header's fields begin: the mark, the version and the count in 16 bits each, a zero.
pub const AT_MARK: usize = 0;

pub const AT_VERSION: usize = 3;

pub const AT_COUNT: usize = 5;

pub const AT_HEADER_ZERO: usize = 7;

// Where a record's fields begin: a byte each for kind and flags, two zeros, then X, Z and the value in 32 bits each, and at its end the numbers of the program and of the block that it
// came from, in 16 bits each.
pub const AT_KIND: usize = 0;

pub const AT_FLAGS: usize = 1;

pub const AT_ZEROS: usize = 2;

pub const AT_X: usize = 4;

pub const AT_Z: usize = 8;

pub const AT_VALUE: usize = 12;

pub const AT_PROGRAM: usize = 16;

pub const AT_BLOCK: usize = 18;

#[derive(Clone, Copy)]
pub struct Record {
    pub kind: u8,
    pub flags: u8,
    pub x: i32,
    pub z: i32,
    pub value: u32,
}

// The block that a record came from: the number of its program, and its own. (02, request 7: "For a move inside a subprogram it is the subprogram's block".)
#[derive(Clone, Copy)]
pub struct Origin {
    pub program: u16,
    pub block: u16,
}

// A record that is handed out, and what is left behind it: the cursor of a cycle, or what is due of a block.
#[derive(Clone, Copy)]
pub struct Handed<C> {
    pub record: Record,
    pub rest: C,
}

// A record as it stands in a list, with the block that it came from.
#[derive(Clone, Copy)]
pub struct Listed {
    pub what: Record,
    pub origin: Origin,
}

impl Record {
    pub const RAPID: u8 = 1;

    pub const FEED: u8 = 2;

    pub const THREAD: u8 = 3;

    pub const DWELL: u8 = 4;

    pub const TOOL: u8 = 5;

    pub const MISCELLANEOUS: u8 = 6;

    pub const SPEED: u8 = 7;

    // The arcs, and the record behind each that has its centre. (02, request 4.)
    pub const CLOCKWISE: u8 = 8;

    pub const COUNTERCLOCKWISE: u8 = 9;

    pub const CENTRE: u8 = 10;

    // The flag of a feed record, and of an arc, under G95.
    pub const FLAG_G95: u8 = 1;

    // The flag of a speed record under G96.
    pub const FLAG_G96: u8 = 2;

    pub fn rapid(x: i32, z: i32) -> Record
        ensures { result ≡ rapid x z }
    {
        Record {
            kind: Record::RAPID,
            flags: 0,
            x,
            z,
            value: 0,
        }
    }

    pub fn feed(x: i32, z: i32, f: u32, g95: bool) -> Record
        ensures { result ≡ feed x z f g95 }
    {
        let flags = flag_if(g95, Record::FLAG_G95);
        Record {
            kind: Record::FEED,
            flags,
            x,
            z,
            value: f,
        }
    }

    pub fn thread(x: i32, z: i32, pitch: u32) -> Record
        ensures { result ≡ thread x z pitch }
    {
        Record {
            kind: Record::THREAD,
            flags: 0,
            x,
            z,
            value: pitch,
        }
    }

    pub fn dwell(x: i32, z: i32, tenths: u32) -> Record
        ensures { result ≡ dwell x z tenths }
    {
        Record {
            kind: Record::DWELL,
            flags: 0,
            x,
            z,
            value: tenths,
        }
    }

    pub fn tool(x: i32, z: i32, t: u32) -> Record
        ensures { result ≡ tool x z t }
    {
        Record {
            kind: Record::TOOL,
            flags: 0,
            x,
            z,
            value: t,
        }
    }

    pub fn miscellaneous(x: i32, z: i32, m: u32) -> Record
        ensures { result ≡ miscellaneous x z m }
    {
        Record {
            kind: Record::MISCELLANEOUS,
            flags: 0,
            x,
            z,
            value: m,
        }
    }

    pub fn speed(x: i32, z: i32, s: u32, g96: bool) -> Record
        ensures { result ≡ speed x z s g96 }
    {
        let flags = flag_if(g96, Record::FLAG_G96);
        Record {
            kind: Record::SPEED,
            flags,
            x,
            z,
            value: s,
        }
    }

    pub fn arc(clockwise: bool, x: i32, z: i32, f: u32, g95: bool) -> Record
        ensures { result ≡ arc clockwise x z f g95 }
    {
        let kind = arc_kind(clockwise);
        let flags = flag_if(g95, Record::FLAG_G95);
        Record {
            kind,
            flags,
            x,
            z,
            value: f,
        }
    }

    pub fn centre(x: i32, z: i32) -> Record
        ensures { result ≡ centre x z }
    {
        Record {
            kind: Record::CENTRE,
            flags: 0,
            x,
            z,
            value: 0,
        }
    }
}

fn arc_kind(clockwise: bool) -> u8
    ensures { result ≡ cond clockwise clockwise_kind counterclockwise_kind }
{
    if clockwise {
        Record::CLOCKWISE
    } else {
        Record::COUNTERCLOCKWISE
    }
}

fn flag_if(on: bool, flag: u8) -> u8
    ensures { result ≡ cond on flag 0 }
{
    if on { flag } else { 0 }
}
