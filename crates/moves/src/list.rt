// The list in the lent buffer: the room it has, a record written at its place, and the header, which is written last.
// Every function that writes says what all of the slice that it is lent holds after it: bytes that it does not name are as they came.
ghost use Rattle.std.specs.Prelude.{◌≡◌, [], ◌∷◌, ◌*◌, ◌≤◌, length};
ghost use Rattle.octets.specs.Bytes.{laid};
ghost use Rattle.moves.specs.Form.{header_size, record_size, room_of, listed, record_bytes, row_from, header_bytes};

use crate::{Origin, Record};

// How many records a buffer of so many bytes has room for, within the limit.
pub fn room(bytes: usize) -> usize
    ensures { result ≡ room_of bytes }
{
    if bytes < crate::HEADER_SIZE {
        return 0;
    }
    let records = (bytes - crate::HEADER_SIZE) / crate::RECORD_SIZE;
    if records < crate::RECORD_LIMIT {
        return records;
    }
    crate::RECORD_LIMIT
}

// Writes a record, and at its end the block that it came from, at the front of the part that it is lent, which begins at the record's first byte.
// Whoever lends the part has asked for the room before: a block is refused as a whole where it has none (alarm 20).
pub fn put_record(part: &mut [u8], what: Record, origin: Origin)
    requires { record_size ≤ length part.old }
    ensures { part.new ≡ laid part.old 0 (record_bytes (listed origin what)) }
{
    let kind = octets::u32_of_bytes([what.kind, what.flags, 0, 0]);
    let x = octets::word_of(what.x);
    let z = octets::word_of(what.z);
    let program = octets::bytes_of_u16(origin.program);
    let block = octets::bytes_of_u16(origin.block);
    // X stands behind the kind and the flags, and the value behind Z.
    octets::put_eight(part, crate::AT_KIND, octets::joined(kind, x));
    octets::put_eight(part, crate::AT_Z, octets::joined(z, what.value));
    octets::put_four(
        part,
        crate::AT_PROGRAM,
        [program[0], program[1], block[0], block[1]],
    );
}

// Writes two records in the same way, the second behind the first.
pub fn put_two(part: &mut [u8], first: Record, second: Record, origin: Origin)
    requires { 2 * record_size ≤ length part.old }
    ensures { part.new ≡ laid part.old 0 (row_from origin (first ∷ second ∷ [])) }
{
    put_record(part, first, origin);
    put_record(&mut part[crate::RECORD_SIZE..], second, origin);
}

// Writes the header of a list of so many records. (01: "The header is written only when the run succeeds".)
pub fn put_header(buf: &mut [u8], count: u16)
    requires { header_size ≤ length buf.old }
    ensures { buf.new ≡ laid buf.old 0 (header_bytes count) }
{
    let version = octets::bytes_of_u16(crate::VERSION);
    let records = octets::bytes_of_u16(count);
    let mark = crate::MARK;
    octets::put_four(buf, crate::AT_MARK, [mark[0], mark[1], mark[2], version[0]]);
    octets::put_four(
        buf,
        crate::AT_VERSION + 1,
        [version[1], records[0], records[1], 0],
    );
}
