// Moves of a cycle: to a place on the axis that goes in, and a place on the axis across it. Facing, these are Z and X, else X and Z.
// Each function makes one record.
ghost use Rattle.std.specs.Prelude.{◌≡◌};
ghost use Rattle.axes.specs.Goes.{rapid_to, feed_to, thread_to, dwell_at};

use moves::Record;

pub fn rapid_to(facing: bool, inward: i32, across: i32) -> Record
    ensures { result ≡ rapid_to facing inward across }
{
    if facing {
        return Record::rapid(across, inward);
    }
    Record::rapid(inward, across)
}

pub fn feed_to(facing: bool, f: u32, g95: bool, inward: i32, across: i32) -> Record
    ensures { result ≡ feed_to facing f g95 inward across }
{
    if facing {
        return Record::feed(across, inward, f, g95);
    }
    Record::feed(inward, across, f, g95)
}

// A thread move of a pitch.
pub fn thread_to(facing: bool, pitch: u32, inward: i32, across: i32) -> Record
    ensures { result ≡ thread_to facing pitch inward across }
{
    if facing {
        return Record::thread(across, inward, pitch);
    }
    Record::thread(inward, across, pitch)
}

// A dwell of so many tenths of a second.
pub fn dwell_at(facing: bool, tenths: u32, inward: i32, across: i32) -> Record
    ensures { result ≡ dwell_at facing tenths inward across }
{
    if facing {
        return Record::dwell(across, inward, tenths);
    }
    Record::dwell(inward, across, tenths)
}
