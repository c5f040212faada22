// A block that is opened by its words: alarms 13, 14, 10, 11 and 12, and then those of the block itself.
#![tactic(auto)]

ghost use Rattle.std.specs.Prelude.{◌≡◌, ◌+◌, ◌≤◌, ◌<◌, length, take};
ghost use Rattle.places.specs.Places.{Row};
ghost use Rattle.moves.specs.Form.{record_limit, stamped};
ghost use Rattle.asking.specs.Judge.{doing};
ghost use Rattle.deeds.specs.Known.{Right, Known};
ghost use Rattle.taking.specs.of_writing.Writes.{writes};
ghost use Rattle.taking.specs.Steps.{block_in};
ghost use Rattle.taking.specs.Hands.{in_hand, HandSound, Able, OpenMeets};
ghost use Rattle.taking.specs.Meets.{onward_in, Asks, origin_in, Starts, Next, refused_by};
ghost use Rattle.wording.specs.Meets.{GoingMeets};

use ahead::{Frame, Onward};
use block::Block;
use deeds::Deed;
use finding::BlockAt;
use moves::Origin;
use settings::Settings;
use state::State;
pub use taking;
use taking::verdicts::{Going, Verdict};
use taking::{Hand, Opened, Run, opening, verdicts, writing};
pub use taking::{putting, stages};

// The numbers of a program and of a block have 16 bits in a record.
const SIXTEEN_BITS: u32 = 65_536;

// The words of a block line, behind its block number.
fn words_of(line: &[u8], behind: usize) -> Block
    requires { Starts line.now behind }
    ensures { result ≡ block_in line.now }
{
    if line.len() > block::LONGEST_LINE {
        return block::no_words();
    }
    let rest = block::read_rest(line, behind);
    rest.block
}

// What the block at the frame's place asks of the runner, where so many blocks may still begin: alarms 13, 14, 10, 11 and 12.
fn onward_of(
    places: &[u64],
    count: usize,
    set: Settings,
    frame: Frame,
    left: u32,
    b: Block,
) -> Onward
    requires { count ≤ length places.now }
    ensures found { Row (take count places.now) → result ≡ onward_in (take count places.now) set frame left b }
    ensures form { Asks set frame left b result }
{
    if left == 0 {
        return Onward::Stop(alarms::TOO_MANY_BEGUN, frame.at);
    }
    let next = requests::request_of(b);
    ahead::look_up(places, count, set, frame, next)
}

// Where the records of a block come from: the number of the frame's program, and that of the block's line. Both have four digits on a tape; of a frame from elsewhere the lower 16 bits are taken.
fn origin_of(frame: Frame, line: BlockAt) -> Origin
    requires { line.number < 10_000 }
    ensures { result ≡ origin_in frame line }
{
    let program = frame.program;
    Origin {
        program: (program.number % SIXTEEN_BITS) as u16,
        block: line.number as u16,
    }
}

// A block that an alarm refuses: the run is as it was, and nothing is handed out.
fn refused(alarm: u8, place: usize, run: Run, after: usize) -> Opened
    ensures { result ≡ refused_by alarm place run after }
{
    let done = taking::stopped(alarm, place, run, after);
    Opened {
        done,
        hand: Hand::Nothing,
    }
}

// What a block has to hand out, of the settled state: so many records in all. It was not refused.
fn hand_of(s: State, b: Block, d: Deed, total: usize, origin: Origin) -> Hand
    requires { Right d × Known d × (total ≡ length (writes s b d)) }
    ensures { (in_hand result ≡ stamped origin (writes s b d)) × HandSound result }
{
    if total == 0 {
        return Hand::Nothing;
    }
    let cursor = opening::open_block(s, b, d);
    Hand::Block(cursor, origin)
}

// Opens a block that may be done.
fn open_going(
    going: Going,
    b: Block,
    origin: Origin,
    onward: Onward,
    run: Run,
    after: usize,
) -> Opened
    requires { Right going.deed × Known going.deed × (going.count ≡ length (doing going.deed)) × (0 < run.blocks_left) × (run.count + length (writes going.settled b going.deed) ≤ record_limit) }
    ensures { GoingMeets going b origin onward run after result }
{
    let settled = going.settled;
    let deed = going.deed;
    let total = going.count as usize + writing::other_count(b) as usize;
    let state = writing::done_of(settled, deed);
    let hand = hand_of(settled, b, deed, total, origin);
    let count = run.count + total;
    let done = taking::went(onward, state, run, count, after);
    Opened { done, hand }
}

// Opens the block of a line that was found, by its words, where so many records have room in all. The code looks in the first `count` entries of `places`, which may be any: that they are the tape's
// own is needed for the step to be the one that is defined, and for nothing else.
pub fn open_words(
    tape: &[u8],
    table: &[i32],
    set: Settings,
    places: &[u64],
    count: usize,
    room: usize,
    frame: Frame,
    line: BlockAt,
    run: Run,
) -> Opened
    requires { Able tape.now table.now set places.now count room frame run × Next tape.now frame.at line }
    ensures { OpenMeets tape.now table.now set places.now count room frame run result }
{
    let at = line.at;
    let stop = line.stop;
    let after = line.after;
    let b = words_of(&tape[at..stop], line.behind);
    let there = taking::onto(frame, at);
    let onward = onward_of(places, count, set, there, run.blocks_left, b);
    let asked = taking::alarm_by(onward);
    if asked != 0 {
        return refused(asked, at, run, after);
    }
    let before = run.state;
    let room_left = room - run.count;
    let verdict = verdicts::judge_block(table, set, before, b, room_left as u32);
    match verdict {
        Verdict::Refused(alarm) => refused(alarm, at, run, after),
        Verdict::Goes(going) => {
            let origin = origin_of(frame, line);
            open_going(going, b, origin, onward, run, after)
        }
    }
}
