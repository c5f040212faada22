// A run is started, for the engine that hands out one record at a time: the tape is judged and read as the list engine does it, and the run stands before the main program's first block.
// (02, request 12: "a new start clears it": nothing of a run before is handed in.)
#![tactic(auto)]

ghost use Rattle.std.specs.Prelude.{◌≡◌, ◌≤◌, length, take};
ghost use Rattle.places.specs.Places.{Row, program_in};
ghost use Rattle.returning.specs.of_interpreter.Answers.{places_of};
ghost use Rattle.returning.specs.of_resuming.Handed.{roomy};
ghost use Rattle.starting.specs.Begun.{standing_at, refused_with, begun_at};
ghost use Rattle.starting.specs.Starts.{StartMeets};

use ahead::{Frame, ProgramAt};
use places::Found;
use reading::Read;
use returning::answers;
use returning::answers::Answer;
use returning::paused::{Going, Phase};
use returning::resuming::Waiting;
use returning::taking::Run;
use settings::Settings;

// A run that stands in a program before its first block, or one that is over at once: no program waits.
fn standing(frame: Frame, run: Run, phase: Phase, end: usize, filled: usize) -> Going
    ensures { result ≡ standing_at frame run phase end filled }
{
    let nobody = Waiting {
        program: ProgramAt { number: 0, line: 0 },
        after: 0,
        times: 0,
    };
    Going {
        frame,
        run,
        waiting: [nobody; 10],
        phase,
        end,
        filled,
    }
}

// A tape that is refused before a block is begun. No start of the settings is taken: they may be what is refused.
pub fn refused(alarm: u8, place: usize) -> Going
    ensures { result ≡ refused_with alarm place }
{
    let frame = Frame {
        program: ProgramAt { number: 0, line: 0 },
        calls_left: ahead::MOST_CALLS,
        at: 0,
    };
    let run = Run {
        state: state::at_start(0, 0),
        blocks_left: 0,
        count: 0,
    };
    standing(
        frame,
        run,
        Phase::Over(Answer::Alarm(alarm, place, 0)),
        0,
        0,
    )
}

// The main program of a tape that was read, of which `filled` entries of the table of places are.
fn begin(tape: &[u8], set: Settings, places: &[u64], filled: usize) -> Going
    requires { (filled ≤ length places.now) × Row (take filled places.now) }
    ensures { result ≡ begun_at tape.now set filled (program_in set.main (take filled places.now)) }
{
    let found = places::find_program(places, filled, set.main);
    let Found::At(p) = found else {
        return refused(alarms::PROGRAM_MISSING, 0);
    };
    let line = returning::within(tape.len(), p);
    let main = ProgramAt {
        number: set.main,
        line,
    };
    let frame = returning::entry_of(tape, main, ahead::MOST_CALLS);
    standing(
        frame,
        answers::start_of(set),
        Phase::Running,
        tape.len(),
        filled,
    )
}

// Starts a run: the tape is judged and read, and the table of places filled. An alarm of reading is the engine's only answer.
pub fn start(tape: &[u8], table: &[i32], set: Settings, places: &mut [u64]) -> Going
    ensures result { StartMeets tape.now table.now set places.old result }
    ensures filled { places.new ≡ places_of tape.now table.now set places.old roomy }
{
    if settings::settings_wrong(table, set) {
        return refused(alarms::BAD_SETTINGS, 0);
    }
    if tape.len() > reading::LONGEST_TAPE {
        return refused(alarms::TAPE_TOO_LONG, 0);
    }
    let told = scanning::read_tape(tape, set.points, places);
    let read = told.read;
    match read {
        Read::Alarm(alarm, place) => refused(alarm, place),
        Read::Whole(_, end) => {
            let lines = &tape[..end];
            begin(lines, set, places, told.count)
        }
    }
}
