// The interpreter: a tape, a table, settings, a lent table of places and a lent buffer in, a list of moves or a named alarm out. No caller has to check anything first.
// (01: "1 to 4 in that order; then lines from the front ..; then 10 for the main; then blocks as run".)
ghost use Rattle.std.specs.Prelude.{◌≡◌, ◌≤◌, length};
ghost use Rattle.moves.specs.Form.{header_size};
ghost use Rattle.answers.specs.of_taking.Steps.{task_of};
ghost use Rattle.interpreter.specs.Answers.{main_run, laid_by, read_then, answer_of, places_of, buffer_of};
ghost use Rattle.interpreter.specs.Known.{Lent, ReadIn};
ghost use Rattle.settings.specs.Known.{Right};

use ahead::ProgramAt;
use answers::{Answer, runners};
use places::Found;
use reading::Read;
use settings::Settings;

// Runs the main program of a tape that was read, and writes the header where the list is complete. The first `count` entries of `places` are filled.
fn run_main(
    tape: &[u8],
    table: &[i32],
    set: Settings,
    places: &[u64],
    count: usize,
    first: usize,
    buf: &mut [u8],
) -> Answer
    requires { Lent places.now count tape.now first × Right table.now set × (header_size ≤ length buf.old) }
    ensures result { result ≡ (main_run (task_of tape.now table.now set first (length buf.old))).answer }
    ensures records { buf.new ≡ laid_by (main_run (task_of tape.now table.now set first (length buf.old))) buf.old }
{
    let found = places::find_program(places, count, set.main);
    let Found::At(line) = found else {
        return Answer::Alarm(alarms::PROGRAM_MISSING, 0, 0);
    };
    let o = runners::run_program(
        tape,
        table,
        set,
        places,
        count,
        first,
        buf,
        ProgramAt {
            number: set.main,
            line,
        },
        ahead::MOST_CALLS,
        answers::start_of(set),
    );
    let ending = o.ending;
    let run = o.run;
    answers::finish(ending, run.count, buf)
}

// Runs a tape as it was read, up to where reading ended. A run asks for no points: that is done where the tape is read.
fn run_read(
    tape: &[u8],
    table: &[i32],
    set: Settings,
    read: Read,
    places: &[u64],
    count: usize,
    buf: &mut [u8],
) -> Answer
    requires { ReadIn tape.now places.now count read × Right table.now set × (header_size ≤ length buf.old) }
    ensures result { result ≡ (read_then tape.now table.now set (length buf.old) read).answer }
    ensures records { buf.new ≡ laid_by (read_then tape.now table.now set (length buf.old) read) buf.old }
{
    match read {
        Read::Alarm(alarm, place) => Answer::Alarm(alarm, place, 0),
        Read::Whole(first, end) => {
            let lines = &tape[..end];
            let running = settings::with_points(set, false);
            run_main(lines, table, running, places, count, first, buf)
        }
    }
}

// The whole work: every tape, table, settings, table of places and buffer give a complete list or one alarm. The contract says the answer, every entry of the table of places and every
// byte of the buffer.
pub fn interpret(
    tape: &[u8],
    table: &[i32],
    set: Settings,
    places: &mut [u64],
    buf: &mut [u8],
) -> Answer
    ensures result { result ≡ answer_of tape.now table.now set (length places.old) (length buf.old) }
    ensures filled { places.new ≡ places_of tape.now table.now set places.old (length buf.old) }
    ensures records { buf.new ≡ buffer_of tape.now table.now set (length places.old) buf.old }
{
    if settings::settings_wrong(table, set) {
        return Answer::Alarm(alarms::BAD_SETTINGS, 0, 0);
    }
    if tape.len() > reading::LONGEST_TAPE {
        return Answer::Alarm(alarms::TAPE_TOO_LONG, 0, 0);
    }
    if buf.len() < moves::HEADER_SIZE {
        return Answer::Alarm(alarms::BUFFER_TOO_SHORT, 0, 0);
    }
    let told = scanning::read_tape(tape, set.points, places);
    let read = told.read;
    run_read(tape, table, set, read, places, told.count, buf)
}
