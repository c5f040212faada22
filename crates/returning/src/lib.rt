// Where a run goes on behind a block: further in its program, in a program that is called, in one that waits, or nowhere. The programs that wait for a call stand in ten places, and no function
// calls itself. (02, request 12: "call places included".)
#![tactic(auto)]

ghost use Rattle.std.specs.Prelude.{◌≡◌, ◌≤◌, ◌<◌, length};
ghost use Rattle.ahead.specs.Ahead.{most_calls};
ghost use Rattle.returning.specs.Moving.{within_of, moved_to, over_with, stopped_with, top_of, popped_to, entry_of, repeated_to, came_back, pushed_to, called_to};

use ahead::{Frame, ProgramAt};
pub use paused;
use paused::answers::Answer;
use paused::resuming::Waiting;
use paused::taking::Run;
pub use paused::{answers, resuming, taking, wording};
use paused::{Going, Phase};

// 16 bits have a place on the tape and a count of records.
const SIXTEEN_BITS: usize = 65_536;

// The place p, or, where that is not on the tape, the tape's end. A place that the tape's own table of places has is on the tape.
pub fn within(size: usize, p: usize) -> usize
    ensures { result ≡ within_of size p }
{
    if size < p {
        return size;
    }
    p
}

// The run goes on at a frame.
pub fn moved(g: Going, frame: Frame, run: Run) -> Going
    ensures { result ≡ moved_to g frame run }
{
    let mut now = g;
    now.frame = frame;
    now.run = run;
    now
}

// The run is over, with an answer.
pub fn over(g: Going, run: Run, answer: Answer) -> Going
    ensures { result ≡ over_with g run answer }
{
    let frame = g.frame;
    let waiting = g.waiting;
    Going {
        frame,
        run,
        waiting,
        phase: Phase::Over(answer),
        end: g.end,
        filled: g.filled,
    }
}

// An alarm at a place of the tape stops it.
pub fn stopped(g: Going, run: Run, alarm: u8, place: usize) -> Going
    ensures { result ≡ stopped_with g run alarm place }
{
    let count = run.count;
    over(g, run, Answer::Alarm(alarm, place % SIXTEEN_BITS, count))
}

// The program that waits, the last one. (The calls that are under way are those that are no more left.)
fn top_of(g: Going) -> Waiting
    requires { (g.frame.calls_left < most_calls) × (length g.waiting ≡ most_calls) }
    ensures { result ≡ top_of g }
{
    let frame = g.frame;
    let last = (ahead::MOST_CALLS - 1 - frame.calls_left) as usize;
    let waiting = g.waiting;
    waiting[last]
}

// The program that waits goes on.
fn popped(g: Going, w: Waiting) -> Going
    requires { g.frame.calls_left < most_calls }
    ensures { result ≡ popped_to g w }
{
    let frame = g.frame;
    let program = w.program;
    let there = Frame {
        program,
        calls_left: frame.calls_left + 1,
        at: w.after,
    };
    let run = g.run;
    moved(g, there, run)
}

// The frame in which a program begins, with so many calls left: at the line behind its own.
pub fn entry_of(tape: &[u8], program: ProgramAt, calls_left: u32) -> Frame
    requires { program.line ≤ length tape.now }
    ensures { result ≡ entry_of tape.now program calls_left }
{
    let line = tape::line::line_at(tape, program.line);
    Frame {
        program,
        calls_left,
        at: line.after,
    }
}

// The present program runs once more.
fn repeated(tape: &[u8], g: Going, w: Waiting) -> Going
    requires { (g.frame.calls_left < most_calls) × (length g.waiting ≡ most_calls) × (0 < w.times) × (g.frame.program.line ≤ length tape.now) }
    ensures { result ≡ repeated_to tape.now g w }
{
    let frame = g.frame;
    let program = frame.program;
    let left = frame.calls_left;
    let last = (ahead::MOST_CALLS - 1 - left) as usize;
    let waits = w.program;
    let mut waiting = g.waiting;
    waiting[last] = Waiting {
        program: waits,
        after: w.after,
        times: w.times - 1,
    };
    let entry = entry_of(tape, program, left);
    let mut now = g;
    now.frame = entry;
    now.waiting = waiting;
    now
}

// The present program has returned: it runs once more, or the program that waits goes on. (The main program does not return: M17 in it is alarm 14.)
pub fn come_back(tape: &[u8], g: Going) -> Going
    requires { (g.frame.calls_left ≤ most_calls) × (length g.waiting ≡ most_calls) × (g.frame.program.line ≤ length tape.now) }
    ensures { result ≡ came_back tape.now g }
{
    let frame = g.frame;
    let run = g.run;
    if frame.calls_left == ahead::MOST_CALLS {
        return stopped(g, run, alarms::WRONG_END, 0);
    }
    let w = top_of(g);
    if w.times == 0 {
        return popped(g, w);
    }
    repeated(tape, g, w)
}

// A program is called: the present one waits, to go on at `after`, and the called one is the present one.
fn pushed(g: Going, run: Run, called: ProgramAt, times: u32, after: usize) -> Going
    requires { (0 < g.frame.calls_left) × (g.frame.calls_left ≤ most_calls) × (length g.waiting ≡ most_calls) }
    ensures { result ≡ pushed_to g run called times after }
{
    let frame = g.frame;
    let program = frame.program;
    let left = frame.calls_left - 1;
    let next = (ahead::MOST_CALLS - 1 - left) as usize;
    let mut waiting = g.waiting;
    waiting[next] = Waiting {
        program,
        after,
        times,
    };
    let there = Frame {
        program: called,
        calls_left: left,
        at: after,
    };
    let mut now = g;
    now.frame = there;
    now.run = run;
    now.waiting = waiting;
    now
}

// A call, with the run behind its block: the called program is entered as one that has returned, with all of its times left.
pub fn call(tape: &[u8], g: Going, run: Run, called: ProgramAt, times: u32, after: usize) -> Going
    requires { (g.frame.calls_left ≤ most_calls) × (length g.waiting ≡ most_calls) × (called.line ≤ length tape.now) }
    ensures { result ≡ called_to tape.now g run called times after }
{
    let frame = g.frame;
    if frame.calls_left == 0 {
        return stopped(g, run, alarms::TOO_DEEP, called.line);
    }
    come_back(tape, pushed(g, run, called, times, after))
}
