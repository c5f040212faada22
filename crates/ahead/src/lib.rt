// What lies ahead of a block: the places that a call or a jump asks for.
#![tactic(auto)]

ghost use Rattle.std.specs.Prelude.{◌≡◌, ◌≤◌, length, take};
ghost use Rattle.places.specs.Places.{Row};
ghost use Rattle.ahead.specs.Ahead.{called_at, jumped_to, looked_up_in, LooksUp};

use places::Found;
use requests::Request;
use settings::Settings;

// "At most ten calls deep": the calls that are left in the main program.
pub const MOST_CALLS: u32 = 10;

// A program of the tape: its number, and the place of its line.
#[derive(Clone, Copy)]
pub struct ProgramAt {
    pub number: u32,
    pub line: usize,
}

// Where a run is: in a program, with so many calls left, at a place of the tape.
#[derive(Clone, Copy)]
pub struct Frame {
    pub program: ProgramAt,
    pub calls_left: u32,
    pub at: usize,
}

// Where the run goes on after a block, with the places on the tape: the program that is called and how often it runs, the line of the block that is jumped to; or an alarm with its
// place.
#[derive(Clone, Copy)]
pub enum Onward {
    On,
    Call(ProgramAt, u32),
    Jump(usize),
    Return,
    End,
    Stop(u8, usize),
}

// The call of the program of a number, which was looked for, by the block at the frame's place.
fn called_at(found: Found, number: u32, frame: Frame, times: u32) -> Onward
    ensures { result ≡ called_at found number frame times }
{
    match found {
        Found::Nowhere => Onward::Stop(alarms::PROGRAM_MISSING, frame.at),
        Found::At(line) => {
            if frame.calls_left == 0 {
                return Onward::Stop(alarms::TOO_DEEP, frame.at);
            }
            Onward::Call(ProgramAt { number, line }, times)
        }
    }
}

// The jump to a block that was looked for, by the block at the frame's place.
fn jumped_to(found: Found, frame: Frame) -> Onward
    ensures { result ≡ jumped_to found frame }
{
    match found {
        Found::Nowhere => Onward::Stop(alarms::BLOCK_MISSING, frame.at),
        Found::At(p) => Onward::Jump(p),
    }
}

// What the block at the frame's place asks for, looked up in the table of places: alarms 14, 10, 11 and 12. It may be asked of any table, and is right where the entries
// ascend.
pub fn look_up(places: &[u64], count: usize, set: Settings, frame: Frame, next: Request) -> Onward
    requires { count ≤ length places.now }
    ensures found { Row (take count places.now) → result ≡ looked_up_in (take count places.now) set frame next }
    ensures form { LooksUp set frame next result }
{
    match next {
        Request::On => Onward::On,
        Request::Call(n, times) => {
            if (n < set.lowest_subroutine) | (settings::HIGHEST_SUBROUTINE < n) {
                return Onward::Stop(alarms::PROGRAM_MISSING, frame.at);
            }
            let found = places::find_program(places, count, n);
            called_at(found, n, frame, times)
        }
        Request::Jump(n) => {
            let program = frame.program;
            let found = places::find_block(places, count, program.number, n);
            jumped_to(found, frame)
        }
        Request::Return => {
            if frame.calls_left == MOST_CALLS {
                return Onward::Stop(alarms::WRONG_END, frame.at);
            }
            Onward::Return
        }
        Request::End => {
            if frame.calls_left == MOST_CALLS {
                return Onward::End;
            }
            Onward::Stop(alarms::WRONG_END, frame.at)
        }
    }
}
