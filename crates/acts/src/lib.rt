// What a number says of one thing, else what was before: the motion and what is kept of it, a shift, how S and F count; and whether an M number ends the run or returns. (01: "what a G or M asks or forbids holds only where that word applies";
// "0 is 00 01 33 (kept) and 04 84 86 (that block only; the kept one stays)", with which G85, G87 and G88 go; 02: "G02 and G03 are kept"; "G54 and G55 call shifts 1 and 2, ..; G53 and G56 cancel".)
#![tactic(auto)]

ghost use Rattle.std.specs.Prelude.{◌≡◌};
ghost use Rattle.acts.specs.Acting.{keep, motion_by, shift_by, cutting_by, revolution_by, ends_by, returns_by};

use codes::{Code, Flow, Meaning, Motion};

// A motion function, or none.
#[derive(Clone, Copy)]
pub enum Kept {
    Nothing,
    Of(Motion),
}

// What is kept of a block's motion: G00 to G03 and G33; the others hold for that block only, and the one before stays.
pub fn keep_of(now: Kept, before: Kept) -> Kept
    ensures { result ≡ keep now before }
{
    match now {
        Kept::Nothing => before,
        Kept::Of(m) => match m {
            Motion::Rapid => Kept::Of(m),
            Motion::Feed => Kept::Of(m),
            Motion::Clockwise => Kept::Of(m),
            Motion::Counterclockwise => Kept::Of(m),
            Motion::Thread => Kept::Of(m),
            Motion::Dwell => before,
            Motion::Turning => before,
            Motion::Threading => before,
            Motion::Grooving => before,
            Motion::ChipBreaking => before,
            Motion::Redrawing => before,
        },
    }
}

// The motion of a G number of group 0.
pub fn motion_by(code: Code, before: Kept) -> Kept
    ensures { result ≡ motion_by code before }
{
    match code {
        Code::Of(_, meaning) => match meaning {
            Meaning::Moves(m) => Kept::Of(m),
            _ => before,
        },
        Code::Unknown => before,
    }
}

// The shift that a G number of group 3 or 5 calls, 0 where it cancels; any other number leaves the one before.
pub fn shift_by(code: Code, before: u32) -> u32
    ensures { result ≡ shift_by code before }
{
    match code {
        Code::Of(_, meaning) => match meaning {
            Meaning::Shift(k) => k,
            _ => before,
        },
        Code::Unknown => before,
    }
}

// Whether S is a cutting speed: G96.
pub fn cutting_by(code: Code, before: bool) -> bool
    ensures { result ≡ cutting_by code before }
{
    match code {
        Code::Of(_, meaning) => match meaning {
            Meaning::CuttingSpeed(t) => t,
            _ => before,
        },
        Code::Unknown => before,
    }
}

// Whether F is per revolution: G95.
pub fn revolution_by(code: Code, before: bool) -> bool
    ensures { result ≡ revolution_by code before }
{
    match code {
        Code::Of(_, meaning) => match meaning {
            Meaning::PerRevolution(t) => t,
            _ => before,
        },
        Code::Unknown => before,
    }
}

// Whether an M number ends the run: M30.
pub fn ends_by(code: Code) -> bool
    ensures { result ≡ ends_by code }
{
    match code {
        Code::Of(_, meaning) => match meaning {
            Meaning::Flows(flow) => match flow {
                Flow::Stop => false,
                Flow::Return => false,
                Flow::End => true,
            },
            _ => false,
        },
        Code::Unknown => false,
    }
}

// Whether an M number returns from a subroutine: M17, which alone of its group gives no record.
pub fn returns_by(code: Code) -> bool
    ensures { result ≡ returns_by code }
{
    match code {
        Code::Of(_, meaning) => match meaning {
            Meaning::Flows(flow) => match flow {
                Flow::Stop => false,
                Flow::Return => true,
                Flow::End => false,
            },
            _ => false,
        },
        Code::Unknown => false,
    }
}
