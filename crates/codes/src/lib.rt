// What the G and M numbers mean, and their groups: a match over the numbers gives both, or that the number is none of the paper's (alarm 9).
// (01: "only the G and M numbers above"; "G groups (001): ..; M groups: ..".)
#![tactic(auto)]

ghost use Rattle.std.specs.Prelude.{◌≡◌};
ghost use Rattle.codes.specs.Codes.{g_code, m_code};

// Group 0 of G: the first five are kept, the others hold for their block only.
#[derive(Clone, Copy)]
pub enum Motion {
    Rapid,
    Feed,
    // the two arcs: G02, G03
    Clockwise,
    Counterclockwise,
    Thread,
    Dwell,
    Turning,
    Threading,
    Grooving,
    // the two drilling cycles, as manual 001 calls them: G87, G88
    ChipBreaking,
    Redrawing,
}

// Group 6 of G: G25, G27.
#[derive(Clone, Copy)]
pub enum Steering {
    Call,
    Jump,
}

// Group 2 of M: M00, M17, M30.
#[derive(Clone, Copy)]
pub enum Flow {
    Stop,
    Return,
    End,
}

// What a number says beside its group.
#[derive(Clone, Copy)]
pub enum Meaning {
    Moves(Motion),
    // whether S is a cutting speed (G96) and not the spindle's (G97)
    CuttingSpeed(bool),
    // whether F is per revolution (G95) and not per minute (G94)
    PerRevolution(bool),
    // the shift of the table that is called, 0 for none
    Shift(u32),
    Steers(Steering),
    Metric,
    // which of M03 M04 M05, and which of M08 M09, is told by the number itself
    Spindle,
    Coolant,
    Flows(Flow),
}

// The group of a number and its meaning.
#[derive(Clone, Copy)]
pub enum Code {
    Of(usize, Meaning),
    Unknown,
}

pub fn g_code(n: u32) -> Code
    ensures { result ≡ g_code n }
{
    match n {
        0 => Code::Of(0, Meaning::Moves(Motion::Rapid)),
        1 => Code::Of(0, Meaning::Moves(Motion::Feed)),
        2 => Code::Of(0, Meaning::Moves(Motion::Clockwise)),
        3 => Code::Of(0, Meaning::Moves(Motion::Counterclockwise)),
        33 => Code::Of(0, Meaning::Moves(Motion::Thread)),
        4 => Code::Of(0, Meaning::Moves(Motion::Dwell)),
        84 => Code::Of(0, Meaning::Moves(Motion::Turning)),
        85 => Code::Of(0, Meaning::Moves(Motion::Threading)),
        86 => Code::Of(0, Meaning::Moves(Motion::Grooving)),
        87 => Code::Of(0, Meaning::Moves(Motion::ChipBreaking)),
        88 => Code::Of(0, Meaning::Moves(Motion::Redrawing)),
        96..=97 => Code::Of(1, Meaning::CuttingSpeed(n == 96)),
        94..=95 => Code::Of(2, Meaning::PerRevolution(n == 95)),
        53 => Code::Of(3, Meaning::Shift(0)),
        54..=55 => Code::Of(3, Meaning::Shift(1 + (n - 54))),
        56 => Code::Of(5, Meaning::Shift(0)),
        57..=59 => Code::Of(5, Meaning::Shift(3 + (n - 57))),
        25 => Code::Of(6, Meaning::Steers(Steering::Call)),
        27 => Code::Of(6, Meaning::Steers(Steering::Jump)),
        71 => Code::Of(7, Meaning::Metric),
        _ => Code::Unknown,
    }
}

pub fn m_code(n: u32) -> Code
    ensures { result ≡ m_code n }
{
    match n {
        3..=5 => Code::Of(0, Meaning::Spindle),
        8..=9 => Code::Of(3, Meaning::Coolant),
        0 => Code::Of(2, Meaning::Flows(Flow::Stop)),
        17 => Code::Of(2, Meaning::Flows(Flow::Return)),
        30 => Code::Of(2, Meaning::Flows(Flow::End)),
        _ => Code::Unknown,
    }
}
