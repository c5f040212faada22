// The cycles as their words give them: a cycle's D words and retract that count on a diameter are scaled here, and nowhere else.
// (01, "G84": "d = 2 x D3 (D3 is per side)"; 02: "the X allowance is 2 x D0"; "G86": "2 x D3", "twice the retract", facing "tool width 2 x D5, overlap 200, depth piece D3, single retract".
// A thread's depths are per side, and its cycle doubles them.)
#![tactic(auto)]

ghost use Rattle.std.specs.Prelude.{◌≡◌, ◌+◌, ◌<◌};
ghost use Rattle.block.specs.Slots.{d_slot, code_in};
ghost use Rattle.scaling.specs.Scaled.{is_facing, turning_of, empty_cuts, thread_of, groove_of, bore_of};
ghost use Rattle.scaling.specs.Known.{Small};

use axes::Axis;
use block::Block;
use drilling::Bore;
use grooving::{Groove, Way};
use threading::Thread;
use turning::Turning;

// Where the axes stand and where the block sends them, the feed in force, and the retract and the empty cuts of the settings.
#[derive(Clone, Copy)]
pub struct Sending {
    pub x: i32,
    pub z: i32,
    pub x_target: i32,
    pub z_target: i32,
    pub f: u32,
    pub g95: bool,
    pub retract: u32,
    pub empty_cuts: u32,
}

// The least overlap of two plunges, in micrometres.
const OVERLAP: u32 = 100;

// "X or U before Z or W is longitudinal, else facing; the order is that of the words that apply". One word of each axis stands there (alarm 9 has seen to it), so that the other
// place of an axis is 0.
#[tactic(auto, unfolding(crate::specs::Scaled::is_facing))]
fn is_facing(b: Block) -> bool
    ensures { result ≡ is_facing b }
{
    let x = u32::from(b.place[block::X]) + u32::from(b.place[block::U]);
    let z = u32::from(b.place[block::Z]) + u32::from(b.place[block::W]);
    z < x
}

// The D word of an index, 0 where there is none.
pub fn d_word(b: Block, index: usize) -> u32
    requires { Small b × (index < 10) }
    ensures { (result ≡ code_in b (d_slot index)) × (result < 32_768) }
{
    let k = block::D + index;
    block::code_in(b, k)
}

// A G84 block as a cycle.
pub fn turning_of(b: Block, s: Sending) -> Turning
    requires { Small b }
    ensures { result ≡ turning_of b s }
{
    let x = Axis {
        start: s.x,
        target: s.x_target,
        allowance: 2 * d_word(b, 0),
    };
    let z = Axis {
        start: s.z,
        target: s.z_target,
        allowance: d_word(b, 2),
    };
    let d3 = d_word(b, 3);
    if is_facing(b) {
        return Turning {
            facing: true,
            infeed: z,
            path: x,
            division: d3,
            f: s.f,
            g95: s.g95,
        };
    }
    Turning {
        facing: false,
        infeed: x,
        path: z,
        division: 2 * d3,
        f: s.f,
        g95: s.g95,
    }
}

// "Empty cuts repeat the last pass D4 times, else as a new setting says": a D4 of 0 is no empty cut.
#[tactic(auto, unfolding(crate::specs::Scaled::empty_cuts))]
fn empty_cuts(b: Block, setting: u32) -> u32
    requires { Small b }
    ensures { result ≡ empty_cuts b setting }
{
    if block::has(b, block::d_slot(4)) {
        return d_word(b, 4);
    }
    setting
}

// A G85 block as a thread.
pub fn thread_of(b: Block, s: Sending) -> Thread
    requires { Small b }
    ensures { result ≡ thread_of b s }
{
    let x = Axis {
        start: s.x,
        target: s.x_target,
        allowance: 0,
    };
    let z = Axis {
        start: s.z,
        target: s.z_target,
        allowance: 0,
    };
    let d3 = d_word(b, 3);
    let d6 = d_word(b, 6);
    let d7 = d_word(b, 7);
    let empty = empty_cuts(b, s.empty_cuts);
    let rule = threading::rule_of(d7);
    let nominal = threading::is_nominal(d7);
    if is_facing(b) {
        return Thread {
            facing: true,
            infeed: z,
            path: x,
            rule,
            nominal,
            d3,
            d6,
            empty,
            pitch: s.f,
        };
    }
    Thread {
        facing: false,
        infeed: x,
        path: z,
        rule,
        nominal,
        d3,
        d6,
        empty,
        pitch: s.f,
    }
}

// A G86 block as a groove.
pub fn groove_of(b: Block, s: Sending) -> Groove
    requires { Small b × (s.retract < 32_768) }
    ensures { result ≡ groove_of b s }
{
    let x = Way {
        start: s.x,
        target: s.x_target,
    };
    let z = Way {
        start: s.z,
        target: s.z_target,
    };
    let d3 = d_word(b, 3);
    let d4 = d_word(b, 4);
    let d5 = d_word(b, 5);
    let retract = s.retract;
    if is_facing(b) {
        return Groove {
            facing: true,
            depth: z,
            width: x,
            tool: 2 * d5,
            overlap: 2 * OVERLAP,
            piece: d3,
            back: retract,
            dwell: d4,
            f: s.f,
            g95: s.g95,
        };
    }
    Groove {
        facing: false,
        depth: x,
        width: z,
        tool: d5,
        overlap: OVERLAP,
        piece: 2 * d3,
        back: 2 * retract,
        dwell: d4,
        f: s.f,
        g95: s.g95,
    }
}

// A G87 block as a bore, or, where `full`, a G88 block.
pub fn bore_of(full: bool, b: Block, s: Sending) -> Bore
    requires { Small b }
    ensures { result ≡ bore_of full b s }
{
    let first = d_word(b, 3);
    let dwell = d_word(b, 4);
    let less = d_word(b, 5);
    let least = d_word(b, 6);
    Bore {
        full,
        x: s.x,
        start: s.z,
        target: s.z_target,
        first,
        less,
        least,
        dwell,
        back: s.retract,
        f: s.f,
        g95: s.g95,
    }
}
