// A block, judged: its words act, its deed is worked out, and its alarm is asked for, in the paper's order 15, 16, 17, 19, 18, 20. Nothing is written, and no buffer is lent.
// (01: "A block's own G and T words act before its move"; "then blocks as run: .. 15, 16, 17, 19, 18, 20".)
#![tactic(auto)]

ghost use Rattle.std.specs.Prelude.{◌≡◌};
ghost use Rattle.block.specs.Worded.{Worded};
ghost use Rattle.state.specs.Modal.{settled};
ghost use Rattle.state.specs.Known.{Sound};
ghost use Rattle.settings.specs.Known.{Table, InRange};
ghost use Rattle.deeds.specs.Known.{Known};
ghost use Rattle.verdicts.specs.Known as verdict;
ghost use Rattle.verdicts.specs.Verdicts.{sending_of, deed_in, asked_in, verdict_of};

use asking::Asked;
use block::Block;
use deeds::Deed;
use scaling::Sending;
use settings::Settings;
use state::State;

// A block that may be done: the state that its words have settled, its deed, and how many records the deed has.
#[derive(Clone, Copy)]
pub struct Going {
    pub settled: State,
    pub deed: Deed,
    pub count: u64,
}

// A refusal is its alarm's number.
#[derive(Clone, Copy)]
pub enum Verdict {
    Refused(u8),
    Goes(Going),
}

// Where a block sends the axes. `t` is the state with the block's words acted.
fn sending_of(table: &[i32], set: Settings, s: State, t: State, b: Block) -> Sending
    requires { Table table.now × Sound s × Worded b × (t ≡ settled s b) }
    ensures { result ≡ sending_of table.now set s b }
{
    let offset = targets::offset_of(table, t);
    Sending {
        x: t.x,
        z: t.z,
        x_target: targets::target_x(t, b, offset.x),
        z_target: targets::target_z(t, b, offset.z),
        f: t.f,
        g95: t.g95,
        retract: set.retract,
        empty_cuts: set.empty_cuts,
    }
}

// The deed of a block.
fn deed_in(table: &[i32], set: Settings, s: State, t: State, b: Block) -> Deed
    requires { Table table.now × InRange set × Sound s × Worded b × (t ≡ settled s b) }
    ensures { (result ≡ deed_in table.now set s b) × Known result }
{
    let before = s.motion;
    let motion = state::block_motion(before, b);
    let sending = sending_of(table, set, s, t, b);
    deeds::deed_of(motion, b, sending)
}

// What is asked beside the deed, where so many records have room.
#[tactic(auto, unfolding(crate::specs::Verdicts::asked_in))]
fn asked_in(s: State, t: State, b: Block, room: u32) -> Asked
    requires { t ≡ settled s b }
    ensures { result ≡ asked_in s b room }
{
    let other_count = writing::other_count(b);
    Asked {
        rapid_due: t.rapid_due,
        f: t.f,
        other_count,
        room_left: room,
    }
}

// The verdict on a block, where so many records may still be written. Whoever asks has judged the settings and the table (alarm 1), and has read the block.
pub fn judge_block(table: &[i32], set: Settings, s: State, b: Block, room: u32) -> Verdict
    requires { Table table.now × InRange set × Sound s × Worded b }
    ensures { (result ≡ verdict_of table.now set s b room) × verdict.Known result }
{
    let settled = state::settle(s, b);
    let deed = deed_in(table, set, s, settled, b);
    let limits = set.limits;
    let asks = asking::asks_of(deed, limits);
    let asked = asked_in(s, settled, b, room);
    let alarm = asking::alarm_of(asks, asked);
    if alarm != 0 {
        return Verdict::Refused(alarm);
    }
    Verdict::Goes(Going {
        settled,
        deed,
        count: asks.count,
    })
}
