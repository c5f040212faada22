// The records of a block in their order, how many they are, and the state after it. (01: "Records of a block, in order: speed if S, tool if T, M of group 0, M of group 3, motion or dwell, then
// M00 or M30. M17 gives none.") `handing` hands them out one after the other, and `putting` writes them.
#![tactic(auto)]

ghost use Rattle.std.specs.Prelude.{◌≡◌, ◌≤◌};
ghost use Rattle.writing.specs.Writes.{moved, done, stops, other_count};

use block::Block;
use deeds::Deed;
use state::State;

// The groups of the M words: M03 M04 M05; M08 M09; M00 M17 M30.
const SPINDLE: usize = block::SPINDLE;

const COOLANT: usize = block::COOLANT;

const FLOW: usize = block::FLOW;

// A state that stands elsewhere.
#[tactic(auto, unfolding(crate::specs::Writes::moved))]
fn moved(s: State, due: bool, x: i32, z: i32) -> State
    ensures { result ≡ moved s due x z }
{
    State {
        rapid_due: due,
        x,
        z,
        ..s
    }
}

// The state after a deed: a move and an arc end at their target, a cycle where it began; after a G00 none is due.
pub fn done_of(s: State, d: Deed) -> State
    ensures { result ≡ done s d }
{
    match d {
        Deed::Nothing => s,
        Deed::Nowhere => s,
        Deed::Dwell(_) => s,
        Deed::Straight(m) => {
            let goes = m.goes;
            let due = s.rapid_due & !m.rapid;
            moved(s, due, goes.x, goes.z)
        }
        Deed::Round(r) => {
            let arc = r.arc;
            let end = arc.end;
            moved(s, s.rapid_due, end.x, end.z)
        }
        Deed::Cycle(_) => s,
    }
}

// Whether there is an M00 or an M30.
pub fn stops(b: Block) -> bool
    ensures { result ≡ stops b }
{
    let code = block::m_in(b, FLOW);
    block::has(b, FLOW) & !acts::returns_by(code)
}

// How many records a block has beside its deed's.
#[tactic(auto, unfolding(crate::specs::Writes::other_count))]
pub fn other_count(b: Block) -> u32
    ensures { (result ≡ other_count b) × (result ≤ 5) }
{
    let speed = u32::from(block::has(b, block::S));
    let tool = u32::from(block::has(b, block::T));
    let spindle = u32::from(block::has(b, SPINDLE));
    let coolant = u32::from(block::has(b, COOLANT));
    let stop = u32::from(stops(b));
    speed + tool + (spindle + coolant) + stop
}
