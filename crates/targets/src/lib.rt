// Offsets and targets: where a block's path words send the axes. (01: "Offset = shift of group 3 + shift of group 5 + tool correction"; "Target of X or Z = word + offset. Target of U
// or W = present machine position + word (U doubled). An axis without a word stays at its machine position".)
#![tactic(auto)]

ghost use Rattle.std.specs.Prelude.{◌≡◌, ◌≤◌};
ghost use Rattle.targets.specs.Target.{pair_of, correction_pair, offset_of, target_x, target_z};
ghost use Rattle.settings.specs.Known.{Table};
ghost use Rattle.state.specs.Known.{place_or, Numbers, Sent};

use block::Block;
use state::State;
use whole::position::{Placed, Position};

// A pair of the offset table.
#[derive(Clone, Copy)]
pub struct Pair {
    pub x: i32,
    pub z: i32,
}

// Pair i of the table, from 1; none for 0. The shifts are pairs 1 to 5, the tool corrections 1 to 99 are pairs 6 to 104.
fn pair_of(table: &[i32], i: usize) -> Pair
    requires { Table table.now × (i ≤ 104) }
    ensures { result ≡ pair_of table.now i }
{
    if i == 0 {
        return Pair { x: 0, z: 0 };
    }
    let at = 2 * (i - 1);
    Pair {
        x: table[at],
        z: table[at + 1],
    }
}

// The pair number of a tool correction.
#[tactic(auto, unfolding(crate::specs::Target::correction_pair))]
fn correction_pair(correction: u32) -> usize
    requires { correction ≤ 99 }
    ensures { result ≡ correction_pair correction }
{
    if correction == 0 {
        return 0;
    }
    correction as usize + 5
}

// The offset in force.
pub fn offset_of(table: &[i32], s: State) -> Pair
    requires { Table table.now × Numbers s }
    ensures { result ≡ offset_of table.now s }
{
    let first = pair_of(table, s.shift_group3 as usize);
    let second = pair_of(table, s.shift_group5 as usize);
    let tool = pair_of(table, correction_pair(s.correction));
    let x = first.x + second.x + tool.x;
    let z = first.z + second.z + tool.z;
    Pair { x, z }
}

// The position that was placed. A lawful word is never sent outside, so the present position is never asked for.
fn place_or(placed: Placed, present: i32) -> i32
    ensures { result ≡ place_or placed present }
{
    match placed {
        Placed::At(p) => p.um,
        Placed::Outside => present,
    }
}

// Where a block sends the X axis.
pub fn target_x(s: State, b: Block, offset: i32) -> i32
    requires { Sent s b offset }
    ensures { result ≡ target_x s b offset }
{
    let x = s.x;
    if block::has(b, block::X) {
        return place_or(Position::from_x_word(b.value[block::X], offset), x);
    }
    if block::has(b, block::U) {
        return place_or(Position::moved_by_u(x, b.value[block::U]), x);
    }
    x
}

// Where a block sends the Z axis.
pub fn target_z(s: State, b: Block, offset: i32) -> i32
    requires { Sent s b offset }
    ensures { result ≡ target_z s b offset }
{
    let z = s.z;
    if block::has(b, block::Z) {
        return place_or(Position::from_z_word(b.value[block::Z], offset), z);
    }
    if block::has(b, block::W) {
        return place_or(Position::moved_by_w(z, b.value[block::W]), z);
    }
    z
}
