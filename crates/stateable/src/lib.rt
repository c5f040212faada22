// Whether a machine's state that comes back from a caller is one that a block can run on: a caller may have changed it.
// Every state from which a run starts, or which a block leaves behind, passes.
#![tactic(auto)]

ghost use Rattle.std.specs.Prelude.{◌≡◌, true};
ghost use Rattle.acts.specs.Acting.{keep};
ghost use Rattle.acts.specs.declared.Kept.TheVariants.{Nothing};
ghost use Rattle.state.specs.Known.{Numbers, Sound};

use acts::Kept;
use state::State;
use whole::position::Position;

// The shifts and the tool corrections that the table has.
const SHIFTS: u32 = 5;

const CORRECTIONS: u32 = 99;

// Whether a motion is kept from block to block, or there is none: what is for its block only leaves nothing behind.
fn is_kept(motion: Kept) -> bool
    ensures sound { result ≡ true → keep motion Nothing ≡ motion }
    ensures all { keep motion Nothing ≡ motion → result ≡ true }
{
    let behind = acts::keep_of(motion, Kept::Nothing);
    match motion {
        Kept::Nothing => true,
        Kept::Of(_) => match behind {
            Kept::Nothing => false,
            Kept::Of(_) => true,
        },
    }
}

// Whether the table has the shifts and the correction.
fn has_numbers(s: State) -> bool
    ensures sound { result ≡ true → Numbers s }
    ensures all { Numbers s → result ≡ true }
{
    if SHIFTS < s.shift_group3 {
        return false;
    }
    if SHIFTS < s.shift_group5 {
        return false;
    }
    s.correction <= CORRECTIONS
}

// Whether a state is sound: true of each that is, and of no other.
pub fn is_fit(s: State) -> bool
    ensures sound { result ≡ true → Sound s }
    ensures all { Sound s → result ≡ true }
{
    let motion = s.motion;
    if !is_kept(motion) {
        return false;
    }
    if !has_numbers(s) {
        return false;
    }
    if !Position::in_table(s.x) {
        return false;
    }
    Position::in_table(s.z)
}
