// Whether a step of a length to a side ends where 32 bits hold it. It is asked of a step that comes from outside, before `whole::step` takes it.
#![tactic(auto)]

ghost use Rattle.std.specs.Prelude.{◌≡◌, true, ◌+ℤ◌};
ghost use Rattle.std.specs.Int.{w32};
ghost use Rattle.std.proofs.Common.{SFits};
ghost use Rattle.whole.specs.Signed.{along};

use whole::Side;

// No sum is made that could wrap.
pub fn ends_within(from: i32, side: Side, by: u32) -> bool
    ensures sound { result ≡ true → SFits w32 (from +ℤ along side by) }
    ensures all { SFits w32 (from +ℤ along side by) → result ≡ true }
{
    match side {
        Side::Plus => from.checked_add_unsigned(by).is_some(),
        Side::Minus => from.checked_sub_unsigned(by).is_some(),
        Side::Zero => true,
    }
}
