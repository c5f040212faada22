// What the pieces that are left of a division add up to, whoever made them. It costs the same for one piece and for thousands of millions: none is handed out for it.
#![tactic(auto)]

ghost use Rattle.std.specs.Prelude.{◌≡◌};
ghost use Rattle.division.specs.Division.{sum};
ghost use Rattle.division.specs.Carried.{row_of};

use division::Pieces;

// All pieces together: each of them, and one for each that is longer, which are as many as the remainder, as far as there are pieces.
#[tactic(auto, using(crate::proofs::Sums::row_sum))]
pub fn total(p: Pieces) -> u64
    ensures { result ≡ sum (row_of p) }
{
    let longer = p.remainder.min(p.left);
    u64::from(p.piece) * u64::from(p.left) + u64::from(longer)
}
