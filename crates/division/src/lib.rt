// The even division of a length. (01: "Dividing a length".) A length and a greatest piece give the count, and the count the pieces.
// A quotient and a remainder are worked out once; the pieces are then handed out one after the other, and the remainder is carried along.
#![tactic(auto)]

ghost use Rattle.std.specs.Prelude.{◌≡◌, [], ◌∷◌, ◌<◌, ◌^◌};
ghost use Rattle.division.specs.Division.{count, pieces, sum};
ghost use Rattle.division.specs.Carried.{row_of};

// The pieces that are left: `left` of them, each `piece` long, and one longer while there is a `remainder`, of which it takes one.
#[derive(Clone, Copy)]
pub struct Pieces {
    pub piece: u32,
    pub remainder: u32,
    pub left: u32,
}

// A piece that was handed out, and the pieces that are left behind it.
#[derive(Clone, Copy)]
pub struct HandedOut {
    pub piece: u32,
    pub rest: Pieces,
}

// How many pieces of at most `greatest` a length takes. A division of nothing, or by 0, cannot be asked for.
#[tactic(auto, using(crate::proofs::Divisions::ceil_is))]
pub fn piece_count(length: u32, greatest: u32) -> u32
    requires { (0 < length) × (0 < greatest) }
    ensures { result ≡ count length greatest }
{
    length.div_ceil(greatest)
}

// A length in n pieces: the one quotient and the one remainder of a division.
#[tactic(auto, using(crate::proofs::Carrying::divided_row))]
pub fn divide(length: u32, n: u32) -> Pieces
    requires { 0 < n }
    ensures { row_of result ≡ pieces length n }
{
    Pieces {
        piece: length / n,
        remainder: length % n,
        left: n,
    }
}

// Nothing to divide has no pieces.
#[tactic(auto, unfolding(crate::specs::Carried::row_of, crate::specs::Carried::carried))]
pub fn divide_nothing() -> Pieces
    ensures { row_of result ≡ [] }
{
    Pieces {
        piece: 0,
        remainder: 0,
        left: 0,
    }
}

// The next piece: a longer one while some of the remainder is left, then the shorter.
#[tactic(auto, using(crate::proofs::Carrying::shorter_first, crate::proofs::Carrying::longer_first, crate::proofs::Carrying::longer_fits))]
pub fn hand_out(p: Pieces) -> HandedOut
    requires { (0 < p.left) × (sum (row_of p) < 2 ^ 32) }
    ensures { row_of p ≡ result.piece ∷ row_of result.rest }
{
    let left = p.left - 1;
    if p.remainder == 0 {
        let rest = Pieces { left, ..p };
        return HandedOut {
            piece: p.piece,
            rest,
        };
    }
    let remainder = p.remainder - 1;
    let rest = Pieces {
        remainder,
        left,
        ..p
    };
    HandedOut {
        piece: p.piece + 1,
        rest,
    }
}
