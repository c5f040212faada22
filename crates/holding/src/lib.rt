// What is in hand of a block that was opened: a record and those behind it, or nothing. (02, request 12: "hands out the next record".)
// It comes from the block's own cursor, as what the list engine writes does.
#![tactic(auto)]

ghost use Rattle.std.specs.Prelude.{◌≡◌, ◌∷◌};
ghost use Rattle.taking.specs.declared.Hand.TheVariants.{Block};
ghost use Rattle.taking.specs.Hands.{in_hand, HandSound};
ghost use Rattle.holding.specs.Held.{Held};

use moves::{Listed, Origin};
pub use taking;
use taking::stages::Cursor;
use taking::{Hand, handing};

// A record, and what is in hand behind it.
#[derive(Clone, Copy)]
pub struct Taken {
    pub listed: Listed,
    pub rest: Hand,
}

// What is in hand, or nothing where no record is left of it.
pub fn held(hand: Hand) -> Hand
    requires { HandSound hand }
    ensures { (in_hand result ≡ in_hand hand) × Held result }
{
    match hand {
        Hand::Nothing => hand,
        Hand::Block(c, _) => {
            let plan = c.plan;
            let due = c.due;
            if handing::is_over(plan, due) {
                return Hand::Nothing;
            }
            hand
        }
    }
}

// The next record of a block that has one.
pub fn take_record(c: Cursor, origin: Origin) -> Taken
    requires { Held (Block c origin) }
    ensures { (in_hand (Block c origin) ≡ result.listed ∷ in_hand result.rest) × Held result.rest }
{
    let plan = c.plan;
    let due = c.due;
    let handed = handing::next(plan, due);
    let what = handed.record;
    let behind = handed.rest;
    let listed = Listed { what, origin };
    if handing::is_over(plan, behind) {
        return Taken {
            listed,
            rest: Hand::Nothing,
        };
    }
    let rest = Cursor { plan, due: behind };
    Taken {
        listed,
        rest: Hand::Block(rest, origin),
    }
}
