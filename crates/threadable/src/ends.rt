// Where the cuts that are left end, and whether they get there: asked without going along them.
ghost use Rattle.std.specs.Prelude.{◌≡◌, true, ◌<◌};
ghost use Rattle.cuts.specs.Cuts.{Summed, Sound};
ghost use Rattle.threadable.specs.Ends.{only_last, deepest, Rising};

use cuts::{Cuts, Falling};

// The first number that 32 bits do not hold.
const BEYOND_32: u64 = 4_294_967_296;

// Whether what falling cuts add up to fits. A quotient asks it, so that no product and no sum is made that could wrap.
fn squares_fit(f: Falling) -> bool
    ensures sound { result ≡ true → Summed f }
    ensures all { Summed f → result ≡ true }
{
    if f.square == 0 {
        return true;
    }
    u64::from(f.left) <= (u64::MAX - f.sum) / f.square
}

// Whether what the cuts add up to fits, so that each of them can be asked for.
pub fn sum_fits(depth: u32, c: Cuts) -> bool
    ensures sound { result ≡ true → Sound depth c }
    ensures all { Sound depth c → result ≡ true }
{
    match c {
        Cuts::Even(p) => totals::total(p) < BEYOND_32 - u64::from(depth),
        Cuts::ByDepth(f) => squares_fit(f),
        Cuts::ByNumber(f) => (f.d3 > 0) & squares_fit(f),
    }
}

// Whether no depth falls. Behind the first none can: a root never does.
pub fn is_rising(depth: u32, c: Cuts) -> bool
    requires { Sound depth c }
    ensures sound { result ≡ true → Rising depth c }
    ensures all { Rising depth c → result ≡ true }
{
    if cuts::is_over(c) {
        return true;
    }
    let next = cuts::next(depth, c);
    depth <= next.depth
}

// Falling cuts with the last of them alone left.
#[tactic(auto, using(crate::proofs::Endings::others_fit))]
fn only_last(f: Falling) -> Falling
    requires { Summed f × (0 < f.left) }
    ensures { result ≡ only_last f }
{
    Falling {
        sum: f.sum + u64::from(f.left - 1) * f.square,
        left: 1,
        ..f
    }
}

// The depth of the last cut, and where none is left the depth that was reached.
pub fn deepest_of(depth: u32, c: Cuts) -> u32
    requires { Sound depth c }
    ensures { result ≡ deepest depth c }
{
    if cuts::is_over(c) {
        return depth;
    }
    match c {
        Cuts::Even(p) => depth + (totals::total(p) as u32),
        Cuts::ByDepth(f) => {
            let last = only_last(f);
            let handed = cuts::next(depth, Cuts::ByDepth(last));
            handed.depth
        }
        Cuts::ByNumber(f) => {
            let last = only_last(f);
            let handed = cuts::next(depth, Cuts::ByNumber(last));
            handed.depth
        }
    }
}
