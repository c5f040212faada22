// The drilling cycles G87 and G88, as their block gives them: their stroke and bites (alarm 19), where their moves reach (18), how many records they have (20), and the records. (02, request 9.)
// Both go in along Z by the same bites; they differ in what lies between two of them.
// No function here hands out a record. Bites are walked only up to the one that repeats itself, at most 634 of them where the first is a D word; from there on they are divided.
#![tactic(auto)]

ghost use Rattle.std.specs.Prelude.{◌≡◌, false, cond, eqb, length};
ghost use Rattle.axes.specs.Limits.{any_outside};
ghost use Rattle.drilling.specs.Drilling.{stroke_of, wrong, bite_count, drilling};

use settings::Limits;

// `full` is G88, which goes to the start between bites; `x` is where the tool stands on X, `start` and `target` are Z. `first` is the first bite, 0 for one bite in all; each next one is
// `less` percent smaller than the one before, and no smaller than `least`; `dwell` is in tenths of a second, 0 for none; `back` is the retract; `f` and `g95` are those of the feeds.
#[derive(Clone, Copy)]
pub struct Bore {
    pub full: bool,
    pub x: i32,
    pub start: i32,
    pub target: i32,
    pub first: u32,
    pub less: u32,
    pub least: u32,
    pub dwell: u32,
    pub back: u32,
    pub f: u32,
    pub g95: bool,
}

// The distance from start to target.
pub fn stroke_of(b: Bore) -> u32
    ensures { result ≡ stroke_of b }
{
    let start = b.start;
    let target = b.target;
    whole::distance(target, start)
}

// Whether a bore is refused (alarm 19): a percentage above 100, no stroke, or a bite of 0 before the target.
pub fn is_wrong(b: Bore) -> bool
    ensures { result ≡ wrong b }
{
    let stroke = stroke_of(b);
    if 100 < b.less {
        return true;
    }
    if stroke == 0 {
        return true;
    }
    if b.first == 0 {
        return false;
    }
    bites::has_zero(b.first, b.less, b.least, stroke)
}

// How many bites it has. It was not refused (alarm 19).
pub fn bite_count(b: Bore) -> u32
    requires { wrong b ≡ false }
    ensures { result ≡ bite_count b }
{
    let stroke = stroke_of(b);
    if b.first == 0 {
        return 1;
    }
    bites::bite_count(b.first, b.less, b.least, stroke)
}

// One where there is a dwell.
fn dwell_count(tenths: u32) -> u64
    ensures { result ≡ cond (eqb tenths 0) 0 1 }
{
    if tenths == 0 {
        return 0;
    }
    1
}

// How many records the cycle has (alarm 20). It was not refused (19).
pub fn record_count(b: Bore) -> u64
    requires { wrong b ≡ false }
    ensures { result ≡ length (drilling b) }
{
    let n = bite_count(b) as u64;
    let tail = dwell_count(b.dwell) + 1;
    if b.full {
        return n + (2 * (n - 1) + tail);
    }
    n + ((n - 1) + tail)
}

// Whether a move of the cycle ends outside the limits (alarm 18), asked at its two extreme points: the start and the target.
pub fn ends_outside(b: Bore, l: Limits) -> bool
    requires { wrong b ≡ false }
    ensures { result ≡ any_outside l (drilling b) }
{
    let x = b.x;
    let start = b.start;
    let target = b.target;
    let at_start = settings::is_outside(l, x, start);
    at_start | settings::is_outside(l, x, target)
}
