// The cuts of a thread that are left, in words: a tag, and the pieces of a division or a falling cut.
ghost use Rattle.std.specs.Prelude.{◌≡◌, ◌+◌, ◌≤◌, length};
ghost use Rattle.cells.specs.Numbers.{at};
ghost use Rattle.cyclewords.specs.Threaded.{cuts_words, falling_at, cuts_at};
ghost use Rattle.cuts.specs.declared.Cuts.TheVariants.{Even};

use cuts::{Cuts, Falling};
use division::Pieces;

pub const COUNT: usize = 8;

const EVEN: u32 = 0;

const BY_DEPTH: u32 = 1;

const BY_NUMBER: u32 = 2;

fn even_words(p: Pieces) -> [u32; COUNT]
    ensures { cuts_at result 0 ≡ Even p }
{
    [EVEN, p.piece, p.remainder, p.left, 0, 0, 0, 0]
}

fn falling_words(tag: u32, f: Falling) -> [u32; COUNT]
    ensures { (at result 0 ≡ tag) × (falling_at result 1 ≡ f) }
{
    let square_low = cells::figures::low_word(f.square);
    let square_high = cells::figures::high_word(f.square);
    let sum_low = cells::figures::low_word(f.sum);
    let sum_high = cells::figures::high_word(f.sum);
    [
        tag,
        f.d3,
        f.d6,
        square_low,
        square_high,
        sum_low,
        sum_high,
        f.left,
    ]
}

pub fn words_of(c: Cuts) -> [u32; COUNT]
    ensures { cuts_at result 0 ≡ c }
{
    match c {
        Cuts::Even(p) => even_words(p),
        Cuts::ByDepth(f) => falling_words(BY_DEPTH, f),
        Cuts::ByNumber(f) => falling_words(BY_NUMBER, f),
    }
}

fn falling_at(w: &[u32], at: usize) -> Falling
    requires { at + 7 ≤ length w.now }
    ensures { result ≡ falling_at w.now at }
{
    Falling {
        d3: w[at],
        d6: w[at + 1],
        square: cells::figures::wide_at(w, at + 2),
        sum: cells::figures::wide_at(w, at + 4),
        left: w[at + 6],
    }
}

pub fn cuts_at(w: &[u32], at: usize) -> Cuts
    requires { at + cuts_words ≤ length w.now }
    ensures { result ≡ cuts_at w.now at }
{
    let tag = w[at];
    if tag == EVEN {
        return Cuts::Even(cells::figures::pieces_at(w, at + 1));
    }
    let falling = falling_at(w, at + 1);
    if tag == BY_DEPTH {
        return Cuts::ByDepth(falling);
    }
    Cuts::ByNumber(falling)
}
