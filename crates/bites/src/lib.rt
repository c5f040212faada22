// The bites of a bore, counted and not walked: a bite gets smaller for a while and then repeats itself, and from there on the rest is a division.
#![tactic(auto)]

ghost use Rattle.std.specs.Prelude.{◌≡◌, false, ◌+◌, ◌≤◌, ◌<◌, length};
ghost use Rattle.bites.specs.Bites.{next_bite, biting, has_zero};
ghost use Rattle.bites.specs.Falls.{Falls};

// The bite behind a bite.
pub fn next_bite(bite: u32, less: u32, least: u32) -> u32
    requires { less ≤ 100 }
    ensures { result ≡ next_bite less least bite }
{
    let part = ((bite as u64) * ((100 - less) as u64) / 100) as u32;
    if part < least {
        return least;
    }
    part
}

// So many bites are behind; `bite` comes next and repeats itself, or makes the last; `left` is what is left.
#[derive(Clone, Copy)]
struct Fallen {
    pub bites: u32,
    pub bite: u32,
    pub left: u32,
}

// Walks the bites up to the one that repeats itself: one turn for each bite that is counted here.
fn fall(first: u32, less: u32, least: u32, stroke: u32) -> Fallen
    requires { (less ≤ 100) × (0 < first) × (0 < stroke) }
    ensures { Falls less least first stroke result }
{
    let mut bites: u32 = 0;
    let mut bite = first;
    let mut next = next_bite(first, less, least);
    let mut left = stroke;
    while (bite < left) & (next != bite) {
        left -= bite;
        bite = next;
        next = next_bite(bite, less, least);
        bites += 1;
    }
    Fallen { bites, bite, left }
}

// Whether a bite is 0 before the target.
pub fn has_zero(first: u32, less: u32, least: u32, stroke: u32) -> bool
    requires { (less ≤ 100) × (0 < first) × (0 < stroke) }
    ensures { result ≡ has_zero (biting less least first stroke stroke) }
{
    let end = fall(first, less, least, stroke);
    end.bite == 0
}

// How many bites there are.
pub fn bite_count(first: u32, less: u32, least: u32, stroke: u32) -> u32
    requires { (less ≤ 100) × (0 < first) × (0 < stroke) × (has_zero (biting less least first stroke stroke) ≡ false) }
    ensures { result ≡ length (biting less least first stroke stroke) }
{
    let end = fall(first, less, least, stroke);
    let bites = end.bites;
    let bite = end.bite;
    let left = end.left;
    bites + division::piece_count(left, bite)
}
