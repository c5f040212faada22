// The depths of a thread's cuts, per side and from the crest: constant or falling, D3 being a depth or the number of cuts, and how many cuts reach D6. (02, request 1.)
// They know nothing of lines and records; those are the threading cycle's. No cut is made for the count: it costs the same for one and for a thousand million. `cuts` opens them.
#![tactic(auto)]

ghost use Rattle.std.specs.Prelude.{◌≡◌, ◌≤◌};
ghost use Rattle.depths.specs.declared.Rule.TheVariants.{FallingDepth};
ghost use Rattle.depths.specs.Depths.{greatest_d, cut_count, Proper};

// Constant or falling, and whether D3 is the depth of a cut or the number of cuts.
#[derive(Clone, Copy)]
pub enum Rule {
    EvenDepth,
    EvenNumber,
    FallingDepth,
    FallingNumber,
}

// How many squares of `d3` make the square of `d6`, rounded up.
fn squares_in(d3: u32, d6: u32) -> u32
    requires { Proper FallingDepth d3 d6 × (d3 ≤ greatest_d) × (d6 ≤ greatest_d) }
    ensures { result ≡ cut_count FallingDepth d3 d6 }
{
    division::piece_count(d6 * d6, d3 * d3)
}

// How many cuts the thread has.
pub fn cut_count(rule: Rule, d3: u32, d6: u32) -> u32
    requires { Proper rule d3 d6 × (d3 ≤ greatest_d) × (d6 ≤ greatest_d) }
    ensures { result ≡ cut_count rule d3 d6 }
{
    match rule {
        Rule::EvenDepth => division::piece_count(d6, d3),
        Rule::EvenNumber => d3,
        Rule::FallingDepth => squares_in(d3, d6),
        Rule::FallingNumber => d3,
    }
}
