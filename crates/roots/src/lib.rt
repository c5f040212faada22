// The whole part of a square root, bit by bit from the top: at most 32 rounds, and 16 for a number of 32 bits. A round has one product and no quotient.
#![tactic(auto)]

ghost use Rattle.std.specs.Prelude.{◌≡◌, ◌*◌, ◌≤◌, ◌<◌, ◌^◌};
ghost use Rattle.roots.specs.Roots.{IsRoot, root};

// The first numbers that 16 bits and 32 bits do not hold.
const BEYOND_16: u64 = 65_536;

const BEYOND_32: u64 = 4_294_967_296;

// The root of a number whose root has so many bits; `width` is the first number that they do not hold.
fn root_within(n: u64, bits: u32, width: u64) -> u64
    requires { (bits ≤ 32) × (width ≡ 2 ^ bits) × (n < width * width) }
    ensures { IsRoot n result }
{
    let mut low: u64 = 0;
    let mut left = bits;
    let mut gap = width;
    // the root lies from `low` on and before `low + gap`; `gap` has `left` bits
    while left > 0 {
        gap /= 2;
        left -= 1;
        let middle = low + gap;
        if middle * middle <= n {
            low = middle;
        }
    }
    low
}

// The whole part of the square root.
pub fn root_of(n: u64) -> u32
    ensures { result ≡ root n }
{
    if n < BEYOND_32 {
        return root_within(n, 16, BEYOND_16) as u32;
    }
    root_within(n, 32, BEYOND_32) as u32
}
