// Roots of whole numbers, compared by squares.
ghost use Rattle.std.specs.Prelude.{◌≡◌, ◌≤◌, min, nat_abs};
ghost use Rattle.arrows.specs.Arrows.{exceeds, root_up_to, root_from};
ghost use Rattle.arrows.specs.Known.{greatest_part, start_square, end_square};

// 10 micrometres, in half micrometres.
const SLACK: u64 = 20;

// What a square is above another by where its root is above the other's by more than 10 micrometres, whatever the other is; its own square fits 64 bits.
const SURELY: u64 = 4_000_000_000;

// Whether the root of m is above that of n by more than 10 micrometres: bound first, then square.
pub fn too_long(m: u64, n: u64) -> bool
    requires n_bound { min m n ≤ start_square }
    requires n_le_end_square { n ≤ end_square }
    ensures { result ≡ exceeds m n }
{
    if m <= n + SLACK * SLACK {
        return false;
    }
    let above = m - (n + SLACK * SLACK);
    if SURELY < above {
        return true;
    }
    4 * (SLACK * SLACK) * n < above * above
}

// Whether the root of n is at most t.
pub fn root_at_most(n: u64, t: i64) -> bool
    requires { nat_abs t ≤ greatest_part }
    ensures { result ≡ root_up_to n t }
{
    (0 <= t) & (n <= crate::squared(t))
}

// Whether it is at least t.
pub fn root_at_least(n: u64, t: i64) -> bool
    requires { nat_abs t ≤ greatest_part }
    ensures { result ≡ root_from n t }
{
    (t <= 0) | (crate::squared(t) <= n)
}
