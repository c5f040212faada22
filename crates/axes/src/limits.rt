// Whether a place that a cycle names, by the axis that goes in and the one across it, lies outside the soft limits (alarm 18).
ghost use Rattle.std.specs.Prelude.{◌≡◌};
ghost use Rattle.axes.specs.Limits.{outside_to};

use settings::Limits;

pub fn is_outside_to(l: Limits, facing: bool, inward: i32, across: i32) -> bool
    ensures { result ≡ outside_to l facing inward across }
{
    if facing {
        return settings::is_outside(l, across, inward);
    }
    settings::is_outside(l, inward, across)
}
