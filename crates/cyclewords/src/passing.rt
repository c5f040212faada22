// Which record of a pass comes next, in a word: of a turning cycle and of a thread.
ghost use Rattle.std.specs.Prelude.{◌≡◌};
ghost use Rattle.cyclewords.specs.Passing.{stage_of};

use axes::Stage;

const IN: u32 = 0;

const CUT: u32 = 1;

const OUT: u32 = 2;

const BACK: u32 = 3;

pub fn stage_word(stage: Stage) -> u32
    ensures { stage_of result ≡ stage }
{
    match stage {
        Stage::In => IN,
        Stage::Cut => CUT,
        Stage::Out => OUT,
        Stage::Back => BACK,
    }
}

pub fn stage_of(u: u32) -> Stage
    ensures { result ≡ stage_of u }
{
    match u {
        IN => Stage::In,
        CUT => Stage::Cut,
        OUT => Stage::Out,
        _ => Stage::Back,
    }
}
