// What comes next of a groove that is opened.
ghost use Rattle.std.specs.Prelude.{◌≡◌};
ghost use Rattle.plunges.specs.Cursor.{before_cut, before_cut_and_back, before_dwell};

use crate::{Cursor, Stage};

// Whether a cut comes next, or nothing.
pub fn is_before_cut(c: Cursor) -> bool
    ensures { result ≡ before_cut c }
{
    let stage = c.stage;
    match stage {
        Stage::Cut => true,
        Stage::Back => false,
        Stage::Dwell => false,
        Stage::Out => false,
        Stage::Across => false,
        Stage::Over => true,
    }
}

// Whether the dwell comes next.
pub fn is_before_dwell(c: Cursor) -> bool
    ensures { result ≡ before_dwell c }
{
    let stage = c.stage;
    match stage {
        Stage::Cut => false,
        Stage::Back => false,
        Stage::Dwell => true,
        Stage::Out => false,
        Stage::Across => false,
        Stage::Over => false,
    }
}

// Whether the next two records are a cut and the rapid back behind it.
pub fn is_before_cut_and_back(c: Cursor) -> bool
    ensures { result ≡ before_cut_and_back c }
{
    let stage = c.stage;
    let cuts = c.cuts;
    match stage {
        Stage::Cut => 1 < cuts.left,
        Stage::Back => false,
        Stage::Dwell => false,
        Stage::Out => false,
        Stage::Across => false,
        Stage::Over => false,
    }
}
