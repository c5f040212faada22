// A position of an axis in whole micrometres; an X position is a diameter. (01: "All lengths are whole micrometres. X positions are diameters".)
// It is built from a word and its offset, or from where the axis stands and an incremental word, and is refused where it is out of range.
ghost use Rattle.std.specs.Prelude.{◌≡◌, pos, ◌+ℤ◌, ◌*ℤ◌};
ghost use Rattle.whole.specs.Position.{in_table, placed};

#[derive(Clone, Copy)]
pub struct Position {
    pub um: i32,
}

#[derive(Clone, Copy)]
pub enum Placed {
    At(Position),
    Outside,
}

impl Position {
    // What a number of the offset table, the start and a soft limit may be, and so where an axis may stand.
    pub const TABLE_LEAST: i32 = -9_999_999;

    pub const TABLE_GREATEST: i32 = 9_999_999;

    // What a target may be before the soft limits are asked: a word and three offsets, each no greater than a number of the table.
    pub const TARGET_LEAST: i32 = -39_999_996;

    pub const TARGET_GREATEST: i32 = 39_999_996;

    // Whether a number is in the table's range.
    #[tactic(auto, unfolding(crate::specs::Position::in_table))]
    pub fn in_table(v: i32) -> bool
        ensures { result ≡ in_table v }
    {
        (Position::TABLE_LEAST <= v) & (v <= Position::TABLE_GREATEST)
    }

    // The position v, where a target may be there. Words, offsets and positions in their ranges are never refused (proofs/Positions.antt).
    #[tactic(auto, unfolding(crate::specs::Position::placed))]
    pub fn place(v: i64) -> Placed
        ensures { result ≡ placed v }
    {
        if v < i64::from(Position::TARGET_LEAST) {
            return Placed::Outside;
        }
        if i64::from(Position::TARGET_GREATEST) < v {
            return Placed::Outside;
        }
        Placed::At(Position { um: v as i32 })
    }

    // The sum of two numbers of an axis.
    fn sum(a: i32, b: i32) -> Placed
        ensures { result ≡ placed (a +ℤ b) }
    {
        Position::place(i64::from(a) + i64::from(b))
    }

    // The target of an X word: a diameter, as the offset is.
    pub fn from_x_word(word: i32, offset: i32) -> Placed
        ensures { result ≡ placed (word +ℤ offset) }
    {
        Position::sum(word, offset)
    }

    // The target of a Z word.
    pub fn from_z_word(word: i32, offset: i32) -> Placed
        ensures { result ≡ placed (word +ℤ offset) }
    {
        Position::sum(word, offset)
    }

    // The target of a U word, from where the X axis stands. U is per side and counts double on the diameter.
    pub fn moved_by_u(present: i32, u: i32) -> Placed
        ensures { result ≡ placed (present +ℤ pos 2 *ℤ u) }
    {
        Position::place(i64::from(present) + 2 * i64::from(u))
    }

    // The target of a W word, from where the Z axis stands.
    pub fn moved_by_w(present: i32, w: i32) -> Placed
        ensures { result ≡ placed (present +ℤ w) }
    {
        Position::sum(present, w)
    }
}
