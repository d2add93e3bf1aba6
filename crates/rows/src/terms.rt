// On what terms rows are tested: one small struct, handed on by value beside the words.
ghost use Rattle.std.specs.Prelude.{◌≡◌};
ghost use Rattle.rows.specs.Board.{limited as board_limited};

// The cores, and how many of the rows above count with their carry-in.
#[derive(Clone, Copy, Debug, PartialEq, Eq)]
pub struct Terms {
    pub m: u32,
    pub carried: u32,
}

// Limited carry-in: one row less than there are cores.
pub fn limited(m: u32) -> Terms
    ensures { result ≡ board_limited m }
{
    Terms {
        m,
        carried: m.saturating_sub(1),
    }
}
