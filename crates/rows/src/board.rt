// The lent words of a table and the terms on which its rows are tested.
ghost use Rattle.std.specs.Prelude.{◌≡◌};
ghost use Rattle.rows.specs.Table.{table, row_count};
ghost use Rattle.rows.specs.Board.{limited as board_limited};

use crate::table::{Row, row_at, row_count};
use crate::terms::{Terms, limited};

#[derive(Clone, Copy)]
pub struct Board<'a> {
    pub words: &'a [u32],
    pub terms: Terms,
}

impl<'a> Board<'a> {
    // The words on the terms of limited carry-in.
    pub fn limited(words: &'a [u32], m: u32) -> Board<'a>
        ensures words { result.words.now ≡ words.now }
        ensures terms { result.terms ≡ board_limited m }
    {
        Board {
            words,
            terms: limited(m),
        }
    }

    pub fn row(self, i: usize) -> Row
        ensures { result ≡ table self.entry.words.now i }
    {
        row_at(self.words, i)
    }

    pub fn row_count(self) -> usize
        ensures { result ≡ row_count self.entry.words.now }
    {
        row_count(self.words)
    }
}
