// One level: unplaced rows tried in table sequence.
ghost use Rattle.std.specs.Prelude.{◌≡◌, suc, min};
ghost use Rattle.sets.specs.Sums.{count, some_below};
ghost use Rattle.sets.specs.Sets.{has};
ghost use Rattle.rows.specs.Board.{seen};
ghost use Rattle.search.specs.Answers.{first_passing, next_left};

use crate::tally::Tally;

// The first row that passed, and the tests made.
#[derive(Clone, Copy)]
pub(crate) struct Scanned {
    pub row: Option<usize>,
    pub tests: u64,
}

impl Tally<'_> {
    // The first of the rows from the cursor on that is left.
    pub(crate) fn next_row(&self, cursor: usize) -> Option<usize>
        ensures { result ≡ next_left (seen self.now.board).n self.now.left cursor }
    {
        let row = self.left.next(cursor);
        (row < self.board.row_count()).then_some(row)
    }

    // Tests the rows left, in table sequence, each with all others above it, up to the first that passes. The loop is left by
    // break with the row that passed, as document 01 has it.
    pub(crate) fn scan(&mut self) -> Scanned
        ensures row_value { let b = seen self.old.board in result.row ≡ some_below (first_passing b self.old.left) b.n }
        ensures tests_value { let b = seen self.old.board in result.tests ≡ count (min (suc (first_passing b self.old.left)) b.n) (has self.old.left) }
        ensures same { (self.new.board ≡ self.old.board) × (self.new.left ≡ self.old.left) }
    {
        let mut row = None;
        let mut tests: u64 = 0;
        for i in self.left.rows(self.board.row_count()) {
            tests += 1;
            if self.passes(i) {
                row = Some(i);
                break;
            }
        }
        Scanned { row, tests }
    }
}
