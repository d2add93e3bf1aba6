// The search of any rows of a table, by value.
ghost use Rattle.std.specs.Prelude.{◌≡◌};
ghost use Rattle.sets.specs.Sets.{has};
ghost use Rattle.rows.specs.Board.{seen};
ghost use Rattle.search.specs.Answers.{unended, ended_of};

use crate::state::put;
use crate::tally::{Tally, UNKNOWN};
use rows::Board;
use sets::Set;

// Where a search ended: entries n - placed to n - 1 of the order are the rows placed, the highest level first, all others
// are 255, as in a `State`, whose form document 01 names; the rows left; and the tests made.
#[derive(Clone, Copy)]
pub struct Ended {
    pub order: [u8; 96],
    pub placed: usize,
    pub left: Set,
    pub tests: u64,
}

impl Ended {
    // No row is placed yet.
    pub(crate) fn before(dom: Set) -> Ended
        ensures { result ≡ unended dom }
    {
        Ended {
            order: [255; 96],
            placed: 0,
            left: dom,
            tests: 0,
        }
    }
}

// Level by level, from the lowest up, until every row is placed or a scan finds none that passes. Where the search ends is made
// in place: a copy of it would not fit the stack that the host entry may have.
pub(crate) fn place_rows(board: Board<'_>, end: &mut Ended)
    requires { end.old ≡ unended end.old.left }
    ensures { end.new ≡ ended_of (seen board.entry) (has end.old.left) }
{
    let n = board.row_count();
    let mut tally = Tally::new(board, end.left, UNKNOWN);
    for _ in 0..n {
        let level = tally.scan();
        end.tests += level.tests;
        let Some(k) = level.row else { break };
        tally.take(k);
        end.left = tally.left;
        put(&mut end.order, n, end.placed, k);
        end.placed += 1;
    }
}

// The search of some rows. Of the rows to be searched those that the table does not have stay left.
pub fn search_rows(board: Board<'_>, dom: Set) -> Ended
    ensures { result ≡ ended_of (seen board.entry) (has dom) }
{
    let mut end = Ended::before(dom);
    place_rows(board, &mut end);
    end
}
