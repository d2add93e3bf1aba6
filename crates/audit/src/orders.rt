// The checker of orders: level 1 is the highest and the order's first entry, level n the lowest.
ghost use Rattle.std.specs.Prelude.{◌≡◌, true, ◌≤◌, Ok};
ghost use Rattle.rows.specs.Table.{row_count};
ghost use Rattle.rows.specs.Board.{seen, limited};
ghost use Rattle.audit.specs.Audit.{is_order, levels_of, order_checked_of};
ghost use Rattle.audit.specs.Told.{told_order};

use rows::{Board, Refusal};
use sets::Set;

// The lowest level of an order that fails, and the used of its row.
#[derive(Clone, Copy, Debug, PartialEq, Eq)]
pub struct Failing {
    pub level: usize,
    pub used: u64,
}

// Takes the rows of the order, the lowest level first, out of the rows below n: each must be one that is still there.
// The search does so with a state; a checker shares no code with what it checks.
fn is_order(n: usize, order: &[u8]) -> bool
    requires { n ≤ 96 }
    ensures { result ≡ is_order n order.now }
{
    if order.len() != n {
        return false;
    }
    let mut left = Set::below(n);
    for &entry in order.iter().rev() {
        let row = entry as usize;
        if !left.has(row) {
            return false;
        }
        left = left.without(row);
    }
    true
}

// Tests the levels of an order, by whose number it answers, from the lowest up, each row with those of the higher levels above it, up to the first that fails.
fn check_levels(board: Board<'_>, order: &[u8]) -> Option<Failing>
    requires { is_order (row_count board.words.now) order.now ≡ true }
    ensures { told_order (Ok result) ≡ levels_of (seen board.entry) order.now }
{
    let mut above = Set::below(order.len());
    for higher in (0..order.len()).rev() {
        let row = order[higher] as usize;
        above = above.without(row);
        if !test::passes(board, above, row) {
            return Some(Failing {
                level: higher + 1,
                used: test::used(board, above, row),
            });
        }
    }
    None
}

// The check of an order: 1, 2, 3, 5, then 0, or 6 with the lowest level that fails and its used.
pub fn check_order(words: &[u32], m: u32, order: &[u8]) -> Result<Option<Failing>, Refusal>
    ensures { told_order result ≡ order_checked_of words.now (limited m) order.now }
{
    rows::check_table(words, m)?;
    let board = Board::limited(words, m);
    if !is_order(board.row_count(), order) {
        return Err(Refusal::Malformed);
    }
    Ok(check_levels(board, order))
}
