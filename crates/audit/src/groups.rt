// The checker of blocked groups: each member fails with the other members above it.
ghost use Rattle.std.specs.Prelude.{◌≡◌};
ghost use Rattle.sets.specs.Sums.{some_below};
ghost use Rattle.sets.specs.Sets.{has};
ghost use Rattle.rows.specs.Board.{seen, limited};
ghost use Rattle.test.specs.Test.{passes};
ghost use Rattle.search.specs.Answers.{passing};
ghost use Rattle.audit.specs.Audit.{is_group, lowest_passing, group_checked_of};
ghost use Rattle.audit.specs.Told.{told_group};

use rows::{Board, Refusal};
use sets::Set;

// Whether the group has a member, and none but rows below n.
#[tactic(auto, unfolding(crate::specs::Audit::is_group))]
fn is_group(n: usize, group: Set) -> bool
    ensures { result ≡ is_group n group }
{
    0 < group.size() && group.within(n)
}

// Whether the row is a member that passes with the other members above it.
fn member_passes(board: Board<'_>, group: Set, row: usize) -> bool
    ensures { result ≡ passing (passes (seen board.entry)) (has group) row }
{
    group.has(row) && test::passes(board, group.without(row), row)
}

// The lowest member that passes with the other members above it.
fn lowest_passing(board: Board<'_>, n: usize, group: Set) -> Option<usize>
    ensures { result ≡ some_below (lowest_passing (passes (seen board.entry)) n group) n }
{
    (0..n).find(|&row| member_passes(board, group, row))
}

// The check of a blocked group: 1, 2, 3, 5, then 0, or 14 with the lowest member that passes.
pub fn check_group(words: &[u32], m: u32, group: Set) -> Result<Option<usize>, Refusal>
    ensures { told_group result ≡ group_checked_of words.now (limited m) group }
{
    rows::check_table(words, m)?;
    let board = Board::limited(words, m);
    let n = board.row_count();
    if !is_group(n, group) {
        return Err(Refusal::Malformed);
    }
    Ok(lowest_passing(board, n, group))
}
