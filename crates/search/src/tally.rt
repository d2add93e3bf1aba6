// What the search keeps between its tests, so that a row that is tested again costs little: for each row left the sum of
// the plain interferences of the other rows left on it, once known.
ghost use Rattle.std.specs.Prelude.{◌≡◌, ◌≤◌};
ghost use Rattle.sets.specs.Sets.{has, without_row};
ghost use Rattle.rows.specs.Table.{row_count};
ghost use Rattle.rows.specs.Board.{seen};
ghost use Rattle.test.specs.Test.{passes as test_passes};
ghost use Rattle.search.specs.Tally.{IsLeft, unknown, sum_in, Tallied};

use rows::Board;
use sets::Set;

// What an entry is where its sum is not known: one that the next test of the row makes, and one that is made by the test after
// that. Entries are words and no enum, which would take 384 bytes of stack more than the host entry may have.
pub(crate) const UNKNOWN: u32 = 0xffff_fffe;

pub(crate) const LATER: u32 = 0xffff_ffff;

// The sum that an entry is, where it is known.
fn sum_in(entry: u32) -> Option<u32>
    ensures { result ≡ sum_in entry }
{
    (entry < UNKNOWN).then_some(entry)
}

// A board, the rows left, and what is kept of each: the sums that are known are those of the rows left.
#[derive(Drop)]
pub(crate) struct Tally<'a> {
    pub board: Board<'a>,
    pub left: Set,
    sums: [u32; 96],
    ghost tallied: { Tallied board.words.now left sums },
}

// The rows left without row k, which is placed. What it takes from each of them comes off their sums. Until the walk is over
// the sums are those of no set, so that it is no method.
#[tactic(auto, using(rows::proofs::TableLaws::row_count_most))]
fn take_off(words: &[u32], left: Set, k: usize, sums: &mut [u32; 96]) -> Set
    requires { IsLeft (row_count words.now) left k × Tallied words.now left sums.old }
    ensures value { result ≡ without_row left k }
    ensures tallied { Tallied words.now (without_row left k) sums.new }
{
    let rest = left.without(k);
    for i in rest.rows(rows::row_count(words)) {
        if let Some(sum) = sum_in(sums[i]) {
            sums[i] = sum - test::plain(words, i, k);
        }
    }
    rest
}

impl<'a> Tally<'a> {
    // No sum is known yet: each entry says when it is made.
    pub(crate) fn new(board: Board<'a>, left: Set, entry: u32) -> Tally<'a>
        requires { unknown ≤ entry }
        ensures { (result.board ≡ board.entry) × (result.left ≡ left) }
    {
        Tally {
            board,
            left,
            sums: [entry; 96],
        }
    }

    // Whether row k passes with the other rows left above it. A test that makes no sum ends where the limit is reached.
    #[tactic(auto, using(rows::proofs::TableLaws::row_count_most))]
    pub(crate) fn passes(&mut self, k: usize) -> bool
        requires { IsLeft (seen self.old.board).n self.old.left k }
        ensures value { result ≡ test_passes (seen self.old.board) (has (without_row self.old.left k)) k }
        ensures same { (self.new.board ≡ self.old.board) × (self.new.left ≡ self.old.left) }
    {
        let above = self.left.without(k);
        if self.sums[k] == LATER {
            self.sums[k] = UNKNOWN;
            return test::passes(self.board, above, k);
        }
        // A `match`, since a closure that sums would capture what the next lines write.
        let sum = match sum_in(self.sums[k]) {
            Some(sum) => sum,
            None => test::plain_sum(self.board.words, above, k),
        };
        self.sums[k] = sum;
        test::passes_with(self.board, above, k, sum)
    }

    // Row k is placed. What it takes from each of the others comes off their sums.
    pub(crate) fn take(&mut self, k: usize)
        requires { IsLeft (seen self.old.board).n self.old.left k }
        ensures { (self.new.board ≡ self.old.board) × (self.new.left ≡ without_row self.old.left k) }
    {
        self.left = take_off(self.board.words, self.left, k, &mut self.sums);
    }
}
