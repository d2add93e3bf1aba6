// The search in quota steps. The state is handed in and back by value, also where a step is refused: this form is document 01's.
ghost use Rattle.std.specs.Prelude.{◌≡◌, ◌<◌};
ghost use Rattle.rows.specs.Board.{seen, board_of, limited};
ghost use Rattle.search.specs.State.{left_of};
ghost use Rattle.search.specs.Tally.{IsLeft};
ghost use Rattle.search.specs.Told.{told_step, StepChecked};
ghost use Rattle.search.specs.Answers.{stepped_of, StepDemanded, work_of, probed_of};

use crate::state::State;
use crate::tally::{LATER, Tally};
use rows::{Board, Refusal};
use sets::Set;

// How a step ends: with every row placed, with the blocked group, or with its quota spent.
#[derive(Clone, Copy, Debug, PartialEq, Eq)]
pub enum Outcome {
    Order,
    Blocked(Set),
    Unfinished,
}

// A step's answer, the tests made in this call, and the new state: the one that was given where the step was refused.
#[derive(Clone, Copy, Debug, PartialEq, Eq)]
pub struct Stepped {
    pub answer: Result<Outcome, Refusal>,
    pub tests: u64,
    pub state: State,
}

// One test, of row k with all others that are left above it.
fn probe(tally: &mut Tally<'_>, state: &mut State, k: usize)
    requires { IsLeft (seen tally.old.board).n tally.old.left k × (state.old.placed < (seen tally.old.board).n) }
    ensures value { record { state = state.new; left = tally.new.left } ≡ probed_of (seen tally.old.board) state.old tally.old.left k }
    ensures same { tally.new.board ≡ tally.old.board }
{
    if tally.passes(k) {
        state.place(tally.board.row_count(), k);
        tally.take(k);
    } else {
        state.cursor = k + 1;
    }
}

// Tests until the search is finished or the quota is spent. In a short step most rows are tested once, and no sum is made.
fn run(board: Board<'_>, left: Set, mut state: State, quota: u64) -> Stepped
    requires { left_of (seen board).n state ≡ Some left }
    ensures { told_step result ≡ work_of (seen board.entry) state quota }
{
    let mut tally = Tally::new(board, left, LATER);
    let mut tests: u64 = 0;
    for _ in 0..quota {
        let Some(k) = tally.next_row(state.cursor) else {
            break
        };
        probe(&mut tally, &mut state, k);
        tests += 1;
    }
    let outcome = match tally.next_row(state.cursor) {
        Some(_) => Outcome::Unfinished,
        None if state.placed < board.row_count() => Outcome::Blocked(tally.left),
        None => Outcome::Order,
    };
    Stepped {
        answer: Ok(outcome),
        tests,
        state,
    }
}

// The checks that a step makes first: 1, 2, 3, 7. The rows that the state leaves unplaced.
fn checked(words: &[u32], m: u32, state: &State) -> Result<Set, Refusal>
    ensures { StepChecked words.now (limited m) state.now result }
{
    rows::check_table(words, m)?;
    state.left(rows::row_count(words)).ok_or(Refusal::Unsound)
}

// One step: 1, 2, 3, 7, then 0, 4 or 15 with the new state and the tests made in this call.
pub fn step(words: &[u32], m: u32, state: State, quota: u64) -> Stepped
    ensures value { told_step result ≡ stepped_of words.now (limited m) state quota }
    ensures step_demanded { StepDemanded (board_of words.now (limited m)) state quota (told_step result) }
{
    match checked(words, m, &state) {
        Ok(left) => run(Board::limited(words, m), left, state, quota),
        Err(why) => Stepped {
            answer: Err(why),
            tests: 0,
            state,
        },
    }
}
