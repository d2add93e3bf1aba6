// The search in one call.
ghost use Rattle.std.specs.Prelude.{◌≡◌, length};
ghost use Rattle.rows.specs.Board.{board_of, limited};
ghost use Rattle.search.specs.Told.{told_search};
ghost use Rattle.search.specs.Answers.{found_of, written_of, Demanded};

use crate::ended::{Ended, place_rows};
use rows::{Board, Refusal, numbers};
use sets::Set;

// What the search finds: an order, which is in the output, or the blocked group; and the tests made.
#[derive(Clone, Copy, Debug, PartialEq, Eq)]
pub enum Searched {
    Order { tests: u64 },
    Blocked { group: Set, tests: u64 },
}

// The search's answer as C has it: the number, with 3 the lowest row at fault, with 4 the blocked group, and the tests made.
#[repr(C)]
#[derive(Clone, Copy)]
pub struct Found {
    pub number: u32,
    pub row: usize,
    pub group: Set,
    pub tests: u64,
}

// The search: 1, 2, 3, 8, then 0 with the order in out, or 4 with the blocked group.
#[tactic(auto, using(rows::proofs::TableLaws::row_count_most))]
pub fn search(words: &[u32], m: u32, out: &mut [u8]) -> Result<Searched, Refusal>
    ensures value { told_search result ≡ found_of words.now (limited m) (length out.old) }
    ensures out_after { out.new ≡ written_of words.now (limited m) out.old }
    ensures demanded { Demanded (board_of words.now (limited m)) (told_search result) out.new }
{
    rows::check_table(words, m)?;
    let n = rows::row_count(words);
    if out.len() < n {
        return Err(Refusal::ShortOutput);
    }
    let mut end = Ended::before(Set::below(n));
    place_rows(Board::limited(words, m), &mut end);
    if end.placed < n {
        return Ok(Searched::Blocked {
            group: end.left,
            tests: end.tests,
        });
    }
    out[..n].copy_from_slice(&end.order[..n]);
    Ok(Searched::Order { tests: end.tests })
}

impl From<Result<Searched, Refusal>> for Found {
    ghost from_gives = { λ x r. r ≡ told_search x };

    fn from(answer: Result<Searched, Refusal>) -> Found {
        match answer {
            Ok(Searched::Order { tests }) => Found {
                number: numbers::DONE,
                row: 0,
                group: Set::NONE,
                tests,
            },
            Ok(Searched::Blocked { group, tests }) => Found {
                number: numbers::BLOCKED,
                row: 0,
                group,
                tests,
            },
            Err(why) => Found {
                number: why.number(),
                row: why.row(),
                group: Set::NONE,
                tests: 0,
            },
        }
    }
}
