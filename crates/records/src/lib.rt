// The search over a lent list of task records, for callers in Rattle, C and Rust.
#![tactic(auto)]

ghost use Rattle.std.specs.Prelude.{◌≡◌, ◌*◌, ◌≤◌, length, take};
ghost use Rattle.rows.specs.Board.{limited};
ghost use Rattle.search.specs.Answers.{found_of, written_of};
ghost use Rattle.search.specs.Told.{told_search};
ghost use Rattle.records.specs.Records.{flat};

use rows::Refusal;
use search::{Found, Searched};

// C's layout, since C declares it again: a `rows::Row` has the same fields, but no layout that C could rely on.
#[repr(C)]
#[derive(Clone, Copy, Debug, Default, PartialEq, Eq)]
pub struct Task {
    pub c: u32,
    pub d: u32,
    pub t: u32,
}

// The flat words of the tasks, at the start of room for the largest table. Stored by index: of what a slice of chunks leaves, a
// proof knows the length alone.
fn flat_words(tasks: &[Task]) -> [u32; 288]
    requires { length tasks.now ≤ 96 }
    ensures { take (3 * length tasks.now) result ≡ flat tasks.now }
{
    let mut words = [0u32; 288];
    for (row, task) in tasks.iter().enumerate() {
        words[3 * row] = task.c;
        words[3 * row + 1] = task.d;
        words[3 * row + 2] = task.t;
    }
    words
}

// The search of the flat words: 1 where there are more than 96 tasks.
#[tactic(auto, using(crate::proofs::RecordsLaws::flat_refused, crate::proofs::RecordsLaws::flat_written))]
fn search_tasks(tasks: &[Task], m: u32, out: &mut [u8]) -> Result<Searched, Refusal>
    ensures value { told_search result ≡ found_of (flat tasks.now) (limited m) (length out.old) }
    ensures out_after { out.new ≡ written_of (flat tasks.now) (limited m) out.old }
{
    if 96 < tasks.len() {
        return Err(Refusal::TableLength);
    }
    let words = flat_words(tasks);
    search::search(&words[..3 * tasks.len()], m, out)
}

// The search of the tasks: the answer that their flat words get. Callers in C and Rust declare Task, Found and Set
// again, so these three have C's layout.
pub fn heralinda_search_records(tasks: &[Task], m: u32, out: &mut [u8]) -> Found
    ensures value { result ≡ found_of (flat tasks.now) (limited m) (length out.old) }
    ensures out_after { out.new ≡ written_of (flat tasks.now) (limited m) out.old }
{
    Found::from(search_tasks(tasks, m, out))
}
