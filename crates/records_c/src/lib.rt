// The search over a list of task records, as C calls it.
#![tactic(auto)]

ghost use Rattle.std.specs.Prelude.{◌≡◌, length};
ghost use Rattle.rows.specs.Board.{limited};
ghost use Rattle.search.specs.Answers.{found_of, written_of};
ghost use Rattle.records.specs.Records.{flat};

use records::Task;
use search::Found;

// The search of the tasks: the answer that their flat words get. Callers in C and Rust declare Task, Found and Set
// again, so these three have C's layout.
#[unsafe(no_mangle)]
pub extern "C" fn heralinda_search_records(tasks: &[Task], m: u32, out: &mut [u8]) -> Found
    ensures value { result ≡ found_of (flat tasks.now) (limited m) (length out.old) }
    ensures out_after { out.new ≡ written_of (flat tasks.now) (limited m) out.old }
{
    records::heralinda_search_records(tasks, m, out)
}
