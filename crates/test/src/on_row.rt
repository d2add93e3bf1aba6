// What rows of a table take from one row: plain interference, row by row and in sum.
ghost use Rattle.std.specs.Prelude.{◌≡◌, ◌-◌, ◌*◌};
ghost use Rattle.rows.specs.Table.{table};
ghost use Rattle.workload.specs.Workload.{plain as workload_plain, cap as workload_cap};
ghost use Rattle.test.specs.Parts.{plain_sum_on};

use rows::Row;
use sets::Set;

// A row, and the words of the table whose rows may be above it.
#[derive(Clone, Copy)]
pub(crate) struct OnRow<'a> {
    pub(crate) words: &'a [u32],
    pub(crate) row: Row,
}

impl<'a> OnRow<'a> {
    // Row k of the table.
    pub(crate) fn of(words: &'a [u32], k: usize) -> OnRow<'a>
        ensures words { result.words.now ≡ words.now }
        ensures row { result.row ≡ table words.now k }
    {
        OnRow {
            words,
            row: rows::row_at(words, k),
        }
    }

    // The most that n rows above take from the row.
    #[tactic(auto, using(workload::proofs::WorkloadLaws::cap_fits))]
    pub(crate) fn most_from(self, n: u32) -> u64
        ensures { result ≡ workload_cap self.entry.row * n }
    {
        workload::cap(self.row) * n as u64
    }

    // The plain interference of row i.
    #[tactic(auto, using(workload::proofs::WorkloadLaws::plain_none))]
    pub(crate) fn plain(self, i: usize) -> u64
        ensures { result ≡ workload_plain self.entry.row (table self.entry.words.now i) }
    {
        let Some(row) = rows::read_row(self.words, i) else {
            return 0;
        };
        workload::plain(self.row, row)
    }

    // What the plain interferences of the rows above leave of the limit.
    #[tactic(auto, using(sets::specs::RowsLaws::row_sums))]
    pub(crate) fn plain_rest(self, above: Set, limit: u64) -> u64
        ensures { result ≡ limit - plain_sum_on self.entry above }
    {
        let mut rest = limit;
        for i in above.rows(rows::row_count(self.words)) {
            rest = rest.saturating_sub(self.plain(i));
            if rest == 0 {
                break;
            }
        }
        rest
    }

    // The sum of the plain interferences of the rows above.
    pub(crate) fn plain_total(self, above: Set) -> u64
        ensures { result ≡ plain_sum_on self.entry above }
    {
        above
            .rows(rows::row_count(self.words))
            .map(|i| self.plain(i))
            .sum()
    }
}
