// A table is flat words, three to a row: C, D, T.
ghost use Rattle.std.specs.Prelude.{◌≡◌};
ghost use Rattle.sets.specs.Sums.{some_below};
ghost use Rattle.rows.specs.Table.{in_range, read_at, table, row_count, first_fault, table_fault};
ghost use Rattle.rows.specs.Told.{told_check};

use crate::refusal::Refusal;

#[derive(Clone, Copy, Debug, Default, PartialEq, Eq)]
pub struct Row {
    pub c: u32,
    pub d: u32,
    pub t: u32,
}

#[tactic(auto, unfolding(crate::specs::Table::in_range))]
fn in_range(row: Row) -> bool
    ensures { result ≡ in_range row }
{
    1 <= row.c && row.c <= row.d && row.d <= row.t && row.t <= 10_000_000
}

// Row `row` of the table, or none where it is at fault: also where the words end before it.
pub fn read_row(words: &[u32], row: usize) -> Option<Row>
    ensures { result ≡ read_at words.now row }
{
    if words.len() / 3 <= row {
        return None;
    }
    let at = 3 * row;
    let read = Row {
        c: words[at],
        d: words[at + 1],
        t: words[at + 2],
    };
    if in_range(read) { Some(read) } else { None }
}

// Row `row` of the table; where it is at fault, a row that never works. By `unwrap_or` it takes a fifth more instructions.
pub fn row_at(words: &[u32], row: usize) -> Row
    ensures { result ≡ table words.now row }
{
    let Some(read) = read_row(words, row) else {
        return Row { c: 0, d: 0, t: 0 };
    };
    read
}

// How many rows the words hold; the largest table has 96.
#[tactic(auto, unfolding(crate::specs::Table::row_count))]
pub fn row_count(words: &[u32]) -> usize
    ensures { result ≡ row_count words.now }
{
    (words.len() / 3).min(96)
}

// The lowest of the first n rows that breaks its range.
fn first_fault(words: &[u32], n: usize) -> Option<usize>
    ensures { result ≡ some_below (first_fault words.now n) n }
{
    (0..n).find(|&row| read_row(words, row).is_none())
}

// The checks that every function over a table makes first, in this order: 1, 2, 3.
pub fn check_table(words: &[u32], m: u32) -> Result<(), Refusal>
    ensures { told_check result ≡ table_fault words.now m }
{
    let n = words.len() / 3;
    if words.len() % 3 != 0 || 96 < n {
        return Err(Refusal::TableLength);
    }
    if m < 1 || 32 < m {
        return Err(Refusal::Cores);
    }
    match first_fault(words, n) {
        Some(row) => Err(Refusal::RowRange(row)),
        None => Ok(()),
    }
}
