// The lines of a listing.
ghost use Rattle.std.specs.Prelude.{◌≡◌, ◌*◌, ◌/◌, length};
ghost use Rattle.sets.specs.Sets.{has};
ghost use Rattle.rows.specs.Table.{row_count};
ghost use Rattle.report.specs.Text.{lines};
ghost use Rattle.report.specs.Page.{put};
ghost use Rattle.report.specs.Listing.{load as load_of, header, row_line, at_level, level_line, member_line};

use crate::page::Page;
use rows::{Board, Row};
use sets::Set;

// The words of a table, and its cores: a `Board` has terms too, of which a listing knows nothing.
#[derive(Clone, Copy)]
pub(crate) struct Table<'a> {
    pub(crate) words: &'a [u32],
    pub(crate) m: u32,
}

// 1000 · C / T, rounded down.
fn share(row: Row) -> u64
    ensures { result ≡ 1000 * row.c / row.t }
{
    (1000 * u64::from(row.c))
        .checked_div(u64::from(row.t))
        .unwrap_or(0)
}

// The sum of the rows' shares.
fn load(words: &[u32]) -> u64
    ensures { result ≡ load_of words.now }
{
    (0..rows::row_count(words))
        .map(|i| share(rows::row_at(words, i)))
        .sum()
}

#[tactic(auto, unfolding(crate::specs::Listing::header))]
pub(crate) fn put_header(word: &[u8], table: Table<'_>, tests: u64, page: &mut Page<'_>)
    ensures { page.new ≡ put page.old (header word.now table.entry.words.now table.entry.m tests) }
{
    page.text(word);
    page.field(b" m=", u64::from(table.m));
    page.field(b" n=", rows::row_count(table.words) as u64);
    page.field(b" tests=", tests);
    page.field(b" load=", load(table.words));
    page.byte(b'\n');
}

// Row k with the rows above it.
#[tactic(auto, unfolding(crate::specs::Listing::row_line))]
fn put_row(table: Table<'_>, above: Set, k: usize, page: &mut Page<'_>)
    ensures { page.new ≡ put page.old (row_line table.entry.words.now table.entry.m (has above) k) }
{
    let board = Board::limited(table.words, table.m);
    let row = board.row(k);
    let used = test::used(board, above, k);
    page.field(b"row=", k as u64);
    page.field(b" C=", u64::from(row.c));
    page.field(b" D=", u64::from(row.d));
    page.field(b" T=", u64::from(row.t));
    page.field(b" used=", used);
    page.byte(b'\n');
}

// The same with its level in front.
fn put_level(table: Table<'_>, above: Set, level: usize, k: usize, page: &mut Page<'_>)
    ensures { page.new
        ≡ put page.old (at_level level (row_line table.entry.words.now table.entry.m (has above) k)) }
{
    page.decimal(level as u64);
    page.byte(b' ');
    put_row(table, above, k, page);
}

// A line for each level, from the highest.
pub(crate) fn put_levels(table: Table<'_>, order: &[u8], page: &mut Page<'_>)
    ensures { page.new
        ≡ put page.old (lines (length order.now) (level_line table.entry.words.now table.entry.m order.now)) }
{
    let mut above = Set::NONE;
    for (j, &entry) in order.iter().enumerate() {
        let k = usize::from(entry);
        put_level(table, above, j + 1, k, page);
        above = above.with(k);
    }
}

// A line for each member, by rising row, with the other members above it.
pub(crate) fn put_members(table: Table<'_>, group: Set, page: &mut Page<'_>)
    ensures { page.new
        ≡ put page.old (lines (row_count table.entry.words.now) (member_line table.entry.words.now table.entry.m (has group))) }
{
    for i in group.rows(rows::row_count(table.words)) {
        put_row(table, group.without(i), i, page);
    }
}
