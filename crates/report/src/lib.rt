// The listing of a book, byte for byte.
#![tactic(auto)]

mod lines;
mod page;

ghost use Rattle.std.specs.Prelude.{◌≡◌, length};
ghost use Rattle.rows.specs.Numbers.{done};
ghost use Rattle.rows.specs.Table.{table_fault};
ghost use Rattle.rows.specs.Refusals.{refusal_number};
ghost use Rattle.report.specs.Text.{over};
ghost use Rattle.report.specs.Page.{put};
ghost use Rattle.report.specs.Listing.{listed, listing_of, refused_text};

use crate::lines::{Table, put_header, put_levels, put_members};
use crate::page::Page;
use rows::Refusal;
use search::Searched;

// The line of a book that was refused.
fn put_refused(refusal: Refusal, page: &mut Page<'_>)
    ensures { page.new ≡ put page.old (refused_text (refusal_number refusal)) }
{
    page.field(b"REFUSED ", u64::from(refusal.number()));
    page.byte(b'\n');
}

// The listing of a table that passed its checks, which the search does not refuse.
#[tactic(auto, using(std::proofs::lemmas::Grind::common_steps, rows::proofs::TableLaws::row_count_most))]
fn put_table(table: Table<'_>, page: &mut Page<'_>)
    requires { (table_fault table.words.now table.m).number ≡ done }
    ensures { page.new ≡ put page.old (listed table.entry.words.now table.entry.m) }
{
    let mut order = [255; 96];
    match search::search(table.words, table.m, &mut order) {
        Ok(Searched::Order { tests }) => {
            put_header(b"ORDER", table, tests, page);
            put_levels(table, &order[..rows::row_count(table.words)], page);
        }
        Ok(Searched::Blocked { group, tests }) => {
            put_header(b"BLOCKED", table, tests, page);
            put_members(table, group, page);
        }
        Err(_) => unreachable!(),
    }
}

// The listing of a book.
fn put_listing(book: &[u8], page: &mut Page<'_>)
    ensures { page.new ≡ put page.old (listing_of book.now) }
{
    let mut words = [0; 288];
    match book::read(book, &mut words) {
        Ok(read) => {
            let words = &words[..3 * read.n];
            put_table(Table { words, m: read.m }, page);
        }
        Err(refusal) => put_refused(refusal, page),
    }
}

// The listing of the book at the start of `out`, cut where `out` ends, later bytes as they were; and its length.
pub fn list(book: &[u8], out: &mut [u8]) -> usize
    ensures size { result ≡ length (listing_of book.now) }
    ensures text { out.new ≡ over out.old 0 (listing_of book.now) }
{
    let mut page = Page { out, end: 0 };
    put_listing(book, &mut page);
    page.end
}
