// Writing a book.
ghost use Rattle.std.specs.Prelude.{◌≡◌, ◌++◌, ◌*◌, ◌≤◌, ◌<◌, length, drop};
ghost use Rattle.book.specs.Layout.{edition_one, blocks, book_of};
ghost use Rattle.book.specs.Heads.{said};
ghost use Rattle.book.specs.Told.{told_write};
ghost use Rattle.book.specs.Write.{write_of, write_into};

use crate::reading::Book;
use crate::verdicts::Verdict;
use crate::{layout, storing};
use rows::Refusal;

// The book that says so much, with this table, at the start of `out`. Later bytes stay.
fn store_book(book: &Book, words: &[u32], out: &mut [u8])
    requires fits { (book.now.m < 256) × (book.now.n ≤ 96) × (book.now.verdict.kind < 256) }
    requires room { (length words.now ≡ 3 * book.now.n) × (512 * blocks edition_one book.now.n ≤ length out.old) }
    ensures { out.new ≡ book_of edition_one (said book.now words.now) ++ drop (512 * blocks edition_one book.now.n) out.old }
{
    storing::store_head(out.first_chunk_mut().unwrap(), book);
    for k in 0..layout::row_blocks(book.n) {
        storing::store_rows(out, words, k);
    }
}

// The book of a table, its core count and a verdict at the start of `out`, later bytes as they were; or a refusal, and `out` as it was.
pub fn write(words: &[u32], m: u32, verdict: Verdict, out: &mut [u8]) -> Result<(), Refusal>
    ensures answer { told_write result ≡ write_of words.now m verdict (length out.old) }
    ensures bytes { out.new ≡ write_into words.now m verdict out.old }
{
    rows::check_table(words, m)?;
    let n = rows::row_count(words);
    if !verdict.formed(n) {
        return Err(Refusal::BookField);
    }
    if out.len() < layout::size(n) {
        return Err(Refusal::ShortOutput);
    }
    store_book(&Book { m, n, verdict }, words, out);
    Ok(())
}
