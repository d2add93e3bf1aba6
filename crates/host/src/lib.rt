// The entry for host tools: a book in, the same table with the search's verdict out.
#![tactic(auto)]

ghost use Rattle.std.specs.Prelude.{◌≡◌, ◌++◌, ◌*◌, ◌≤◌, length, drop};
ghost use Rattle.rows.specs.Board.{limited};
ghost use Rattle.rows.specs.Numbers.{done};
ghost use Rattle.rows.specs.Table.{row_count, table_fault};
ghost use Rattle.search.specs.Answers.{found_of};
ghost use Rattle.search.specs.Told.{told_search};
ghost use Rattle.book.specs.Layout.{edition_one, blocks};
ghost use Rattle.host.specs.Host.{searched, host_number, host_into};

use book::Verdict;
use rows::Refusal;
use search::{Found, Searched};
use sets::Set;

// Searches a table that passed its checks and writes its book with the search's verdict. Later bytes stay.
fn search_into(words: &[u32], m: u32, out: &mut [u8]) -> Result<Searched, Refusal>
    requires fair { (table_fault words.now m).number ≡ done }
    requires room { 512 * blocks edition_one (row_count words.now) ≤ length out.old }
    ensures answer { told_search result ≡ found_of words.now (limited m) 96 }
    ensures bytes { out.new ≡ searched words.now m ++ drop (512 * blocks edition_one (row_count words.now)) out.old }
{
    // Made in place: each copy of an order takes 96 bytes of a stack that has a limit.
    let mut verdict = Verdict {
        kind: 0,
        order: [255; 96],
        group: Set::NONE,
    };
    let searched = search::search(words, m, &mut verdict.order)?;
    let (kind, group) = match searched {
        Searched::Order { .. } => (1, Set::NONE),
        Searched::Blocked { group, .. } => (2, group),
    };
    verdict.kind = kind;
    verdict.group = group;
    book::write(words, m, verdict, out)?;
    Ok(searched)
}

// The work of the entry. A refusal writes nothing.
fn search_book(book: &[u8], out: &mut [u8]) -> Result<Searched, Refusal>
    ensures number { (told_search result).number ≡ host_number book.now (length out.old) }
    ensures bytes { out.new ≡ host_into book.now out.old }
{
    let mut words = [0; 288];
    let read = book::read(book, &mut words)?;
    if out.len() < book.len() {
        return Err(Refusal::ShortOutput);
    }
    search_into(&words[..3 * read.n], read.m, out)
}

// Reads a book, searches its table whatever verdict it holds, and writes the same table with the search's verdict:
// 0 with an order, 4 with a blocked group. Later bytes stay. Every other number is a refusal that writes nothing.
// C has the number.
pub fn heralinda_search(book: &[u8], out: &mut [u8]) -> u32
    ensures number { result ≡ host_number book.now (length out.old) }
    ensures bytes { out.new ≡ host_into book.now out.old }
{
    Found::from(search_book(book, out)).number
}
