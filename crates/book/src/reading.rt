// Reading a book.
ghost use Rattle.std.specs.Prelude.{◌≡◌, length};
ghost use Rattle.book.specs.Read.{read_of, read_into};
ghost use Rattle.book.specs.Told.{told_read};

use crate::fields::Known;
use crate::verdicts::Verdict;
use rows::Refusal;

// What a book says beside its table: the cores, the rows and the verdict.
#[derive(Clone, Copy, Debug, PartialEq, Eq)]
pub struct Book {
    pub m: u32,
    pub n: usize,
    pub verdict: Verdict,
}

// What a book says, its table at the start of `words`, later words as they were; or a refusal, and `words` as they were.
pub fn read(book: &[u8], words: &mut [u32]) -> Result<Book, Refusal>
    ensures answer { told_read result ≡ read_of book.now (length words.old) }
    ensures table { words.new ≡ read_into book.now words.old }
{
    let known = Known::of(book)?;
    known.check_body(words.len())?;
    known.store_words(words);
    Ok(Book {
        m: known.m(),
        n: known.n,
        verdict: known.verdict(),
    })
}
