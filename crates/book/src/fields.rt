// What stands in a book: its words and its verdict.
ghost use Rattle.std.specs.Prelude.{◌≡◌, ℕ, ◌++◌, ◌*◌, ◌≤◌, ◌<◌, length, get_or, drop};
ghost use Rattle.rows.specs.Table.{read_at};
ghost use Rattle.book.specs.Bytes.{run};
ghost use Rattle.book.specs.Known.{Sealed, Headed};
ghost use Rattle.book.specs.Layout.{edition_one};
ghost use Rattle.book.specs.Read.{word_at, content, verdict_of};

use crate::bytes;
use crate::verdicts::Verdict;
use rows::Row;
use sets::Set;

// A book whose blocks and head are right, and the rows that it has.
#[derive(Clone, Copy)]
pub(crate) struct Known<'a> {
    pub(crate) bytes: &'a [u8],
    pub(crate) n: usize,
    ghost fits: { (i : ℕ) → get_or bytes.now i 0 < 256 },
    ghost sealed: { Sealed bytes.now },
    ghost headed: { Headed bytes.now n },
}

impl Known<'_> {
    // The three words of row i of the table, which stand in one block.
    fn row_words(&self, i: usize) -> [u32; 3]
        requires { i < self.now.n }
        ensures { result ≡ run (3 * i) 3 (word_at edition_one self.now.bytes.now) }
    {
        let at = 512 * (1 + i / 42) + 2 + 12 * (i % 42);
        let word = |at: usize| u32::from_be_bytes(bytes::taken(self.bytes, at));
        [word(at), word(at + 4), word(at + 8)]
    }

    // Row i of the table, or none where it breaks its range.
    pub(crate) fn row(&self, i: usize) -> Option<Row>
        requires { i < self.now.n }
        ensures { result ≡ read_at (content edition_one self.now.bytes.now).table i }
    {
        rows::read_row(&self.row_words(i), 0)
    }

    // The table at the start of `words`. Later words stay.
    pub(crate) fn store_words(&self, words: &mut [u32])
        requires { 3 * self.now.n ≤ length words.old }
        ensures { words.new ≡ (content edition_one self.now.bytes.now).table ++ drop (3 * self.now.n) words.old }
    {
        for i in 0..self.n {
            // One by one: a copy of all three waits until they are stored, which makes reading 96 rows a quarter slower.
            let [c, d, t] = self.row_words(i);
            words[3 * i] = c;
            words[3 * i + 1] = d;
            words[3 * i + 2] = t;
        }
    }

    pub(crate) fn m(&self) -> u32
        ensures { result ≡ get_or self.now.bytes.now 3 0 }
    {
        u32::from(self.bytes[3])
    }

    // The verdict that stands in block 0.
    pub(crate) fn verdict(&self) -> Verdict
        ensures { result ≡ verdict_of self.now.bytes.now }
    {
        let high = u32::from_le_bytes(bytes::taken(self.bytes, 110));
        Verdict {
            kind: u32::from(self.bytes[5]),
            order: bytes::taken(self.bytes, 6),
            group: Set {
                low: u64::from_le_bytes(bytes::taken(self.bytes, 102)),
                high: u64::from(high),
            },
        }
    }
}
