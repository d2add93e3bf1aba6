// The blocks of a book, each stored from its number to its check.
ghost use Rattle.std.specs.Prelude.{◌≡◌, List, ℕ, ◌+◌, ◌-◌, ◌*◌, ◌/◌, ◌%◌, ◌≤◌, ◌<◌, length, get_or, take, drop};
ghost use Rattle.sets.specs.Sets.{word};
ghost use Rattle.book.specs.Bytes.{byte, check_of, run};
ghost use Rattle.book.specs.Heads.{said};
ghost use Rattle.book.specs.Layout.{edition_one, Content, sealed};
ghost use Rattle.book.specs.Parts.{stored};

use crate::bytes;
use crate::reading::Book;
use sets::Set;

fn store_check(block: &mut [u8; 512])
    ensures { block.new ≡ stored 510 2 (λ t. byte (1 - t) (check_of (λ p. get_or block.old p 0))) block.old }
{
    let check = !bytes::block_sum(block);
    bytes::store(block, 510, &check.to_be_bytes());
}

fn store_group(block: &mut [u8; 512], group: Set)
    ensures { block.new ≡ stored 102 12 (λ t. byte t (word group)) block.old }
{
    bytes::store(block, 102, &group.low.to_le_bytes());
    bytes::store(block, 110, &group.high.to_le_bytes()[..4]);
}

// Block 0.
pub(crate) fn store_head(block: &mut [u8; 512], book: &Book)
    requires { (book.now.m < 256) × (book.now.n < 256) × (book.now.verdict.kind < 256) }
    ensures { (words : List ℕ) → block.new ≡ run 0 512 (sealed edition_one (said book.now words) 0) }
{
    let verdict = &book.verdict;
    bytes::store(block, 0, &0u16.to_be_bytes());
    bytes::store(
        block,
        2,
        &[1, book.m as u8, book.n as u8, verdict.kind as u8],
    );
    bytes::store(block, 6, &verdict.order);
    store_group(block, verdict.group);
    bytes::store_zeros(block, 114, 396);
    store_check(block);
}

// The words behind the number of a block, each by its place: of chunks that are written a proof knows the length alone.
fn store_words(block: &mut [u8; 512], words: &[u32])
    requires { length words.now ≤ 126 }
    ensures { block.new ≡ stored 2 (4 * length words.now) (λ q. byte (3 - q % 4) (get_or words.now (q / 4) 0)) block.old }
{
    for (j, word) in words.iter().enumerate() {
        bytes::store(block, 2 + 4 * j, &word.to_be_bytes());
    }
}

// The words of row block k, which is block k + 1.
fn store_row_block(block: &mut [u8; 512], words: &[u32], k: usize)
    requires { (k < 65535) × (length words.now ≤ 126) }
    ensures { (x : Content) → words.now ≡ take 126 (drop (126 * k) x.table) → block.new ≡ run 0 512 (sealed edition_one x (k + 1)) }
{
    let number = k as u16 + 1;
    let size = 4 * words.len();
    bytes::store(block, 0, &number.to_be_bytes());
    store_words(block, words);
    bytes::store_zeros(block, 2 + size, 508 - size);
    store_check(block);
}

// Row block k of a table, in its place behind block 0.
pub(crate) fn store_rows(out: &mut [u8], words: &[u32], k: usize)
    requires { (k < 65535) × (126 * k ≤ length words.now) × (512 * (k + 1) + 512 ≤ length out.old) }
    ensures { (x : Content) → x.table ≡ words.now → out.new ≡ stored (512 * (k + 1)) 512 (sealed edition_one x (k + 1)) out.old }
{
    let end = words.len().min(126 * k + 126);
    let (_, rest) = out.split_at_mut(512 * (k + 1));
    store_row_block(rest.first_chunk_mut().unwrap(), &words[126 * k..end], k);
}
