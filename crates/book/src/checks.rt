// The checks of reading, in their order.
ghost use Rattle.std.specs.Prelude.{◌≡◌, ◌&&◌, ◌+◌, ◌*◌, ◌≤◌, ◌<◌, ◌++◌, eqb, length, get_or, IfOk};
ghost use Rattle.sets.specs.Sums.{some_below};
ghost use Rattle.book.specs.Bytes.{big, check_of};
ghost use Rattle.book.specs.Fault.{fault_of, told_fault};
ghost use Rattle.book.specs.Form.{formed as formed_of};
ghost use Rattle.book.specs.Layout.{edition_one};
ghost use Rattle.book.specs.Read.{whole as whole_of, content, verdict_of, lowest_bad, block_checks, head_checks, body_checks};
ghost use Rattle.book.specs.Spare.{zero_block, zeros};

use crate::fields::Known;
use crate::{bytes, layout};
use rows::Refusal;

// The two bytes at the start of the block say that it is block k.
#[tactic(auto, unfolding(crate::specs::Bytes::run))]
fn numbered(block: &[u8; 512], k: usize) -> bool
    ensures { result ≡ eqb (big 2 (λ t. get_or block.now t 0)) k }
{
    usize::from(u16::from_be_bytes(bytes::taken(block, 0))) == k
}

// The block ends in its check.
#[tactic(auto, unfolding(crate::specs::Bytes::run, crate::specs::Bytes::check_of))]
fn checked(block: &[u8; 512]) -> bool
    ensures { result ≡ eqb (big 2 (λ t. get_or block.now (510 + t) 0)) (check_of (λ p. get_or block.now p 0)) }
{
    u16::from_be_bytes(bytes::taken(block, 510)) == !bytes::block_sum(block)
}

// The length is that of one to four blocks.
#[tactic(auto, unfolding(crate::specs::Read::whole))]
fn whole(book: &[u8]) -> bool
    ensures { result ≡ whole_of book.now }
{
    book.len() % 512 == 0 && (1..=4).contains(&(book.len() / 512))
}

// 9, 10 and 11.
fn check_blocks(book: &[u8]) -> Result<(), Refusal>
    ensures { told_fault result ≡ fault_of (block_checks book.now) }
{
    if !whole(book) {
        return Err(Refusal::BookLength);
    }
    let (blocks, _) = book.as_chunks();
    for (k, block) in blocks.iter().enumerate() {
        if !numbered(block, k) {
            return Err(Refusal::BlockNumber(k));
        }
        if !checked(block) {
            return Err(Refusal::BlockCheck(k));
        }
    }
    Ok(())
}

// 12, 2, 1, and 9 for n.
#[tactic(auto, unfolding(crate::specs::Read::head_checks, crate::specs::Read::content))]
fn check_head(book: &[u8]) -> Result<(), Refusal>
    requires { 512 ≤ length book.now }
    ensures { told_fault result ≡ fault_of (head_checks edition_one (content edition_one book.now) book.now) }
{
    if book[2] != 1 {
        return Err(Refusal::Edition);
    }
    if !(1..=32).contains(&book[3]) {
        return Err(Refusal::Cores);
    }
    let n = usize::from(book[4]);
    if 96 < n {
        return Err(Refusal::TableLength);
    }
    if book.len() != layout::size(n) {
        return Err(Refusal::BookLength);
    }
    Ok(())
}

impl<'a> Known<'a> {
    // A book whose blocks and head are right.
    pub(crate) fn of(bytes: &'a [u8]) -> Result<Known<'a>, Refusal>
        ensures fault { told_fault result ≡ fault_of (block_checks bytes.now ++ head_checks edition_one (content edition_one bytes.now) bytes.now) }
        ensures lent { IfOk result (λ known. known.bytes.now ≡ bytes.now) }
    {
        check_blocks(bytes)?;
        check_head(bytes)?;
        Ok(Known {
            bytes,
            n: usize::from(bytes[4]),
        })
    }

    // Row block k is zero behind its words.
    fn rows_blank(&self, k: usize) -> bool
        requires { 42 * k < self.now.n }
        ensures { result ≡ zero_block edition_one self.now.n self.now.bytes.now (k + 1) }
    {
        let at = 512 * (k + 1);
        let words = (3 * self.n - 126 * k).min(126);
        bytes::all_are(&self.bytes[at + 2 + 4 * words..at + 510], 0)
    }

    // Every spare byte is zero.
    fn all_zero(&self) -> bool
        ensures { result ≡ zeros edition_one self.now.n self.now.bytes.now }
    {
        bytes::all_are(&self.bytes[114..510], 0)
            && (0..layout::row_blocks(self.n)).all(|k| self.rows_blank(k))
    }

    // Every spare byte is zero, and the verdict has its form.
    fn fields_fit(&self) -> bool
        ensures { result ≡ formed_of self.now.n (verdict_of self.now.bytes.now) && zeros edition_one self.now.n self.now.bytes.now }
    {
        self.all_zero() && self.verdict().formed(self.n)
    }

    // The lowest row that breaks its range.
    fn lowest_bad(&self) -> Option<usize>
        ensures { result ≡ some_below (lowest_bad edition_one (content edition_one self.now.bytes.now)) self.now.n }
    {
        (0..self.n).find(|&i| self.row(i).is_none())
    }

    // 13, 3 and 8.
    pub(crate) fn check_body(&self, room: usize) -> Result<(), Refusal>
        ensures { told_fault result ≡ fault_of (body_checks edition_one (content edition_one self.now.bytes.now) self.now.bytes.now room) }
    {
        if !self.fields_fit() {
            return Err(Refusal::BookField);
        }
        if let Some(row) = self.lowest_bad() {
            return Err(Refusal::RowRange(row));
        }
        if room < 3 * self.n {
            return Err(Refusal::ShortOutput);
        }
        Ok(())
    }
}
