// Why an answer was refused. Each refusal has one number, and some name the row or the block at fault.
ghost use Rattle.std.specs.Prelude.{◌≡◌};
ghost use Rattle.rows.specs.Refusals.{refusal_number, refusal_row, refusal_block};

use crate::numbers;

#[derive(Clone, Copy, Debug, PartialEq, Eq)]
pub enum Refusal {
    TableLength,
    Cores,
    RowRange(usize),
    Malformed,
    Unsound,
    ShortOutput,
    BookLength,
    BlockNumber(usize),
    BlockCheck(usize),
    Edition,
    BookField,
    Policy,
}

impl Refusal {
    pub fn number(self) -> u32
        ensures { result ≡ refusal_number self }
    {
        match self {
            Refusal::TableLength => numbers::TABLE_LENGTH,
            Refusal::Cores => numbers::CORES,
            Refusal::RowRange(_) => numbers::ROW_RANGE,
            Refusal::Malformed => numbers::MALFORMED,
            Refusal::Unsound => numbers::UNSOUND,
            Refusal::ShortOutput => numbers::SHORT_OUTPUT,
            Refusal::BookLength => numbers::BOOK_LENGTH,
            Refusal::BlockNumber(_) => numbers::BLOCK_NUMBER,
            Refusal::BlockCheck(_) => numbers::BLOCK_CHECK,
            Refusal::Edition => numbers::EDITION,
            Refusal::BookField => numbers::BOOK_FIELD,
            Refusal::Policy => numbers::POLICY,
        }
    }

    // The row at fault; 0 of a refusal that names none, as an answer in numbers has it.
    pub fn row(self) -> usize
        ensures { result ≡ refusal_row self }
    {
        match self {
            Refusal::RowRange(row) => row,
            _ => 0,
        }
    }

    // The block at fault, in the same way.
    pub fn block(self) -> usize
        ensures { result ≡ refusal_block self }
    {
        match self {
            Refusal::BlockNumber(block) | Refusal::BlockCheck(block) => block,
            _ => 0,
        }
    }
}
