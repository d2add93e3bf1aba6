// Answers in numbers, as the definitions `told_..` have them: what stands before a buffer, in the sequence of the exam.
ghost use Rattle.std.specs.Prelude.{◌≡◌};
ghost use Rattle.rows.specs.Refusals.{refusal_number, refusal_row};
ghost use Rattle.test.specs.Told.{told_test};
ghost use Rattle.search.specs.Told.{told_number, told_row, told_group as told_stranded};
ghost use Rattle.policy.specs.Told.{told_proposal};
ghost use Rattle.audit.specs.Told.{told_order, told_group};
ghost use Rattle.book.specs.Told.{told_write, told_read};

use audit::Failing;
use book::{Book, Verdict};
use rows::Refusal;
use rows::numbers::{BLOCKED, DONE, MEMBER_PASSES, ORDER_FAILS, UNFINISHED};
use search::Outcome;
use sets::Set;
use test::Tested;

// How an answer begins: its number, and the row that goes with it.
pub(crate) type Head = (u32, usize);

fn refused(why: Refusal) -> Head
    ensures { (result.0 ≡ refusal_number why) × (result.1 ≡ refusal_row why) }
{
    (why.number(), why.row())
}

// Passes, used.
pub(crate) fn tested(answer: Result<Tested, Refusal>) -> (Head, (bool, u64))
    ensures head { let told = told_test answer in (result.0.0 ≡ told.number) × (result.0.1 ≡ told.row) }
    ensures rest { let told = told_test answer in (result.1.0 ≡ told.passes) × (result.1.1 ≡ told.used) }
{
    match answer {
        Ok(tested) => ((DONE, 0), (tested.passes, tested.used)),
        Err(why) => (refused(why), (false, 0)),
    }
}

// The blocked group. The tests and the state of a step stand beside its answer.
pub(crate) fn stepped(answer: Result<Outcome, Refusal>) -> (Head, Set)
    ensures head { (result.0.0 ≡ told_number answer) × (result.0.1 ≡ told_row answer) }
    ensures group { result.1 ≡ told_stranded answer }
{
    match answer {
        Ok(Outcome::Order) => ((DONE, 0), Set::NONE),
        Ok(Outcome::Blocked(group)) => ((BLOCKED, 0), group),
        Ok(Outcome::Unfinished) => ((UNFINISHED, 0), Set::NONE),
        Err(why) => (refused(why), Set::NONE),
    }
}

// A proposal, or a book that is written.
pub(crate) fn stored(answer: Result<(), Refusal>) -> Head
    ensures proposed { let told = told_proposal answer in (result.0 ≡ told.number) × (result.1 ≡ told.row) }
    ensures written { let told = told_write answer in (result.0 ≡ told.number) × (result.1 ≡ told.row) }
{
    match answer {
        Ok(()) => (DONE, 0),
        Err(why) => refused(why),
    }
}

// The level that fails, its used.
pub(crate) fn order_checked(answer: Result<Option<Failing>, Refusal>) -> (Head, (usize, u64))
    ensures head { let told = told_order answer in (result.0.0 ≡ told.number) × (result.0.1 ≡ told.row) }
    ensures rest { let told = told_order answer in (result.1.0 ≡ told.level) × (result.1.1 ≡ told.used) }
{
    match answer {
        Ok(None) => ((DONE, 0), (0, 0)),
        Ok(Some(failing)) => ((ORDER_FAILS, 0), (failing.level, failing.used)),
        Err(why) => (refused(why), (0, 0)),
    }
}

pub(crate) fn group_checked(answer: Result<Option<usize>, Refusal>) -> Head
    ensures { let told = told_group answer in (result.0 ≡ told.number) × (result.1 ≡ told.row) }
{
    match answer {
        Ok(None) => (DONE, 0),
        Ok(Some(row)) => (MEMBER_PASSES, row),
        Err(why) => refused(why),
    }
}

// The block at fault; m, n and the verdict. A refused book has no verdict, and no order.
pub(crate) fn book_read(answer: Result<Book, Refusal>) -> ((Head, usize), Book)
    ensures head { let told = told_read answer in (result.0.0.0 ≡ told.number) × (result.0.0.1 ≡ told.row) }
    ensures block { result.0.1 ≡ (told_read answer).block }
    ensures book { let told = told_read answer in (result.1.m ≡ told.m) × (result.1.n ≡ told.n) }
    ensures verdict { result.1.verdict ≡ (told_read answer).verdict }
{
    match answer {
        Ok(book) => (((DONE, 0), 0), book),
        Err(why) => {
            let verdict = Verdict {
                kind: 0,
                order: [255; 96],
                group: Set::NONE,
            };
            (
                (refused(why), why.block()),
                Book {
                    m: 0,
                    n: 0,
                    verdict,
                },
            )
        }
    }
}
