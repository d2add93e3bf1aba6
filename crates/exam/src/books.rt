// Answers to cases over books.
use crate::told;
use book::Verdict;
use std::io;
use std::io::Write;
use wire::answer::Part;
use wire::case::Case;
use wire::numbers::Numbers;

// Kind 7. Numbers: m, the verdict. List: the output.
pub(crate) fn write<W: Write>(out: &mut W, case: &mut Case) -> io::Result<()> {
    let m = case.numbers.word(0);
    let n = case.list.n;
    let list = &mut case.list.bytes[..];
    let answer = book::write(
        case.table.as_slice(),
        m,
        verdict(&case.numbers),
        &mut list[..n],
    );
    told::stored(answer).put(out)?;
    case.list.put(out)
}

fn verdict(numbers: &Numbers) -> Verdict {
    Verdict {
        kind: u32::from(numbers.byte(4)),
        order: numbers.order(5),
        group: numbers.set(101),
    }
}

// Kind 8. List: the book. Room: the words read.
pub(crate) fn read<W: Write>(out: &mut W, case: &mut Case) -> io::Result<()> {
    let n = case.room.n;
    let room = &mut case.room.words[..];
    let answer = book::read(case.list.as_slice(), &mut room[..n]);
    let (head, book) = told::book_read(answer);
    let said = book.verdict;
    head.put(out)?;
    (book.m, book.n).put(out)?;
    (said.kind, said.group).put(out)?;
    said.order.put(out)?;
    case.room.put(out)
}
