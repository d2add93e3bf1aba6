// Answers to cases over a table.
use crate::told;
use search::{Found, State};
use std::io;
use std::io::Write;
use wire::answer::Part;
use wire::case::Case;
use wire::numbers::Numbers;

// Kind 1. Numbers: m, row k, the set above it.
pub(crate) fn test<W: Write>(out: &mut W, case: &Case) -> io::Result<()> {
    let m = case.numbers.word(0);
    let k = case.numbers.word(4) as usize;
    let answer = test::test_row(case.table.as_slice(), m, k, case.numbers.set(8));
    told::tested(answer).put(out)
}

// Kind 2. Numbers: m. List: the output.
pub(crate) fn search<W: Write>(out: &mut W, case: &mut Case) -> io::Result<()> {
    let m = case.numbers.word(0);
    let n = case.list.n;
    let list = &mut case.list.bytes[..];
    let found = Found::from(search::search(case.table.as_slice(), m, &mut list[..n]));
    ((found.number, found.row), (found.group, found.tests)).put(out)?;
    case.list.put(out)
}

// Kind 3. Numbers: m, the state, the quota.
pub(crate) fn step<W: Write>(out: &mut W, case: &Case) -> io::Result<()> {
    let m = case.numbers.word(0);
    let quota = case.numbers.long(116);
    let stepped = search::step(case.table.as_slice(), m, state(&case.numbers), quota);
    (told::stepped(stepped.answer), stepped.tests).put(out)?;
    let next = stepped.state;
    next.order.put(out)?;
    (next.placed, next.cursor).put(out)
}

fn state(numbers: &Numbers) -> State {
    State {
        order: numbers.order(4),
        placed: numbers.long(100) as usize,
        cursor: numbers.long(108) as usize,
    }
}

// Kind 4. Numbers: m, the policy. List: the output.
pub(crate) fn policy<W: Write>(out: &mut W, case: &mut Case) -> io::Result<()> {
    let m = case.numbers.word(0);
    let policy = case.numbers.word(4);
    let n = case.list.n;
    let list = &mut case.list.bytes[..];
    let answer = policy::propose(case.table.as_slice(), m, policy, &mut list[..n]);
    told::stored(answer).put(out)?;
    case.list.put(out)
}

// Kind 5. Numbers: m. List: the order.
pub(crate) fn check_order<W: Write>(out: &mut W, case: &Case) -> io::Result<()> {
    let m = case.numbers.word(0);
    let answer = audit::check_order(case.table.as_slice(), m, case.list.as_slice());
    told::order_checked(answer).put(out)
}

// Kind 6. Numbers: m, the group.
pub(crate) fn check_group<W: Write>(out: &mut W, case: &Case) -> io::Result<()> {
    let m = case.numbers.word(0);
    let answer = audit::check_group(case.table.as_slice(), m, case.numbers.set(4));
    told::group_checked(answer).put(out)
}
