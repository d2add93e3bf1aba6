// Examines the public functions: cases on standard input, answers on standard output, as docs/EXAM.md says.
// A kind is a variant, a line in `of`, `shape` and `answer` each, and a function that calls what is examined and writes its
// answer.
#![tactic(auto)]

use std::io;
use std::io::{Read, Write};
use wire::case;
use wire::case::{Case, Shape, Stop};

mod books;
mod table;
mod told;

// The most bytes of a list.
const LIST: usize = 4096;

#[derive(Clone, Copy, Debug, PartialEq, Eq)]
enum Kind {
    Test,
    Search,
    Step,
    Policy,
    CheckOrder,
    CheckGroup,
    WriteBook,
    ReadBook,
}

impl Kind {
    // No `TryFrom`: an unknown kind is no error but the end of the cases.
    fn of(number: u8) -> Option<Kind> {
        match number {
            1 => Some(Kind::Test),
            2 => Some(Kind::Search),
            3 => Some(Kind::Step),
            4 => Some(Kind::Policy),
            5 => Some(Kind::CheckOrder),
            6 => Some(Kind::CheckGroup),
            7 => Some(Kind::WriteBook),
            8 => Some(Kind::ReadBook),
            _ => None,
        }
    }

    // The parts of its cases.
    fn shape(self) -> Shape {
        match self {
            Kind::Test => over(24, 0, 0),
            Kind::Search => over(4, LIST, 0),
            Kind::Step => over(124, 0, 0),
            Kind::Policy => over(8, LIST, 0),
            Kind::CheckOrder => over(4, LIST, 0),
            Kind::CheckGroup => over(20, 0, 0),
            Kind::WriteBook => over(117, LIST, 0),
            Kind::ReadBook => Shape {
                table: false,
                numbers: 0,
                list: LIST,
                after: 0,
                room: true,
            },
        }
    }

    fn answer<W: Write>(self, out: &mut W, case: &mut Case) -> io::Result<()> {
        match self {
            Kind::Test => table::test(out, case),
            Kind::Search => table::search(out, case),
            Kind::Step => table::step(out, case),
            Kind::Policy => table::policy(out, case),
            Kind::CheckOrder => table::check_order(out, case),
            Kind::CheckGroup => table::check_group(out, case),
            Kind::WriteBook => books::write(out, case),
            Kind::ReadBook => books::read(out, case),
        }
    }
}

// A case over a table: so many bytes of numbers, a list of at most so many bytes, so many bytes of numbers after it.
fn over(numbers: usize, list: usize, after: usize) -> Shape {
    Shape {
        table: true,
        numbers,
        list,
        after,
        room: false,
    }
}

fn one_case<R: Read, W: Write>(input: &mut R, out: &mut W) -> Result<(), Stop> {
    let kind = Kind::of(case::kind(input)?).ok_or(Stop::End)?;
    let mut case = case::read(input, kind.shape())?;
    kind.answer(out, &mut case).map_err(Stop::Error)
}

// Cases until one is the last, which no input has more of than the bound. Each answer is written before the next case is read.
fn main(rt: HostRuntime) -> io::Result<()> {
    let mut input = rt.reader();
    let mut out = io::writer(&rt);
    for _ in 0..u64::MAX {
        match one_case(&mut input, &mut out) {
            Ok(()) => {}
            Err(Stop::End) => break,
            Err(Stop::Error(e)) => return Err(e),
        }
    }
    Ok(())
}
