// The parts of an answer, high byte first. An error is the writer's; part of the answer may have been written then.
ghost use Rattle.std.specs.Prelude.{ℕ, List, ◌++◌, OnOk};
ghost use Rattle.std.specs.Io.KnownBytes.{Appends};
ghost use Rattle.wire.specs.Answers.{number_bytes, flag_bytes, set_bytes, words_bytes};
ghost use Rattle.wire.specs.Lists.{words_of, bytes_of};

use crate::lists::{Bytes, Words};
use sets::Set;
use std::io;
use std::io::Write;

pub trait Part {
    // The bytes of the part.
    ghost bytes: { Self → List ℕ };

    fn put<W: Write>(&self, out: &mut W) -> io::Result<()>
        ensures { OnOk result (Appends (W.contents out.old) (W.contents out.new) (bytes self.now)) };
}

// A number is eight bytes, whatever its type.
impl Part for u64 {
    ghost bytes = { number_bytes };

    #[tactic(auto, unfolding(crate::specs::Answers::number_bytes))]
    fn put<W: Write>(&self, out: &mut W) -> io::Result<()> {
        out.write_all(&self.to_be_bytes())
    }
}

impl Part for u32 {
    ghost bytes = { number_bytes };

    fn put<W: Write>(&self, out: &mut W) -> io::Result<()> {
        u64::from(*self).put(out)
    }
}

impl Part for usize {
    ghost bytes = { number_bytes };

    fn put<W: Write>(&self, out: &mut W) -> io::Result<()> {
        (*self as u64).put(out)
    }
}

impl Part for bool {
    ghost bytes = { flag_bytes };

    fn put<W: Write>(&self, out: &mut W) -> io::Result<()> {
        u64::from(*self).put(out)
    }
}

impl Part for [u8; 96] {
    ghost bytes = { λ order. order };

    fn put<W: Write>(&self, out: &mut W) -> io::Result<()> {
        out.write_all(self)
    }
}

impl Part for Bytes {
    ghost bytes = { bytes_of };

    fn put<W: Write>(&self, out: &mut W) -> io::Result<()> {
        out.write_all(self.as_slice())
    }
}

// A word of a list is four bytes.
impl Part for Words {
    ghost bytes = { λ words. words_bytes (words_of words) };

    fn put<W: Write>(&self, out: &mut W) -> io::Result<()> {
        for word in self.as_slice() {
            out.write_all(&word.to_be_bytes())?;
        }
        Ok(())
    }
}

impl Part for Set {
    ghost bytes = { set_bytes };

    fn put<W: Write>(&self, out: &mut W) -> io::Result<()> {
        (self.low, self.high).put(out)
    }
}

// Two parts in a row.
impl<A: Part, B: Part> Part for (A, B) {
    ghost bytes = { λ pair. A.bytes pair.0 ++ B.bytes pair.1 };

    fn put<W: Write>(&self, out: &mut W) -> io::Result<()> {
        self.0.put(out)?;
        self.1.put(out)
    }
}
