// The parts of a case. Where one cannot be read, nothing more is read; part of the input may have been read then.
ghost use Rattle.std.specs.Prelude.{◌≡◌, ℕ, ◌*◌, ◌<◌, ◌≤◌, [], ◌∷◌, length, take, drop, slice_index, IfOk, OnOk};
ghost use Rattle.wire.specs.Cases.{Reads, count_bytes, byte_list_bytes, word_list_bytes, most_words, case_bytes, IsOfShape};
ghost use Rattle.wire.specs.Answers.{words_bytes};
ghost use Rattle.wire.specs.Lists.{words_of};

use crate::lists::{Bytes, WORDS, Words};
use crate::numbers::{Numbers, ROOM};
use std::io;
use std::io::{ErrorKind, Read};

// Which parts a case has, in this order: a table; so many bytes of numbers; a list of at most so many bytes, none with 0;
// so many bytes of numbers after it; output words. The table and the output are there or not, and nothing
// more; a list of at most 0 bytes is none.
#[derive(Clone, Copy)]
pub struct Shape {
    pub table: bool,
    pub numbers: usize,
    pub list: usize,
    pub after: usize,
    pub room: bool,
}

// The numbers after the list stand behind those before it.
#[derive(Clone, Copy)]
pub struct Case {
    pub table: Words,
    pub numbers: Numbers,
    pub list: Bytes,
    pub room: Words,
}

// Why there is no further case: the input ends, before it or within it, or a part of it is too long; or an error, which the
// functions below answer as the reader gave it, and never for the input's end.
#[derive(Clone, Copy, Debug)]
pub enum Stop {
    End,
    Error(io::Error),
}

// Reads so many bytes to the front of those lent; where they have no room, as many as there is room for, so that a case that is
// too long is read as far as it always was.
fn fill<R: Read>(input: &mut R, bytes: &mut [u8], size: usize) -> Result<(), Stop>
    ensures read { Reads R.remaining input.old input.new result (λ _. take size bytes.new) }
    ensures room { OnOk result (size ≤ length bytes.new) }
    ensures bytes { (k : ℕ) → slice_index bytes.new k < 256 }
    ensures behind { drop size bytes.new ≡ drop size bytes.old }
{
    let n = size.min(bytes.len());
    match input.read_exact(&mut bytes[..n]) {
        Ok(()) if n == size => Ok(()),
        Ok(()) => Err(Stop::End),
        Err(e) if e.kind() == ErrorKind::UnexpectedEof => Err(Stop::End),
        Err(e) => Err(Stop::Error(e)),
    }
}

// How many elements the next list has, at most `most`; none where `most` is 0, and the case has no such list.
#[tactic(auto, using(std::proofs::lemmas::Nat::be_bytes_2))]
fn count<R: Read>(input: &mut R, most: usize) -> Result<usize, Stop>
    ensures read { Reads R.remaining input.old input.new result (count_bytes most) }
    ensures most { IfOk result (λ n. n ≤ most) }
{
    if most == 0 {
        return Ok(0);
    }
    let mut bytes = [0u8; 2];
    fill(input, &mut bytes, 2)?;
    let n = u16::from_be_bytes(bytes) as usize;
    if most < n {
        return Err(Stop::End);
    }
    Ok(n)
}

fn byte_list<R: Read>(input: &mut R, most: usize) -> Result<Bytes, Stop>
    ensures read { Reads R.remaining input.old input.new result (byte_list_bytes most) }
    ensures most { IfOk result (λ list. list.n ≤ most) }
{
    let n = count(input, most)?;
    let mut bytes = [0; 4200];
    fill(input, &mut bytes, n)?;
    Ok(Bytes { bytes, n })
}

// The first n words, whose bytes these are.
fn words(bytes: &[u8; 4 * WORDS], n: usize) -> Words
    requires { n ≤ 512 }
    ensures len { result.n ≡ n }
    ensures words { words_bytes (words_of result) ≡ take (4 * n) bytes.now }
{
    let mut words = [0; WORDS];
    let (quads, _) = bytes.as_chunks::<4>();
    for i in 0..n {
        words[i] = u32::from_be_bytes(quads[i]);
    }
    Words { words, n }
}

fn word_list<R: Read>(input: &mut R, is_there: bool) -> Result<Words, Stop>
    ensures read { Reads R.remaining input.old input.new result (word_list_bytes is_there) }
    ensures most { IfOk result (λ list. list.n ≤ most_words is_there) }
{
    let n = count(input, if is_there { WORDS } else { 0 })?;
    let mut bytes = [0; 4 * WORDS];
    fill(input, &mut bytes, 4 * n)?;
    Ok(words(&bytes, n))
}

// The first byte of a case, its kind.
pub fn kind<R: Read>(input: &mut R) -> Result<u8, Stop>
    ensures { Reads R.remaining input.old input.new result (λ kind. kind ∷ []) }
{
    let mut kind = [0u8; 1];
    fill(input, &mut kind, 1)?;
    Ok(kind[0])
}

pub fn read<R: Read>(input: &mut R, shape: Shape) -> Result<Case, Stop>
    ensures read { Reads R.remaining input.old input.new result (case_bytes shape) }
    ensures shape { IfOk result (IsOfShape shape) }
{
    let table = word_list(input, shape.table)?;
    let mut numbers = [0u8; ROOM];
    fill(input, &mut numbers, shape.numbers)?;
    let list = byte_list(input, shape.list)?;
    fill(input, &mut numbers[shape.numbers..], shape.after)?;
    let room = word_list(input, shape.room)?;
    Ok(Case {
        table,
        numbers: Numbers { bytes: numbers },
        list,
        room,
    })
}
