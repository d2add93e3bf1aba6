// The numbers of a case, high byte first.
ghost use Rattle.std.specs.Prelude.{◌≡◌, ◌≤◌};
ghost use Rattle.wire.specs.Numbers.{part_at, byte_at, word_at, long_at, set_at};

use sets::Set;

// How many bytes a case's numbers have room for.
pub(crate) const ROOM: usize = 2048;

// Each number is read at a place. Where the bytes end before it, it is the last that there is room for.
#[derive(Clone, Copy)]
pub struct Numbers {
    pub bytes: [u8; ROOM],
}

impl Numbers {
    // The bytes that each of the others reads, which is a line over them.
    fn part<const N: usize>(&self, at: usize) -> [u8; N]
        requires { N ≤ 2048 }
        ensures { result ≡ part_at N self.now.bytes at }
    {
        let at = at.min(ROOM - N);
        let mut part = [0u8; N];
        part.copy_from_slice(&self.bytes[at..at + N]);
        part
    }

    pub fn byte(&self, at: usize) -> u8
        ensures { result ≡ byte_at self.now.bytes at }
    {
        self.bytes[at.min(ROOM - 1)]
    }

    pub fn word(&self, at: usize) -> u32
        ensures { result ≡ word_at self.now.bytes at }
    {
        u32::from_be_bytes(self.part(at))
    }

    pub fn long(&self, at: usize) -> u64
        ensures { result ≡ long_at self.now.bytes at }
    {
        u64::from_be_bytes(self.part(at))
    }

    pub fn set(&self, at: usize) -> Set
        ensures { result ≡ set_at self.now.bytes at }
    {
        let at = at.min(ROOM - 16);
        Set {
            low: self.long(at),
            high: self.long(at + 8),
        }
    }

    pub fn order(&self, at: usize) -> [u8; 96]
        ensures { result ≡ part_at 96 self.now.bytes at }
    {
        self.part(at)
    }
}
