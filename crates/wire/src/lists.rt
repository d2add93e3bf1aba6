// Lists, each at the start of a buffer of its own, so that a case is copied like any value.
ghost use Rattle.std.specs.Prelude.{◌≤◌};

// The most words of a list.
pub(crate) const WORDS: usize = 512;

// A list of words.
#[derive(Clone, Copy)]
pub struct Words {
    pub words: [u32; WORDS],
    pub n: usize,
    pub ghost fits: { n ≤ 512 },
}

impl Words {
    ghost use Rattle.std.specs.Prelude.{◌≡◌};
    ghost use Rattle.wire.specs.Lists.{words_of};

    pub fn as_slice(&self) -> &[u32]
        ensures { result.now ≡ words_of self.now }
    {
        &self.words[..self.n]
    }
}

// A list of bytes. How long it may be, a kind's shape says.
#[derive(Clone, Copy)]
pub struct Bytes {
    pub bytes: [u8; 4200],
    pub n: usize,
    pub ghost fits: { n ≤ 4200 },
}

impl Bytes {
    ghost use Rattle.std.specs.Prelude.{◌≡◌};
    ghost use Rattle.wire.specs.Lists.{bytes_of};

    pub fn as_slice(&self) -> &[u8]
        ensures { result.now ≡ bytes_of self.now }
    {
        &self.bytes[..self.n]
    }
}
