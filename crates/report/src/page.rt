// Text put on a page.
ghost use Rattle.std.specs.Prelude.{◌≡◌};
ghost use Rattle.report.specs.Text.{decimal, field};
ghost use Rattle.report.specs.Page.{put, put_byte};

// A lent output, and where the next byte goes: what passes its end is left out, and counted all the same.
#[derive(Drop)]
pub(crate) struct Page<'a> {
    pub(crate) out: &'a mut [u8],
    pub(crate) end: usize,
}

// Not by `write!`: by its contract that may answer `Err`, and says nothing of the text then.
impl Page<'_> {
    pub(crate) fn byte(&mut self, byte: u8)
        ensures { self.new ≡ put_byte self.old byte }
    {
        if self.end < self.out.len() {
            self.out[self.end] = byte;
        }
        self.end = self.end.saturating_add(1);
    }

    pub(crate) fn text(&mut self, text: &[u8])
        ensures { self.new ≡ put self.old text.now }
    {
        for &byte in text {
            self.byte(byte);
        }
    }

    // The shortest decimal digits of n.
    #[tactic(auto, using(std::proofs::lemmas::Grind::common_steps, crate::specs::TextLaws::decimal_one, crate::specs::TextLaws::decimal_more))]
    pub(crate) fn decimal(&mut self, n: u64)
        ensures { self.new ≡ put self.old (decimal n) }
    {
        if n >= 10 {
            self.decimal(n / 10);
        }
        self.byte(b'0' + (n % 10) as u8);
    }

    pub(crate) fn field(&mut self, name: &[u8], n: u64)
        ensures { self.new ≡ put self.old (field name.now n) }
    {
        self.text(name);
        self.decimal(n);
    }
}
