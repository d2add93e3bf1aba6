// Bytes taken and stored, and the sum of RFC 1071.
ghost use Rattle.std.specs.Prelude.{◌≡◌, ◌+◌, ◌≤◌, eqb, length, get_or};
ghost use Rattle.book.specs.Bytes.{all, run, sum16};
ghost use Rattle.book.specs.Parts.{carried as carried_of, stored};

// The N bytes from `at` on.
#[tactic(auto, using(crate::specs::ByteLaws::run_part))]
pub(crate) fn taken<const N: usize>(bytes: &[u8], at: usize) -> [u8; N]
    requires { at + N ≤ length bytes.now }
    ensures { result ≡ run at N (λ i. get_or bytes.now i 0) }
{
    bytes[at..at + N].try_into().unwrap()
}

// Stores bytes from `at` on.
#[tactic(auto, using(crate::specs::PartsLaws::stored_part))]
pub(crate) fn store(out: &mut [u8], at: usize, part: &[u8])
    requires { at + length part.now ≤ length out.old }
    ensures { out.new ≡ stored at (length part.now) (λ t. get_or part.now t 0) out.old }
{
    out[at..at + part.len()].copy_from_slice(part);
}

// Stores n zeros from `at` on.
pub(crate) fn store_zeros(out: &mut [u8], at: usize, n: usize)
    requires { at + n ≤ length out.old }
    ensures { out.new ≡ stored at n (λ t. 0) out.old }
{
    out[at..at + n].fill(0);
}

// Every byte is this one. No early exit, so that the compiler takes many at once: `all` takes 30 times as long.
pub(crate) fn all_are(bytes: &[u8], value: u8) -> bool
    ensures { result ≡ all (length bytes.now) (λ t. eqb (get_or bytes.now t 0) value) }
{
    bytes
        .iter()
        .fold(true, |same, byte| same & (*byte == value))
}

// A plain sum of words, its carries out of 16 bits added at the low end.
#[tactic(auto, using(crate::specs::ByteLaws::carried_some), unfolding(crate::specs::Parts::carried))]
fn carried(sum: u64) -> u16
    ensures { result ≡ carried_of sum }
{
    if sum == 0 {
        return 0;
    }
    (1 + (sum - 1) % 65535) as u16
}

// The ones' complement sum of the 255 words before the check of a block: 127 pairs, and the last.
// A pair is read low byte first, as the processor reads it: 256 times that has each byte where its word has it, but for carries.
// By `map` and `sum` it is not proved that the sum fits.
pub(crate) fn block_sum(block: &[u8; 512]) -> u16
    ensures { result ≡ sum16 255 (λ p. get_or block.now p 0) }
{
    let (pairs, _) = block[..508].as_chunks();
    let mut sum: u64 = 0;
    for pair in pairs {
        sum += u64::from(u32::from_le_bytes(*pair));
    }
    let last = u16::from_be_bytes(taken(block, 508));
    carried(256 * sum + u64::from(last))
}
