// The size of a book.
ghost use Rattle.std.specs.Prelude.{◌≡◌, ◌+◌, ◌*◌, ◌≤◌};
ghost use Rattle.book.specs.Layout.{edition_one, blocks};

// How many blocks n rows take, 42 to a block.
pub(crate) fn row_blocks(n: usize) -> usize
    ensures { 1 + result ≡ blocks edition_one n }
{
    n.div_ceil(42)
}

// The bytes of a book of n rows. A type of its own for a count of at most 96, which the form of a verdict asks for too, would be no plainer.
pub(crate) fn size(n: usize) -> usize
    requires { n ≤ 96 }
    ensures { result ≡ 512 * blocks edition_one n }
{
    512 * (1 + row_blocks(n))
}
