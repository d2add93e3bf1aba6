// The entry for host tools, as C calls it.
#![tactic(auto)]

ghost use Rattle.std.specs.Prelude.{◌≡◌, length};
ghost use Rattle.host.specs.Host.{host_number, host_into};

// Reads a book, searches its table whatever verdict it holds, and writes the same table with the search's verdict:
// 0 with an order, 4 with a blocked group. Later bytes stay. Every other number is a refusal that writes nothing.
#[unsafe(no_mangle)]
pub extern "C" fn heralinda_search(book: &[u8], out: &mut [u8]) -> u32
    ensures number { result ≡ host_number book.now (length out.old) }
    ensures bytes { out.new ≡ host_into book.now out.old }
{
    host::heralinda_search(book, out)
}
