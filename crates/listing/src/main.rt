// Reads a book from standard input and writes its listing. One byte more than the longest book is read, so that a longer one is seen.
#![tactic(auto)]

ghost use Rattle.std.specs.Io.{ReadsAtMost};

use std::io;
use std::io::Read;

// Reads until the bytes are full or the input ends, and says how many it read.
fn read_full<R: Read>(input: &mut R, bytes: &mut [u8]) -> io::Result<usize>
    ensures { ReadsAtMost result bytes.new }
{
    let mut done = 0;
    while done < bytes.len() {
        let n = input.read(&mut bytes[done..])?;
        if n == 0 {
            break;
        }
        done += n;
    }
    Ok(done)
}

fn main(rt: HostRuntime) -> io::Result<()> {
    let mut book = [0u8; 2049];
    let size = read_full(&mut rt.reader(), &mut book)?;
    let mut text = [0u8; 8192];
    let end = report::list(&book[..size], &mut text);
    rt.write_all(&text[..end])
}
