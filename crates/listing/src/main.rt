// Prints the listing of the file on standard input.
#![tactic(auto)]

ghost use Rattle.text.specs.Laid.{Laid, Fits};
ghost use Rattle.text.specs.Text.{file_text};
ghost use Rattle.listing.specs.Printed.{printed};

use format::Row;
use std::io;
use text::LONGEST;

// Writes the listing of a file into `out`.
fn list(file: &[u8], out: &mut [u8]) -> Option<usize>
    ensures laid { Laid (file_text file.now) out.old out.new result }
    ensures fits { Fits out.old result }
{
    let mut room = [Row::default(); 256];
    let reading = rows::read(file, &mut room);
    text::put_listing(out, reading, &room)
}

// Writes what is printed of an input into `out`.
#[tactic(auto, unfolding(crate::specs::Printed::printed))]
fn print(input: &[u8], out: &mut [u8]) -> Option<usize>
    ensures laid { Laid (printed input.now) out.old out.new result }
    ensures fits { Fits out.old result }
{
    if 65536 < input.len() {
        return text::put_unread(out);
    }
    list(input, out)
}

// One byte more than the longest file that is listed shows that the input is longer, and no further byte is read. Fixed rooms: no heap.
fn main(rt: HostRuntime) -> io::Result<()> {
    let mut space = [0u8; 65537];
    let n = input::read_full(&mut rt.stdin(), &mut space)?;
    let mut out = [0u8; LONGEST];
    let k = print(&space[..n], &mut out).unwrap();
    rt.write_all(&out[..k])
}
