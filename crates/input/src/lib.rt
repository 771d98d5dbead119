// Reading an input into a lent room.
#![tactic(auto)]

ghost use Rattle.std.specs.Prelude.{◌<◌, ◌≤◌, length, take, IfOk};
ghost use Rattle.std.specs.Io.KnownBytes.{Consumes, IsAtEnd};

use std::io;
use std::io::Read;

// Reads until the room is full or the input ends, and answers how many bytes were read. A reader gives as much as it likes at a time, and
// the library's `read_exact` forgets how much that was where the input ends early.
pub fn read_full<R: Read>(input: &mut R, room: &mut [u8]) -> io::Result<usize>
    ensures within { IfOk result (λ n. n ≤ length room.new) }
    ensures bytes { IfOk result
        (λ n. Consumes (R.remaining input.old) (R.remaining input.new) (take n room.new)) }
    ensures end { IfOk result (λ n. n < length room.new → IsAtEnd (R.remaining input.new)) }
{
    let mut done = 0;
    while done < room.len() {
        match input.read(&mut room[done..])? {
            0 => break,
            n => done += n,
        }
    }
    Ok(done)
}

#[cfg(test)]
mod tests {
    use super::*;
    use std::test::Fail;

    // The second half of each file comes by a read of its own.
    #[test]
    fn fills_a_room_of_four(rt: HostRuntime) -> Result<(), Fail> {
        let halves: [(&[u8], &[u8], &[u8]); 4] = [
            (b"", b"", b""),
            (b"a", b"bc", b"abc"),
            (b"ab", b"cd", b"abcd"),
            (b"abc", b"def", b"abcd"),
        ];
        for (first, second, want) in halves {
            let mut room = [0u8; 4];
            let n = read_full(&mut first.chain(second), &mut room)?;
            assert_eq!(rt; &room[..n], want);
        }
        Ok(())
    }

    #[test]
    fn reads_no_more_than_fits(rt: HostRuntime) -> Result<(), Fail> {
        let mut file: &[u8] = b"abcdef";
        let mut room = [0u8; 4];
        assert_eq!(rt; read_full(&mut file, &mut room)?, 4);
        assert_eq!(rt; &room, b"abcd");
        assert_eq!(rt; file, b"ef".as_slice());
        Ok(())
    }
}
