// Big-endian numbers of so many bytes, read from a slice and written into one, byte by byte: the library's from_be_bytes has no three bytes. A
// slice comes with an offset, since offsets are what a reading reports.
#![tactic(auto)]

ghost use Rattle.std.specs.Prelude.{◌≡◌, ◌+◌, ◌≤◌, length};
ghost use Rattle.std.proofs.lemmas.List.Edits.{sets};
ghost use Rattle.numbers.specs.Big.{be};
ghost use Rattle.numbers.specs.Read.{Read};

// The number of the N bytes of s from an index on: eight fit a usize.
pub fn read<const N: usize>(s: &[u8], at: usize) -> usize
    requires width { N ≤ 8 }
    requires within { at + N ≤ length s.now }
    ensures { Read N s.now at result }
{
    let mut n = 0;
    for x in &s[at..at + N] {
        n = n * 256 + *x as usize;
    }
    n
}

// The low N bytes of n go to out from an index on; what stands elsewhere stays.
pub fn put<const N: usize>(out: &mut [u8], at: usize, n: usize)
    requires { at + N ≤ length out.old }
    ensures { out.new ≡ sets out.old at (be N n) }
{
    let mut left = n;
    for i in (0..N).rev() {
        out[at + i] = (left % 256) as u8;
        left /= 256;
    }
}
