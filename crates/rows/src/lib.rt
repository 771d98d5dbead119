// Reading into rows as structs: by value, or into a lent slice, where one thin function stores them once the file is accepted.
#![tactic(auto)]

ghost use Rattle.std.specs.Prelude.{◌≡◌, ◌≤◌, ◌++◌, min, length, drop};
ghost use Rattle.format.specs.Judge.{read_of};
ghost use Rattle.rows.specs.Finding.{find_of, ReadRows};

use format::{Reading, Row, Rule};

// What a reading finds: its answer, and a row for each box, by value; as many count as the answer says, and the unused ones are 0.
#[derive(Clone, Copy)]
pub struct Found {
    pub reading: Reading,
    pub rows: [Row; 256],
}

// Reads a file with that many rows, 256 at most, and yields the rows by value.
pub fn find_rows(file: &[u8], cap: usize) -> Found
    ensures { result ≡ find_of (read_of (min 256 cap) file.now) }
{
    let mut rows = [Row::default(); 256];
    let reading = reading::read_over(file, &mut rows[..cap.min(256)]);
    if reading.refusal.rule != Rule::Done {
        rows = [Row::default(); 256];
    }
    Found { reading, rows }
}

// The rows counted, in the place of the first ones of the lent slice.
fn store(rows: &mut [Row], counted: &[Row])
    requires { length counted.now ≤ length rows.old }
    ensures { rows.new ≡ counted.now ++ drop (length counted.now) rows.old }
{
    rows[..counted.len()].copy_from_slice(counted);
}

// Reads a file with as many rows as are lent, and puts the rows there once the file is accepted.
pub fn read(file: &[u8], rows: &mut [Row]) -> Reading
    ensures { ReadRows file.now rows.old result rows.new }
{
    let mut scratch = [Row::default(); 256];
    let lent = &mut scratch[..rows.len().min(256)];
    let reading = reading::read_over(file, lent);
    if reading.refusal.rule == Rule::Done {
        store(rows, &lent[..reading.boxes]);
    }
    reading
}
