// Reading a DCF held whole in a lent slice: the walk's verdict as an answer by value, and rows in a lent slice of structs.
#![tactic(auto)]

ghost use Rattle.std.specs.Prelude.{◌≡◌, ◌≤◌};
ghost use Rattle.format.specs.Judge.{read_of};
ghost use Rattle.format.specs.Report.{answer_of};
ghost use Rattle.reading.specs.Answer.{Answered, ReadOver};

use format::{Reading, Refusal, Row};

// The answer with so many rows at most. Of an accepted file the rows stand in the lent ones, if there is room for them.
fn read_with(file: &[u8], cap: usize, rows: &mut [Row]) -> Reading
    requires { cap ≤ 256 }
    ensures { Answered file.now cap rows.old result rows.new }
{
    match walk::walk_file(file, cap, rows) {
        Err(refusal) => Reading {
            refusal,
            ..Reading::default()
        },
        Ok(kept) => {
            let tally = kept.tally;
            let summaries = summaries::summaries(file, &kept.starts[..tally.containers]);
            Reading {
                refusal: Refusal::default(),
                boxes: kept.count,
                containers: tally.containers,
                summaries,
                mdri: tally.mdri,
                rights: tally.rights,
                free: tally.free,
                transaction: tally.transaction,
            }
        }
    }
}

// Reads a file with 256 rows and reports none of them.
pub fn read_file(file: &[u8]) -> Reading
    ensures { result ≡ answer_of (read_of 256 file.now) }
{
    read_with(file, 256, &mut [])
}

// Reads a file with as many rows as are lent, 256 at most, and puts the rows over the first of those. Of a refused file the lent rows may
// hold anything: where they are to stay, `rows::read` reads.
pub fn read_over(file: &[u8], rows: &mut [Row]) -> Reading
    ensures { ReadOver file.now rows.old result rows.new }
{
    let cap = rows.len().min(256);
    read_with(file, cap, rows)
}
