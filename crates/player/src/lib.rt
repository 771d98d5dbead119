// The players' side: reading for firmware written in C, over byte slices. include/dcf.h names the bytes of an answer.
#![tactic(auto)]

ghost use Rattle.std.specs.Prelude.{◌≡◌, ℕ, List, [], ◌∷◌, ◌+◌, ◌*◌, ◌≤◌, length, flat_map};
ghost use Rattle.player.specs.Layout.{row_numbers, full_numbers, stretch_numbers, summary_numbers, reading_numbers};
ghost use Rattle.player.specs.Wrote.{Wrote};
ghost use Rattle.player.specs.Call.{rows_lent, Told};

use format::{Full, Reading, Row, Rule, Stretch, Summary};

// What stands in an answer as numbers of eight bytes each.
trait Layout {
    ghost numbers: { Self → List ℕ };

    // Puts the numbers from `at` on, and answers the next place.
    fn put(&self, out: &mut [u8], at: usize) -> usize
        requires { at + 8 * length (numbers self.now) ≤ length out.old }
        ensures { Wrote out.old at (numbers self.now) out.new result };
}

// Puts values one behind the other.
fn put_all<T: Layout>(values: &[T], out: &mut [u8], at: usize) -> usize
    requires { at + 8 * length (flat_map T.numbers values.now) ≤ length out.old }
    ensures { Wrote out.old at (flat_map T.numbers values.now) out.new result }
{
    let mut next = at;
    for value in values {
        next = value.put(out, next);
    }
    next
}

// Eight bytes, the lowest first.
impl Layout for usize {
    ghost numbers = { λ n. n ∷ [] };

    fn put(&self, out: &mut [u8], at: usize) -> usize {
        out[at..at + 8].copy_from_slice(&self.to_le_bytes());
        at + 8
    }
}

impl Layout for Row {
    ghost numbers = { row_numbers };

    fn put(&self, out: &mut [u8], at: usize) -> usize {
        put_all(&[self.offset, self.size, self.depth, self.boxtype], out, at)
    }
}

impl Layout for Full {
    ghost numbers = { full_numbers };

    fn put(&self, out: &mut [u8], at: usize) -> usize {
        let flags_at = self.row.put(out, at);
        self.flags.put(out, flags_at)
    }
}

impl Layout for Stretch {
    ghost numbers = { stretch_numbers };

    fn put(&self, out: &mut [u8], at: usize) -> usize {
        put_all(&[self.offset, self.length], out, at)
    }
}

// The boxes, the method and the lengths, the strings and the data.
impl Layout for Summary {
    ghost numbers = { summary_numbers };

    fn put(&self, out: &mut [u8], at: usize) -> usize {
        let fulls = [self.odrm, self.odhe, self.ohdr, self.odda];
        let method = [
            self.method,
            self.padding,
            self.plaintextlength.0 as usize,
            self.datalength.0 as usize,
        ];
        let stretches = [
            self.contenttype,
            self.contentid,
            self.issuer,
            self.headers,
            self.content,
        ];
        let method_at = put_all(&fulls, out, at);
        let stretches_at = put_all(&method, out, method_at);
        put_all(&stretches, out, stretches_at)
    }
}

// Counts and totals, then the summaries.
impl Layout for Reading {
    ghost numbers = { reading_numbers };

    fn put(&self, out: &mut [u8], at: usize) -> usize {
        let counts = [
            self.boxes,
            self.containers,
            self.mdri,
            self.rights,
            self.free,
            self.transaction,
        ];
        let summaries_at = put_all(&counts, out, at);
        put_all(&self.summaries, out, summaries_at)
    }
}

// How many rows an answer of so many bytes lends, and 256 at most.
fn rows_lent(length: usize) -> usize
    ensures { result ≡ rows_lent length }
{
    (length.saturating_sub(2224) / 32).min(256)
}

// Reads a file for a player. The answer gets the reading and the rows counted; where the file is refused it stays as it is.
pub fn dcf_read(file: &[u8], answer: &mut [u8]) -> u32
    ensures { Told file.now answer.old result answer.new }
{
    let mut rows = [Row::default(); 256];
    let lent = &mut rows[..rows_lent(answer.len())];
    let reading = reading::read_over(file, lent);
    let rule = reading.refusal.rule;
    if rule != Rule::Done {
        return u32::from(rule);
    }
    let rows_at = reading.put(answer, 0);
    put_all(&lent[..reading.boxes], answer, rows_at);
    u32::from(Rule::Done)
}
