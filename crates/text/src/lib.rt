// The listing of a reading, as text, piece by piece: after a `write!` the check does not prove that the text was written. No heap is used, so
// the text has room for the longest listing.
#![tactic(auto)]

ghost use Rattle.std.specs.Prelude.{◌+◌, ◌*◌, ◌≤◌, length, IsSome};
ghost use Rattle.text.specs.Adds.{HasRoom, Adds};
ghost use Rattle.text.specs.Laid.{Laid, Fits};
ghost use Rattle.text.specs.Number.{hex8, field, entry};
ghost use Rattle.text.specs.Text.{totals, row_line, row_lines, refused_text, listing_of, unread_text, shown};

use arrayvec::ArrayString;
use format::{Reading, Refusal, Row, Rule};
use itoa::Buffer;
use std::str;

// The bytes of the longest listing: six lines of 171 bytes in all, then 256 rows of 76.
pub const LONGEST: usize = 19627;

// A text with room for the longest listing.
type Text = ArrayString<LONGEST>;

// Writes a word and a number. Copied in, so that the bytes of each word are known where it is written.
#[inline(always)]
fn put_field(text: &mut Text, word: &str, n: usize)
    requires { HasRoom text.old (length word.now + 20) }
    ensures { Adds text.old text.new (field word.now n) (length word.now + 20) }
{
    let mut digits = Buffer::new();
    text.push_str(word);
    text.push_str(digits.format(n));
}

// Writes the low 32 bits in base 16, as eight digits.
#[tactic(auto, using(crate::proofs::Laws::hex_utf8, crate::proofs::Laws::hex_length, crate::proofs::Laws::hex_text))]
fn put_hex(text: &mut Text, n: usize)
    requires { HasRoom text.old 8 }
    ensures { Adds text.old text.new (hex8 n) 8 }
{
    let mut digits = [0u8; 16];
    let k = io::hex((n % 4294967296) as u64, 8, &mut digits);
    text.push_str(str::from_utf8(&digits[..k]).unwrap());
}

// Writes a line: a key, a number, and the line's end.
#[tactic(auto, unfolding(crate::specs::Number::entry))]
fn put_entry(text: &mut Text, key: &str, n: usize)
    requires { HasRoom text.old (length key.now + 21) }
    ensures { Adds text.old text.new (entry key.now n) (length key.now + 21) }
{
    put_field(text, key, n);
    text.push_str("\n");
}

fn put_totals(text: &mut Text, reading: Reading)
    requires { HasRoom text.old 171 }
    ensures { Adds text.old text.new (totals reading) 171 }
{
    put_entry(text, "verdict=", 0);
    put_entry(text, "boxes=", reading.boxes);
    put_entry(text, "containers=", reading.containers);
    put_entry(text, "mutable=", reading.mdri);
    put_entry(text, "rights=", reading.rights);
    put_entry(text, "free=", reading.free);
}

#[tactic(auto, unfolding(crate::specs::Text::refused_text))]
fn put_refused(text: &mut Text, refusal: Refusal)
    requires { HasRoom text.old 56 }
    ensures { Adds text.old text.new (refused_text refusal) 56 }
{
    let Refusal { rule, place } = refusal;
    put_entry(text, "verdict=", u32::from(rule) as usize);
    put_entry(text, "place=", place);
}

#[tactic(auto, unfolding(crate::specs::Text::row_line))]
fn put_row(text: &mut Text, row: Row)
    requires { HasRoom text.old 76 }
    ensures { Adds text.old text.new (row_line row) 76 }
{
    put_field(text, "row=", row.offset);
    put_field(text, ",", row.size);
    put_field(text, ",", row.depth);
    text.push_str(",");
    put_hex(text, row.boxtype);
    text.push_str("\n");
}

#[tactic(auto, unfolding(crate::specs::Text::row_lines))]
fn put_rows(text: &mut Text, rows: &[Row])
    requires { HasRoom text.old (76 * length rows.now) }
    ensures { Adds text.old text.new (row_lines rows.now) (76 * length rows.now) }
{
    for row in rows {
        put_row(text, *row);
    }
}

// Writes the listing with these rows.
#[tactic(auto, unfolding(crate::specs::Text::listing_of))]
fn render(text: &mut Text, reading: Reading, rows: &[Row])
    requires { HasRoom text.old (171 + 76 * length rows.now) }
    ensures { Adds text.old text.new (listing_of reading rows.now) (171 + 76 * length rows.now) }
{
    if reading.refusal.rule != Rule::Done {
        return put_refused(text, reading.refusal);
    }
    put_totals(text, reading);
    put_rows(text, rows);
}

// Lays a whole text into a buffer, if it fits, and answers its length.
#[tactic(auto, unfolding(crate::specs::Laid::laid, crate::specs::Laid::laid_length))]
fn lay(out: &mut [u8], s: &str) -> Option<usize>
    ensures laid { Laid s.now out.old out.new result }
    ensures fits { length s.now ≤ length out.old → IsSome result }
{
    let (part, _) = out.split_at_mut_checked(s.len())?;
    part.copy_from_slice(s.as_bytes());
    Some(s.len())
}

// Writes the listing and answers its length; where it does not fit, writes nothing and answers None.
#[tactic(auto, unfolding(crate::specs::Text::shown))]
pub fn put_listing(out: &mut [u8], reading: Reading, rows: &[Row]) -> Option<usize>
    ensures laid { Laid (listing_of reading (shown reading rows.now)) out.old out.new result }
    ensures fits { Fits out.old result }
{
    let n = reading.boxes.min(256).min(rows.len());
    let mut text = Text::new();
    render(&mut text, reading, &rows[..n]);
    lay(out, &text)
}

// Writes the line of an unread file and answers its length; where it does not fit, writes nothing and answers None.
#[tactic(auto, unfolding(crate::specs::Text::unread_text))]
pub fn put_unread(out: &mut [u8]) -> Option<usize>
    ensures laid { Laid unread_text out.old out.new result }
    ensures fits { Fits out.old result }
{
    lay(out, "unread\n")
}
