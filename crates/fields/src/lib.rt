// A checker of the fields for each kind: the first of the rules 7 to 12 that the bytes after a header break.
#![tactic(auto, unfolding(crate::specs::Fault::field_verdict, crate::specs::Fault::field_fault, format::specs::Kinds::fields_length, format::specs::Judge::cut, format::specs::Judge::ragged, format::specs::Judge::newer, format::specs::Judge::wrong_method, format::specs::Judge::wrong_length, format::specs::Judge::malformed, format::specs::Judge::wrong_data, format::specs::Kinds::same_kind, format::specs::Kinds::kind_number, format::specs::Numbers::rule_of))]

ghost use Rattle.std.specs.Prelude.{◌≡◌, ℕ, ◌≤◌, length, eqb};
ghost use Rattle.numbers.specs.Choice.{pick};
ghost use Rattle.numbers.specs.Big.{num};
ghost use Rattle.format.specs.declared.Kind.{Kind};
ghost use Rattle.format.specs.declared.PlaintextLength.{PlaintextLength};
ghost use Rattle.format.specs.Numbers.{unless_broken};
ghost use Rattle.format.specs.Kinds.{fields_length};
ghost use Rattle.format.specs.Judge.{takes, outside, agrees};
ghost use Rattle.fields.specs.Fault.{field_verdict};

use format::{DataLength, Kind, PlaintextLength, Rule};

// The letters of odcf, as one number: the language makes no constant from letters.
const ODCF: usize = 0x6f646366;

// Whether a method takes a padding (document 01, Boxes): 0 takes 0, 1 (CBC) takes 1, 2 (CTR) takes 0. Both are bytes of the file, of any value.
#[tactic(auto, unfolding(format::specs::Judge::takes))]
fn takes_padding(method: usize, padding: usize) -> bool
    ensures { result ≡ takes method padding }
{
    matches!((method, padding), (0, 0) | (1, 1) | (2, 0))
}

// A full box's version is 0; its three flag bytes come after it.
#[tactic(auto, unfolding(format::specs::Numbers::rule_of))]
fn check_version(b: &[u8]) -> Result<(), Rule>
    requires { 4 ≤ length b.now }
    ensures { result ≡ unless_broken (pick (eqb (num 1 b.now 0) 0) 0 8) tt }
{
    if numbers::read::<1>(b, 0) != 0 {
        return Err(Rule::BadVersion);
    }
    Ok(())
}

// Whether the length of a ContentType or ContentID is not in 1 to most (document 01, Bounds).
fn is_outside(most: usize, length: usize) -> bool
    ensures { result ≡ outside most length }
{
    !(1..=most).contains(&length)
}

// Whether a data length agrees with a method and a plaintext length (document 01, Boxes). D is taken apart, since a sum over P could wrap. The
// method is any number: `agrees` says that one of no rule agrees with nothing but no data.
#[tactic(auto, unfolding(format::specs::Judge::agrees))]
pub fn is_agreeing(method: usize, plaintext: PlaintextLength, length: DataLength) -> bool
    ensures { result ≡ agrees method plaintext length }
{
    let p = plaintext.0;
    let d = length.0;
    if d == 0 {
        return true;
    }
    match method {
        0 => d == p || p == 0,
        1 => 16 <= d && (d - 16) % 16 == 0 && (d - 16) / 16 == p / 16 + 1,
        2 => 16 <= d && d - 16 == p,
        _ => false,
    }
}

// ftyp: 7 where it is cut or its brands are not whole, 8 where its major brand is not odcf.
pub fn check_ftyp(b: &[u8]) -> Result<(), Rule>
    ensures { (m : ℕ) (p : PlaintextLength) → result ≡ field_verdict Kind.Ftyp m p b.now }
{
    if b.len() < 8 || b.len() % 4 != 0 {
        return Err(Rule::FieldsCut);
    }
    if numbers::read::<4>(b, 0) != ODCF {
        return Err(Rule::BadVersion);
    }
    Ok(())
}

// odrm and odrb, whose fields are a full box's version and flags alone: 7 where they are cut, 8 where the version is not 0.
pub fn check_full(b: &[u8]) -> Result<(), Rule>
    ensures odrm { (m : ℕ) (p : PlaintextLength) → result ≡ field_verdict Kind.Odrm m p b.now }
    ensures odrb { (m : ℕ) (p : PlaintextLength) → result ≡ field_verdict Kind.Odrb m p b.now }
{
    if b.len() < 4 {
        return Err(Rule::FieldsCut);
    }
    check_version(b)
}

// odhe: 7 where its ContentType runs past the box, 8 where the version is not 0, 10 for the ContentType's length.
pub fn check_odhe(b: &[u8]) -> Result<(), Rule>
    ensures { (m : ℕ) (p : PlaintextLength) → result ≡ field_verdict Kind.Odhe m p b.now }
{
    if b.len() < 5 {
        return Err(Rule::FieldsCut);
    }
    let length = numbers::read::<1>(b, 4);
    if b.len() < 5 + length {
        return Err(Rule::FieldsCut);
    }
    check_version(b)?;
    if is_outside(255, length) {
        return Err(Rule::BadLength);
    }
    Ok(())
}

// ohdr: 7 where its strings run past the box, then 8, 9 for method or padding, 10 for the ContentID's length, 11 for textual headers. Who reads
// of an ohdr reads the fields that it needs, at their offsets in document 01.
pub fn check_ohdr(b: &[u8]) -> Result<(), Rule>
    ensures { (m : ℕ) (p : PlaintextLength) → result ≡ field_verdict Kind.Ohdr m p b.now }
{
    if b.len() < 20 {
        return Err(Rule::FieldsCut);
    }
    let id = numbers::read::<2>(b, 14);
    let start = 20 + id + numbers::read::<2>(b, 16);
    let end = start + numbers::read::<2>(b, 18);
    if b.len() < end {
        return Err(Rule::FieldsCut);
    }
    check_version(b)?;
    if !takes_padding(numbers::read::<1>(b, 4), numbers::read::<1>(b, 5)) {
        return Err(Rule::BadMethod);
    }
    if is_outside(256, id) {
        return Err(Rule::BadLength);
    }
    if !strings::is_textual(&b[start..end]) {
        return Err(Rule::BadHeaders);
    }
    Ok(())
}

// odda: 7, 8, and 12 where D is longer than the rest or does not agree with its container's method and plaintext length.
pub fn check_odda(b: &[u8], method: usize, plaintext: PlaintextLength) -> Result<(), Rule>
    ensures { result ≡ field_verdict Kind.Odda method plaintext b.now }
{
    if b.len() < 12 {
        return Err(Rule::FieldsCut);
    }
    check_version(b)?;
    let length = numbers::read::<8>(b, 4);
    if b.len() - 12 < length {
        return Err(Rule::BadData);
    }
    if !is_agreeing(method, plaintext, DataLength(length as u64)) {
        return Err(Rule::BadData);
    }
    Ok(())
}

// odtt: 7 unless 16 bytes follow the version and flags, 8 where the version is not 0.
pub fn check_odtt(b: &[u8]) -> Result<(), Rule>
    ensures { (m : ℕ) (p : PlaintextLength) → result ≡ field_verdict Kind.Odtt m p b.now }
{
    if b.len() != 20 {
        return Err(Rule::FieldsCut);
    }
    check_version(b)
}

// The first of the rules 7 to 12 that the bytes after a header break (document 01, Numbers given back). A kind has a checker of its own;
// method and plaintext length go to that of odda alone.
#[tactic(auto, using(crate::proofs::Tests::verdict_of_mdri, crate::proofs::Tests::verdict_of_udta, crate::proofs::Tests::verdict_of_other))]
pub fn check(b: &[u8], kind: Kind, method: usize, plaintext: PlaintextLength) -> Result<(), Rule>
    ensures { result ≡ field_verdict kind method plaintext b.now }
{
    match kind {
        Kind::Ftyp => check_ftyp(b),
        Kind::Odrm | Kind::Odrb => check_full(b),
        Kind::Odhe => check_odhe(b),
        Kind::Ohdr => check_ohdr(b),
        Kind::Odda => check_odda(b, method, plaintext),
        Kind::Odtt => check_odtt(b),
        Kind::Mdri | Kind::Udta | Kind::Other => Ok(()),
    }
}

// How many bytes after a header are fields (document 01, Boxes): past them starts the box's run, or its data.
#[tactic(auto, unfolding(format::specs::Kinds::fields_length))]
pub fn fields_length(b: &[u8], kind: Kind) -> usize
    requires { fields_length kind b.now ≤ length b.now }
    ensures { result ≡ fields_length kind b.now }
{
    match kind {
        Kind::Ftyp => 8,
        Kind::Odrm | Kind::Odrb => 4,
        Kind::Odhe => 5 + numbers::read::<1>(b, 4),
        Kind::Ohdr => {
            20 + numbers::read::<2>(b, 14) + numbers::read::<2>(b, 16) + numbers::read::<2>(b, 18)
        }
        Kind::Odda => 12,
        Kind::Odtt => 20,
        Kind::Mdri | Kind::Udta | Kind::Other => 0,
    }
}
