// Stretches of bytes: equality, token characters, ASCII letters in either case, textual headers.
#![tactic(auto)]

ghost use Rattle.std.specs.Prelude.{◌≡◌, Bool};
ghost use Rattle.strings.specs.Same.{same};
ghost use Rattle.strings.specs.Characters.{token, lower, same_name};
ghost use Rattle.strings.specs.Headers.{next, textual, index, Answers};

// Which part of a textual-headers entry the next byte is in. From Bad no byte leads on: the definition `next` has it as a part too.
#[derive(Clone, Copy, PartialEq, Eq)]
pub enum Part {
    Start,
    Name,
    Value,
    Bad,
}

// Whether two stretches hold the same bytes.
#[tactic(auto, using(crate::proofs::Library::same_slices))]
pub fn is_same(x: &[u8], y: &[u8]) -> bool
    ensures { result ≡ same x.now y.now }
{
    x == y
}

// Whether a byte is a token character of RFC 2616, 2.2.
#[tactic(auto, unfolding(crate::specs::Characters::token))]
pub fn is_token(x: u8) -> bool
    ensures { result ≡ token x }
{
    matches!(x, 33 | 35..=39 | 42 | 43 | 45 | 46 | 48..=57 | 65..=90 | 94..=122 | 124 | 126)
}

// An upper-case ASCII letter as its lower-case one, every other byte as itself.
#[tactic(auto, unfolding(crate::specs::Characters::lower))]
pub fn to_lower(x: u8) -> u8
    ensures { result ≡ lower x }
{
    x.to_ascii_lowercase()
}

// Whether two stretches hold the same name, ASCII letters in either case.
pub fn is_same_name(x: &[u8], y: &[u8]) -> bool
    ensures { result ≡ same_name x.now y.now }
{
    x.eq_ignore_ascii_case(y)
}

// The part of an entry that comes after the byte `x` in the part `p`.
#[tactic(auto, unfolding(crate::specs::Headers::next))]
fn step(p: Part, x: u8) -> Part
    ensures { result ≡ next p x }
{
    match p {
        Part::Start => { if is_token(x) { Part::Name } else { Part::Bad } }
        Part::Name => {
            if is_token(x) {
                Part::Name
            } else if x == b':' {
                Part::Value
            } else {
                Part::Bad
            }
        }
        Part::Value => { if x == 0 { Part::Start } else { Part::Value } }
        Part::Bad => Part::Bad,
    }
}

// Whether a field is textual headers: entries of a name of token characters, a colon, a value and a zero byte.
pub fn is_textual(s: &[u8]) -> bool
    ensures { result ≡ textual s.now }
{
    s.iter().fold(Part::Start, |p, x| step(p, *x)) == Part::Start
}

// The first index that holds `byte`, or the length where there is none, as the definition `index` says it; in textual headers it is there.
fn index_of(s: &[u8], byte: u8) -> usize
    ensures { result ≡ index byte s.now }
{
    s.iter().position(|x| *x == byte).unwrap_or(s.len())
}

// Where the value of the first entry of a name starts, counted from the field's start, and its length; the field is textual headers.
#[tactic(auto, using(crate::proofs::Search::colon_inside, crate::proofs::Search::end_inside, crate::proofs::Search::all_left))]
pub fn find(field: &[u8], name: &[u8]) -> Option<(usize, usize)>
    requires { textual field.now ≡ Bool.true }
    ensures { Answers field.now name.now result }
{
    let mut rest = field;
    while !rest.is_empty() {
        let colon = index_of(rest, b':');
        let value = &rest[colon + 1..];
        let length = index_of(value, 0);
        if is_same_name(&rest[..colon], name) {
            return Some((field.len() - value.len(), length));
        }
        rest = &value[length + 1..];
    }
    None
}
