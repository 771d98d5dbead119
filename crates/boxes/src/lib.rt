// Headers and kinds: how a header is decoded, which kind a box has in its place, and which box may stand where in a run.
#![tactic(auto)]

ghost use Rattle.std.specs.Prelude.{◌≡◌, ◌<◌, ◌≤◌, length, Some, None, IfOk};
ghost use Rattle.numbers.specs.Choice.{pick};
ghost use Rattle.format.specs.declared.Place.{Place};
ghost use Rattle.format.specs.Kinds.{kind_of, other_in, holds_run, inside, is_six};
ghost use Rattle.format.specs.Judge.{note, no_row, misplaced, missing};
ghost use Rattle.boxes.specs.Head.{wrong_size, sized_head, head_in};

use format::{Kind, Place, Rule, Seen};

// The four letters of each name, as one number: so a row reports a type, and types are open. The language makes no constant from letters.
const FTYP: usize = 0x66747970;

const ODRM: usize = 0x6f64726d;

const ODHE: usize = 0x6f646865;

const OHDR: usize = 0x6f686472;

const ODDA: usize = 0x6f646461;

const MDRI: usize = 0x6d647269;

const ODTT: usize = 0x6f647474;

pub const ODRB: usize = 0x6f647262;

const UDTA: usize = 0x75647461;

// A header: the box's size, the header's own length and the type.
#[derive(Clone, Copy)]
pub struct Head {
    pub size: usize,
    pub skip: usize,
    pub boxtype: usize,
}

impl Head {
    // Number 3: a size below its header's length, which sizes 0 and 2 to 7 are too, or an odda in short form, whose header is 8 bytes.
    fn is_wrong_size(self) -> bool
        ensures { result ≡ wrong_size self.size self.skip self.boxtype }
    {
        self.size < self.skip || self.boxtype == ODDA && self.skip == 8
    }

    // The header of a run with so many bytes left: 3 for a size that is not allowed, 4 for a box that ends after its parent.
    #[tactic(auto, unfolding(crate::specs::Head::sized_head))]
    fn within(self, left: usize) -> Result<Head, Rule>
        ensures gives { result ≡ sized_head left self.size self.skip self.boxtype }
        ensures fits { IfOk result (λ h. (h.skip ≡ self.skip) × (self.skip ≤ h.size) × (h.size ≤ left)) }
    {
        if self.is_wrong_size() {
            return Err(Rule::BadSize);
        }
        if left < self.size {
            return Err(Rule::PastParent);
        }
        Ok(self)
    }
}

// The header at the start of what is left of a run. The only place where size, form and type are decoded.
#[tactic(auto, unfolding(crate::specs::Head::head_in, crate::specs::Head::sized_head, format::specs::Header::header_fault, format::specs::Header::header_length, format::specs::Header::size_of, format::specs::Header::type_of, format::specs::Numbers::rule_of))]
pub fn read_head(run: &[u8]) -> Result<Head, Rule>
    ensures gives { (c : Place) → result ≡ head_in c run.now }
    ensures fits { IfOk result (λ h. (8 ≤ h.skip) × (h.skip ≤ h.size) × (h.size ≤ length run.now)) }
{
    let left = run.len();
    if left < 8 {
        return Err(Rule::NoHeader);
    }
    let size = numbers::read::<4>(run, 0);
    let boxtype = numbers::read::<4>(run, 4);
    if size != 1 {
        let short = Head {
            size,
            skip: 8,
            boxtype,
        };
        return short.within(left);
    }
    if left < 16 {
        return Err(Rule::NoHeader);
    }
    let long = Head {
        size: numbers::read::<8>(run, 8),
        skip: 16,
        boxtype,
    };
    long.within(left)
}

// An odtt and an odrb count in mdri and a udta in odhe; elsewhere they are others.
#[tactic(auto, unfolding(format::specs::Kinds::other_in))]
fn other_in(place: Place, boxtype: usize) -> Kind
    ensures { result ≡ other_in place boxtype }
{
    match place {
        Place::InOdhe => match boxtype {
            UDTA => Kind::Udta,
            _ => Kind::Other,
        },
        Place::InMdri => match boxtype {
            ODTT => Kind::Odtt,
            ODRB => Kind::Odrb,
            _ => Kind::Other,
        },
        _ => Kind::Other,
    }
}

// The row of the table of kinds (document 01, Boxes) for a type in a place.
#[tactic(auto, unfolding(format::specs::Kinds::kind_of))]
pub fn kind_of(place: Place, boxtype: usize) -> Kind
    ensures { result ≡ kind_of place boxtype }
{
    match boxtype {
        FTYP => Kind::Ftyp,
        ODRM => Kind::Odrm,
        ODHE => Kind::Odhe,
        OHDR => Kind::Ohdr,
        ODDA => Kind::Odda,
        MDRI => Kind::Mdri,
        _ => other_in(place, boxtype),
    }
}

// Where the boxes of the run stand that follows the fields of a kind (the table of kinds), if one does.
#[tactic(auto, unfolding(format::specs::Kinds::holds_run, format::specs::Kinds::inside))]
pub fn inside_of(kind: Kind) -> Option<Place>
    ensures { result ≡ pick (holds_run kind) (Some (inside kind)) None }
{
    match kind {
        Kind::Odrm => Some(Place::InOdrm),
        Kind::Odhe => Some(Place::InOdhe),
        Kind::Ohdr => Some(Place::InOhdr),
        Kind::Mdri => Some(Place::InMdri),
        _ => None,
    }
}

// What a run has had once a box has passed: all that numbers 5 and 6 ask of the boxes before.
#[tactic(auto, unfolding(format::specs::Judge::note, format::specs::Kinds::same_kind, format::specs::Kinds::kind_number))]
pub fn noted(n: Seen, kind: Kind) -> Seen
    requires { (n.boxes < 65536) × (n.odrms < 65536) }
    ensures { result ≡ note n kind }
{
    let boxes = n.boxes + 1;
    match kind {
        Kind::Odrm => Seen {
            boxes,
            odrms: n.odrms + 1,
            ..n
        },
        Kind::Mdri => Seen {
            boxes,
            mdri: true,
            ..n
        },
        Kind::Odtt => Seen {
            boxes,
            odtt: true,
            ..n
        },
        _ => Seen { boxes, ..n },
    }
}

// Number 5: no row is left, or this is a ninth odrm. Here and below place, what a run has had and kind come apart, as the walk has them.
#[tactic(auto, unfolding(format::specs::Judge::no_row, format::specs::Kinds::same_kind, format::specs::Kinds::kind_number))]
pub fn has_no_row(cap: usize, n: Seen, rows: usize, kind: Kind) -> bool
    ensures { result ≡ no_row cap n rows kind }
{
    cap <= rows || matches!(kind, Kind::Odrm) && 8 <= n.odrms
}

// "Others" are boxes of any type but these six.
#[tactic(auto, unfolding(format::specs::Kinds::is_six, format::specs::Kinds::same_kind, format::specs::Kinds::kind_number))]
fn is_six(kind: Kind) -> bool
    ensures { result ≡ is_six kind }
{
    !matches!(kind, Kind::Odtt | Kind::Odrb | Kind::Udta | Kind::Other)
}

// At the top: ftyp first; no odrm and no second mdri after an mdri; others anywhere after ftyp.
#[tactic(auto, unfolding(format::specs::Judge::misplaced, format::specs::Judge::late_at_top, format::specs::Kinds::same_kind, format::specs::Kinds::kind_number))]
fn is_misplaced_at_top(n: Seen, kind: Kind) -> bool
    ensures { result ≡ misplaced Place.Top n kind }
{
    if n.boxes == 0 {
        return !matches!(kind, Kind::Ftyp);
    }
    match kind {
        Kind::Odrm | Kind::Mdri => n.mdri,
        Kind::Ftyp | Kind::Odhe | Kind::Ohdr | Kind::Odda => true,
        _ => false,
    }
}

// In odrm: odhe, odda, then others.
#[tactic(auto, unfolding(format::specs::Judge::misplaced, format::specs::Kinds::same_kind, format::specs::Kinds::kind_number, format::specs::Kinds::is_six))]
fn is_misplaced_in_odrm(n: Seen, kind: Kind) -> bool
    ensures { result ≡ misplaced Place.InOdrm n kind }
{
    match kind {
        Kind::Odhe => n.boxes != 0,
        Kind::Odda => n.boxes != 1,
        Kind::Odtt | Kind::Odrb | Kind::Udta | Kind::Other => n.boxes < 2,
        _ => true,
    }
}

// In odhe: ohdr, then at most one udta.
#[tactic(auto, unfolding(format::specs::Judge::misplaced, format::specs::Kinds::same_kind, format::specs::Kinds::kind_number))]
fn is_misplaced_in_odhe(n: Seen, kind: Kind) -> bool
    ensures { result ≡ misplaced Place.InOdhe n kind }
{
    match kind {
        Kind::Ohdr => n.boxes != 0,
        Kind::Udta => n.boxes != 1,
        _ => true,
    }
}

// In mdri: others, at most one odtt.
#[tactic(auto, unfolding(format::specs::Judge::misplaced, format::specs::Kinds::same_kind, format::specs::Kinds::kind_number, format::specs::Kinds::is_six))]
fn is_misplaced_in_mdri(n: Seen, kind: Kind) -> bool
    ensures { result ≡ misplaced Place.InMdri n kind }
{
    match kind {
        Kind::Odtt => n.odtt,
        Kind::Odrb | Kind::Udta | Kind::Other => false,
        _ => true,
    }
}

// Number 6 at a box: it stands in a wrong place or is repeated. Each place has a rule of its own.
#[tactic(auto, unfolding(format::specs::Judge::misplaced))]
pub fn is_misplaced(place: Place, n: Seen, kind: Kind) -> bool
    ensures { result ≡ misplaced place n kind }
{
    match place {
        Place::Top => is_misplaced_at_top(n, kind),
        Place::InOdrm => is_misplaced_in_odrm(n, kind),
        Place::InOdhe => is_misplaced_in_odhe(n, kind),
        Place::InOhdr => is_six(kind),
        Place::InMdri => is_misplaced_in_mdri(n, kind),
    }
}

// Number 6 at the end of a run: a box that it must have is missing.
#[tactic(auto, unfolding(format::specs::Judge::missing))]
pub fn is_missing(place: Place, n: Seen) -> bool
    ensures { result ≡ missing place n }
{
    match place {
        Place::Top => n.odrms == 0,
        Place::InOdrm => n.boxes < 2,
        Place::InOdhe => n.boxes == 0,
        Place::InOhdr | Place::InMdri => false,
    }
}
