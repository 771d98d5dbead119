// The numbers given back, and what a reading gives: rows, summaries and totals. The definitions of reading stand in specs/.
#![tactic(auto)]

ghost use Rattle.std.specs.Prelude.{◌≡◌, ◌+◌, ◌≤◌, length};
ghost use Rattle.format.specs.Numbers.{number_of};
ghost use Rattle.format.specs.Report.{bytes_in};

// The broken rule (document 01, Numbers given back); number_of has the paper's number of each. Done is the verdict on an accepted file: the
// answer holds a verdict in every case, and the companion calls take it apart.
#[derive(Clone, Copy, PartialEq, Eq, Default)]
pub enum Rule {
    #[default]
    Done,
    FileTooLong,
    NoHeader,
    BadSize,
    PastParent,
    NoRow,
    WrongPlace,
    FieldsCut,
    BadVersion,
    BadMethod,
    BadLength,
    BadHeaders,
    BadData,
    SameContentId,
    NoMdri,
    RightsLength,
    NoRoom,
    NoRights,
    NoOdtt,
    BadRoom,
    OutputTooShort,
    NoContainer,
    NoTextualHeader,
}

// The broken rule beside the place: the offset of the box where it broke.
#[derive(Clone, Copy, Default)]
pub struct Refusal {
    pub rule: Rule,
    pub place: usize,
}

// Where a box stands: at the top of the file, or in the run of a box of this type.
#[derive(Clone, Copy)]
pub enum Place {
    Top,
    InOdrm,
    InOdhe,
    InOhdr,
    InMdri,
}

// The rows of the table of kinds: the six types, those that count only in their place, and the others.
#[derive(Clone, Copy)]
pub enum Kind {
    Ftyp,
    Odrm,
    Odhe,
    Ohdr,
    Odda,
    Mdri,
    Odtt,
    Odrb,
    Udta,
    Other,
}

// What a run has had before a box: how many boxes, how many odrm, and whether an mdri and an odtt.
#[derive(Clone, Copy, Default)]
pub struct Seen {
    pub boxes: usize,
    pub odrms: usize,
    pub mdri: bool,
    pub odtt: bool,
}

// Where a run stands: its place, its depth, and the offset of the box that it is in.
#[derive(Clone, Copy)]
pub struct Spot {
    pub place: Place,
    pub depth: usize,
    pub own: usize,
}

// The two lengths of a content: with the IV, and without it. Two types, so that neither is taken for the other.
#[derive(Clone, Copy, Default)]
pub struct DataLength(pub u64);

#[derive(Clone, Copy, Default)]
pub struct PlaintextLength(pub u64);

#[derive(Clone, Copy, PartialEq, Eq, Default)]
pub struct Row {
    pub offset: usize,
    pub size: usize,
    pub depth: usize,
    pub boxtype: usize,
}

// A full box's row and its flags.
#[derive(Clone, Copy, Default)]
pub struct Full {
    pub row: Row,
    pub flags: usize,
}

// Bytes of the file.
#[derive(Clone, Copy, Default)]
pub struct Stretch {
    pub offset: usize,
    pub length: usize,
}

// A container. Method and padding are the numbers that the file has.
#[derive(Clone, Copy, Default)]
pub struct Summary {
    pub odrm: Full,
    pub odhe: Full,
    pub ohdr: Full,
    pub odda: Full,
    pub method: usize,
    pub padding: usize,
    pub plaintextlength: PlaintextLength,
    pub datalength: DataLength,
    pub contenttype: Stretch,
    pub contentid: Stretch,
    pub issuer: Stretch,
    pub headers: Stretch,
    pub content: Stretch,
}

// What reading a file answers. Where it is refused, all but the refusal is 0. mdri and transaction are offsets, or 0 for none, as the listing and
// the answer for C have them. The first `containers` summaries count: the answer is a value of fixed size.
#[derive(Clone, Copy, Default)]
pub struct Reading {
    pub refusal: Refusal,
    pub boxes: usize,
    pub containers: usize,
    pub summaries: [Summary; 8],
    pub mdri: usize,
    pub rights: usize,
    pub free: usize,
    pub transaction: usize,
}

// The paper's number of a rule: the rules stand in its order.
impl From<Rule> for u32 {
    ghost from_gives = { λ rule n. n ≡ number_of rule };

    fn from(rule: Rule) -> u32 {
        rule as u32
    }
}

impl Stretch {
    // The bytes of a file that it names: that very part of the lent slice.
    pub fn of(self, file: &[u8]) -> &[u8]
        requires { self.offset + self.length ≤ length file.now }
        ensures block { result.ref_ptr.0 ≡ file.entry.ref_ptr.0 }
        ensures place { result.ref_ptr.1 ≡ file.entry.ref_ptr.1 + self.offset }
        ensures bytes { result.now ≡ bytes_in file.now self }
    {
        let Stretch { offset, length } = self;
        &file[offset..offset + length]
    }
}
