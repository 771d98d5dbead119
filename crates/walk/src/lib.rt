// The walk over a run of boxes and the walk over one box, which call each other. They know no kind: what a header, a kind, a place and
// fields mean is asked of the layers below.
#![tactic(auto)]

ghost use Rattle.std.specs.Prelude.{◌≡◌, ◌≤◌, ◌<◌, length, set};
ghost use Rattle.numbers.specs.Choice.{pick};
ghost use Rattle.format.specs.Kinds.{fields_length};
ghost use Rattle.format.specs.Numbers.{unless_broken};
ghost use Rattle.format.specs.Judge.{nothing, among, again, read_of};
ghost use Rattle.walk.specs.Keeping.{free_at, with_box, ids_in};
ghost use Rattle.walk.specs.Walking.{number_in, Named, Addable, Ready, Walked, Ran, Stepped};

use boxes::Head;
use format::{Kind, Place, PlaintextLength, Refusal, Row, Rule, Seen, Spot, Stretch};

// The types of free space, as numbers: the language makes no constant from letters.
const FREE: usize = 0x66726565;

const SKIP: usize = 0x736b6970;

// What is counted on the way: the odrm and the ohdr boxes, the last ohdr's method and plaintext length, and what the answer reports, in the
// answer's numbers.
#[derive(Clone, Copy, Default)]
pub struct Tally {
    pub containers: usize,
    pub headers: usize,
    pub method: usize,
    pub plaintext: PlaintextLength,
    pub mdri: usize,
    pub rights: usize,
    pub free: usize,
    pub transaction: usize,
}

// What is kept of the boxes that were read: how many, the tally, where each odrm starts, and where each ContentID lies. Of the arrays the
// first ones count, as many as the tally says: a walk uses fixed memory. What is always true of it speaks of the
// file and the run too: `Ready` says it, and no invariant.
#[derive(Clone, Copy, Default)]
pub struct Kept {
    pub count: usize,
    pub tally: Tally,
    pub starts: [usize; 8],
    pub ids: [Stretch; 8],
}

// A run of a file: how many rows may be used, where the run ends, and where it stands.
#[derive(Clone, Copy)]
struct Scope<'a> {
    file: &'a [u8],
    cap: usize,
    end: usize,
    spot: Spot,
}

// Row n, if there is room for it: who wants no rows lends none.
fn put(rows: &mut [Row], n: usize, row: Row)
    ensures { rows.new ≡ set rows.old n row }
{
    if n < rows.len() {
        rows[n] = row;
    }
}

// Whether a box is short-form free space directly in mdri.
#[tactic(auto, unfolding(crate::specs::Keeping::free_at, format::specs::Report::in_mdri))]
fn is_free(place: Place, h: Head) -> bool
    ensures { result ≡ free_at place h.boxtype h.skip }
{
    matches!(place, Place::InMdri) && h.skip == 8 && matches!(h.boxtype, FREE | SKIP)
}

impl Kept {
    // Keeps a box: b is its bytes after its header.
    #[tactic(auto, unfolding(crate::specs::Keeping::with_box, format::specs::Kinds::same_kind, format::specs::Kinds::kind_number))]
    fn add(&mut self, b: &[u8], place: Place, kind: Kind, at: usize, h: Head)
        requires { Addable self.old b.now kind at h }
        ensures { self.new ≡ with_box self.old place kind at h b.now }
    {
        self.count += 1;
        if is_free(place, h) {
            self.tally.free += h.size;
        }
        match kind {
            Kind::Odrm => {
                self.starts[self.tally.containers] = at;
                self.tally.containers += 1;
            }
            Kind::Ohdr => {
                self.ids[self.tally.headers] = Stretch {
                    offset: at + h.skip + 20,
                    length: numbers::read::<2>(b, 14),
                };
                self.tally.headers += 1;
                self.tally.method = numbers::read::<1>(b, 4);
                self.tally.plaintext = PlaintextLength(numbers::read::<8>(b, 6) as u64);
            }
            Kind::Mdri => self.tally.mdri = at,
            Kind::Odtt => self.tally.transaction = at + h.skip + 4,
            Kind::Odrb => self.tally.rights += 1,
            _ => {}
        }
    }

    // Whether a ContentID is one of those kept: a `for`, since the check does not close what `any` gives here.
    fn knows(&self, file: &[u8], id: &[u8]) -> bool
        requires { (self.now.tally.headers ≤ 8) × Named file.now self.now.ids self.now.tally.headers }
        ensures { result ≡ among id.now (ids_in file.now self.now.ids self.now.tally.headers) }
    {
        for x in &self.ids[..self.tally.headers] {
            if strings::is_same(id, x.of(file)) {
                return true;
            }
        }
        false
    }

    // Number 13: whether a box is an ohdr whose ContentID an earlier one has.
    #[tactic(auto, unfolding(format::specs::Judge::again, format::specs::Kinds::same_kind, format::specs::Kinds::kind_number, format::specs::Kinds::fields_length), using(crate::proofs::Known::id_read))]
    fn has_again(&self, file: &[u8], kind: Kind, b: &[u8]) -> bool
        requires known { (self.now.tally.headers ≤ 8) × Named file.now self.now.ids self.now.tally.headers }
        requires fit { fields_length kind b.now ≤ length b.now }
        ensures { result ≡ again kind (ids_in file.now self.now.ids self.now.tally.headers) b.now }
    {
        matches!(kind, Kind::Ohdr) && self.knows(file, &b[20..20 + numbers::read::<2>(b, 14)])
    }
}

// The first rule from 5 on that a box breaks whose header is right: b is its bytes after the header.
#[tactic(auto, unfolding(crate::specs::Walking::number_in, fields::specs::Fault::field_verdict, format::specs::Numbers::rule_of), using(fields::proofs::Laws::verdict_fit))]
fn judge(scope: Scope<'_>, kept: &Kept, n: Seen, kind: Kind, b: &[u8]) -> Result<(), Rule>
    requires { (kept.now.tally.headers ≤ 8) × Named scope.file.now kept.now.ids kept.now.tally.headers }
    ensures { result ≡ unless_broken (number_in scope.entry.cap scope.entry.spot.place n kind kept.now b.now (ids_in scope.entry.file.now kept.now.ids kept.now.tally.headers)) tt }
{
    if boxes::has_no_row(scope.cap, n, kept.count, kind) {
        return Err(Rule::NoRow);
    }
    if boxes::is_misplaced(scope.spot.place, n, kind) {
        return Err(Rule::WrongPlace);
    }
    fields::check(b, kind, kept.tally.method, kept.tally.plaintext)?;
    if kept.has_again(scope.file, kind, b) {
        return Err(Rule::SameContentId);
    }
    Ok(())
}

// Every box of a run, from an offset on: each says where the next one starts. A missing box has its parent's place.
#[cycle(one_run)]
fn run(scope: Scope<'_>, from: usize, rows: &mut [Row], kept: &mut Kept) -> Result<(), Refusal>
    requires { Ready scope.file.now scope.cap scope.end scope.spot nothing from kept.old }
    ensures { Ran scope.entry.file.now scope.entry.cap scope.entry.end scope.entry.spot nothing from kept.old rows.old result kept.new rows.new }
{
    let mut at = from;
    let mut n = Seen::default();
    while at < scope.end {
        let (next, kind) = one(scope, n, at, rows, kept)?;
        at = next;
        n = boxes::noted(n, kind);
    }
    if boxes::is_missing(scope.spot.place, n) {
        return Err(Refusal {
            rule: Rule::WrongPlace,
            place: scope.spot.own,
        });
    }
    Ok(())
}

// The box at an offset, and the run in it; then where the next box starts, and the kind of this one.
#[cycle(one_run)]
fn one(
    scope: Scope<'_>,
    n: Seen,
    at: usize,
    rows: &mut [Row],
    kept: &mut Kept,
) -> Result<(usize, Kind), Refusal>
    requires { (at < scope.end) × Ready scope.file.now scope.cap scope.end scope.spot n at kept.old }
    ensures { Stepped scope.entry.file.now scope.entry.cap scope.entry.end scope.entry.spot n at kept.old rows.old result kept.new rows.new }
{
    let Scope {
        file,
        end,
        spot,
        ..
    } = scope;
    let h = boxes::read_head(&file[at..end]).map_err(|rule| Refusal { rule, place: at })?;
    let kind = boxes::kind_of(spot.place, h.boxtype);
    let start = at + h.skip;
    let next = at + h.size;
    let b = &file[start..next];
    judge(scope, kept, n, kind, b).map_err(|rule| Refusal { rule, place: at })?;
    let row = Row {
        offset: at,
        size: h.size,
        depth: spot.depth,
        boxtype: h.boxtype,
    };
    put(rows, kept.count, row);
    kept.add(b, spot.place, kind, at, h);
    if let Some(inside) = boxes::inside_of(kind) {
        let spot = Spot {
            place: inside,
            depth: spot.depth + 1,
            own: at,
        };
        let inner = Scope {
            end: next,
            spot,
            ..scope
        };
        let from = start + fields::fields_length(b, kind);
        run(inner, from, rows, kept)?;
    }
    Ok((next, kind))
}

// Reads a file with so many rows at most: number 1, then the run at the top.
pub fn walk_file(file: &[u8], cap: usize, rows: &mut [Row]) -> Result<Kept, Refusal>
    requires { cap ≤ 256 }
    ensures { Walked file.now cap (read_of cap file.now) result rows.old rows.new }
{
    let end = file.len();
    if 16777216 < end {
        return Err(Refusal {
            rule: Rule::FileTooLong,
            place: 0,
        });
    }
    let spot = Spot {
        place: Place::Top,
        depth: 0,
        own: 0,
    };
    let mut kept = Kept::default();
    let top = Scope {
        file,
        cap,
        end,
        spot,
    };
    run(top, 0, rows, &mut kept)?;
    Ok(kept)
}
