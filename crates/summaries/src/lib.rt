// Container summaries of an accepted file (document 01, Numbers given back), each made from the offset of its odrm alone.
#![tactic(auto)]

ghost use Rattle.std.specs.Prelude.{◌≡◌, ◌+◌, ◌≤◌, List, map, length};
ghost use Rattle.format.specs.Boxes.{Container};
ghost use Rattle.format.specs.Report.{summary_of, eight};
ghost use Rattle.summaries.specs.Contained.{FullAt, Contained, ContainerAt, Begun, Listed};
ghost use Rattle.summaries.specs.Parts.{Opening, four_of, headers_end, headers_in, ContentIn};

use format::{DataLength, Full, PlaintextLength, Row, Stretch, Summary};

// A full box: its row and flags, where its fields start, and where it ends.
#[derive(Drop)]
struct Opened {
    full: Full,
    fields: usize,
    end: usize,
}

// The four boxes of a container with its ContentType, and where the fields of ohdr and of odda start, which a summary does not say.
#[derive(Drop)]
struct Four {
    odrm: Full,
    odhe: Full,
    ohdr: Full,
    odda: Full,
    contenttype: Stretch,
    ohdrfields: usize,
    oddafields: usize,
}

// The fields of an ohdr after its version and flags, as a summary reports them.
#[derive(Drop)]
struct CommonHeaders {
    method: usize,
    padding: usize,
    plaintextlength: PlaintextLength,
    contentid: Stretch,
    issuer: Stretch,
    headers: Stretch,
}

// The full box at an offset, its header decoded once. The offset is what a row reports, so no part of the slice comes in its place.
fn opened_at(s: &[u8], at: usize, depth: usize) -> Opened
    requires { FullAt s.now at depth }
    ensures { Opening s.now at depth result }
{
    let head = boxes::read_head(&s[at..]).unwrap();
    let fields = at + head.skip;
    let row = Row {
        offset: at,
        size: head.size,
        depth,
        boxtype: head.boxtype,
    };
    let flags = numbers::read::<3>(s, fields + 1);
    Opened {
        full: Full { row, flags },
        fields,
        end: at + head.size,
    }
}

// An odrm's first box is its odhe, whose first box is the ohdr; its second box is the odda.
fn four_at(s: &[u8], at: usize) -> Four
    requires { ContainerAt s.now at }
    ensures { (c : Container) → Contained s.now at c → result ≡ four_of c }
{
    let odrm = opened_at(s, at, 0);
    let odhe = opened_at(s, odrm.fields + 4, 1);
    let start = odhe.fields + 5;
    let length = numbers::read::<1>(s, odhe.fields + 4);
    let end = odhe.end;
    let ohdr = opened_at(s, start + length, 2);
    let odda = opened_at(s, end, 1);
    Four {
        odrm: odrm.full,
        odhe: odhe.full,
        ohdr: ohdr.full,
        odda: odda.full,
        contenttype: Stretch {
            offset: start,
            length,
        },
        ohdrfields: ohdr.fields,
        oddafields: odda.fields,
    }
}

// The fields of the ohdr whose fields start at an offset: its three strings stand one behind the other.
fn common_headers(s: &[u8], at: usize) -> CommonHeaders
    requires { headers_end s.now at ≤ length s.now }
    ensures { result ≡ headers_in s.now at }
{
    let contentid = Stretch {
        offset: at + 20,
        length: numbers::read::<2>(s, at + 14),
    };
    let issuer = Stretch {
        offset: contentid.offset + contentid.length,
        length: numbers::read::<2>(s, at + 16),
    };
    let headers = Stretch {
        offset: issuer.offset + issuer.length,
        length: numbers::read::<2>(s, at + 18),
    };
    CommonHeaders {
        method: numbers::read::<1>(s, at + 4),
        padding: numbers::read::<1>(s, at + 5),
        plaintextlength: PlaintextLength(numbers::read::<8>(s, at + 6) as u64),
        contentid,
        issuer,
        headers,
    }
}

// The content of the odda whose fields start at an offset: as many bytes behind them as its data length says.
fn content_at(s: &[u8], at: usize) -> Stretch
    requires { at + 12 ≤ length s.now }
    ensures { ContentIn s.now at result }
{
    Stretch {
        offset: at + 12,
        length: numbers::read::<8>(s, at + 4),
    }
}

// The summary of the container whose odrm stands at an offset, field by field: three values make it.
pub fn summary_at(s: &[u8], at: usize) -> Summary
    requires { ContainerAt s.now at }
    ensures { (c : Container) → Contained s.now at c → result ≡ summary_of c }
{
    let four = four_at(s, at);
    let header = common_headers(s, four.ohdrfields);
    let content = content_at(s, four.oddafields);
    Summary {
        odrm: four.odrm,
        odhe: four.odhe,
        ohdr: four.ohdr,
        odda: four.odda,
        method: header.method,
        padding: header.padding,
        plaintextlength: header.plaintextlength,
        datalength: DataLength(content.length as u64),
        contenttype: four.contenttype,
        contentid: header.contentid,
        issuer: header.issuer,
        headers: header.headers,
        content,
    }
}

// The summaries of the containers whose odrm stand at these offsets, and 0 in the unused ones: fixed memory holds eight.
pub fn summaries(s: &[u8], starts: &[usize]) -> [Summary; 8]
    requires { Begun s.now starts.now (length starts.now) }
    ensures { (cs : List Container) → Listed s.now starts.now (length starts.now) cs → result ≡ eight (map summary_of cs) }
{
    let mut all = [Summary::default(); 8];
    for (i, at) in starts.iter().enumerate() {
        all[i] = summary_at(s, *at);
    }
    all
}
