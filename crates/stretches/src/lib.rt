// Stretches of a file that a caller is handed: content, the value of a textual header, a rights object's data.
// Each is a part of the caller's own slice, empty where the call is refused; a companion call has the number. Both calls of a pair
// take what one private function answers: the stretch, or the rule that refuses it.
#![tactic(auto)]

ghost use Rattle.std.specs.Prelude.{◌≡◌, IfOk};
ghost use Rattle.format.specs.Numbers.{number_of};
ghost use Rattle.format.specs.Judge.{read_of};
ghost use Rattle.format.specs.Report.{answer_of};
ghost use Rattle.stretches.specs.Given.{verdict, log_of, Gives, Inside, PartOf};
ghost use Rattle.stretches.specs.Content.{summary_in, content_refusal, content_of};
ghost use Rattle.stretches.specs.Header.{header_in, textual_header_refusal, textual_header_of, HeadersIn};
ghost use Rattle.stretches.specs.Rights.{rights_in, odrb_at, rights_data_refusal, rights_data_of, RightsAt};

use format::{Reading, Rule, Stretch, Summary};

// Whether the reading of a file is accepted, or the rule that refuses it. The reading stays where it is, and the file is for the clauses.
#[tactic(auto, using(crate::proofs::Readings::not_accepted, crate::proofs::Readings::went_on))]
fn accepted(_file: &[u8], reading: &Reading) -> Result<(), Rule>
    requires { reading.now ≡ answer_of (read_of 256 _file.now) }
    ensures { Gives (verdict _file.now) tt result }
{
    let verdict = reading.refusal.rule;
    let Rule::Done = verdict else {
        return Err(verdict);
    };
    Ok(())
}

// The summary of a container: reading's refusal, then 21.
#[tactic(auto, using(crate::proofs::Readings::content_refused, crate::proofs::Readings::passed_on, crate::proofs::Readings::few, crate::proofs::Readings::few_taken, crate::proofs::Readings::looked_up, crate::proofs::Readings::summary_headers))]
fn summary_at(file: &[u8], container: usize) -> Result<Summary, Rule>
    ensures gives { Gives (content_refusal file.now container) (summary_in file.now container) result }
    ensures headers { IfOk result (λ x. HeadersIn file.now x.headers) }
{
    let reading = reading::read_file(file);
    accepted(file, &reading)?;
    let summaries = &reading.summaries[..reading.containers];
    summaries.get(container).copied().ok_or(Rule::NoContainer)
}

// Where the content of a container stands: reading's refusal, then 21.
#[tactic(auto, using(crate::proofs::Readings::passed_on, crate::proofs::Readings::content_held))]
fn content_at(file: &[u8], container: usize) -> Result<Stretch, Rule>
    ensures gives { Gives (content_refusal file.now container) (summary_in file.now container).content result }
    ensures inside { IfOk result (Inside file.now) }
{
    Ok(summary_at(file, container)?.content)
}

// The content of a container: D bytes, IV included.
#[tactic(auto, using(crate::proofs::Parts::unwrapped, crate::proofs::Parts::part), unfolding(crate::specs::Content::content_of))]
pub fn content(file: &[u8], container: usize) -> &[u8]
    ensures { PartOf file.entry (content_of file.now container) result }
{
    content_at(file, container).unwrap_or_default().of(file)
}

// The number of `content`: reading's refusal, then 21.
pub fn content_refusal(file: &[u8], container: usize) -> Rule
    ensures { number_of result ≡ content_refusal file.now container }
{
    content_at(file, container).err().unwrap_or(Rule::Done)
}

// Where the value of the first textual header of a name in a container stands: reading's refusal, then 21, then 22.
#[tactic(auto, using(crate::proofs::Readings::passed_on, crate::proofs::Parts::header_refused, crate::proofs::Parts::searchable, crate::proofs::Parts::header_missing, crate::proofs::Parts::header_given, crate::proofs::Parts::header_found, crate::proofs::Parts::value_held))]
fn header_value(file: &[u8], container: usize, name: &[u8]) -> Result<Stretch, Rule>
    ensures gives { Gives (textual_header_refusal file.now container name.now) (header_in file.now container name.now) result }
    ensures inside { IfOk result (Inside file.now) }
{
    let headers = summary_at(file, container)?.headers;
    let found = strings::find(headers.of(file), name);
    let (start, length) = found.ok_or(Rule::NoTextualHeader)?;
    Ok(Stretch {
        offset: headers.offset + start,
        length,
    })
}

// The value of the first textual header of a name in a container, ASCII letters in either case.
#[tactic(auto, using(crate::proofs::Parts::unwrapped, crate::proofs::Parts::part), unfolding(crate::specs::Header::header_in, crate::specs::Header::textual_header_of))]
pub fn textual_header<'a>(file: &'a [u8], container: usize, name: &[u8]) -> &'a [u8]
    ensures { PartOf file.entry (textual_header_of file.now container name.now) result }
{
    header_value(file, container, name)
        .unwrap_or_default()
        .of(file)
}

// The number of `textual_header`: reading's refusal, then 21, then 22.
pub fn textual_header_refusal(file: &[u8], container: usize, name: &[u8]) -> Rule
    ensures { number_of result ≡ textual_header_refusal file.now container name.now }
{
    header_value(file, container, name)
        .err()
        .unwrap_or(Rule::Done)
}

// The rights object of an index, sought along the boxes of the mdri at an offset: each says where the next one starts.
#[tactic(auto, using(crate::proofs::Seeking::seek, crate::proofs::Seeking::past_odrb, crate::proofs::Seeking::past_other))]
fn rights_at(file: &[u8], mdri: usize, index: usize) -> Stretch
    requires { RightsAt file.now mdri index }
    ensures value { result ≡ rights_in (odrb_at (log_of (read_of 256 file.now)) index) }
    ensures inside { Inside file.now result }
{
    let mut at = mdri + boxes::read_head(&file[mdri..]).unwrap().skip;
    let mut left = index;
    loop {
        let head = boxes::read_head(&file[at..]).unwrap();
        if head.boxtype == boxes::ODRB {
            if left == 0 {
                // The data stands behind the version and the flags.
                let start = head.skip + 4;
                return Stretch {
                    offset: at + start,
                    length: head.size - start,
                };
            }
            left -= 1;
        }
        at += head.size;
    }
}

// Where the rights object of an index stands: reading's refusal, then 14, then 17.
#[tactic(auto, using(crate::proofs::Readings::passed_on, crate::proofs::Rights::rights_refused, crate::proofs::Rights::no_mdri, crate::proofs::Rights::no_rights, crate::proofs::Rights::has_rights, crate::proofs::Rights::rights_object_at))]
fn rights_object(file: &[u8], index: usize) -> Result<Stretch, Rule>
    ensures gives { Gives (rights_data_refusal file.now index) (rights_in (odrb_at (log_of (read_of 256 file.now)) index)) result }
    ensures inside { IfOk result (Inside file.now) }
{
    let answer = reading::read_file(file);
    accepted(file, &answer)?;
    let Reading { mdri, rights, .. } = answer;
    if mdri == 0 {
        return Err(Rule::NoMdri);
    }
    if rights <= index {
        return Err(Rule::NoRights);
    }
    Ok(rights_at(file, mdri, index))
}

// The data of the rights object of an index, in file order: an odrb's bytes after its version and flags.
#[tactic(auto, using(crate::proofs::Parts::unwrapped, crate::proofs::Parts::part), unfolding(crate::specs::Rights::rights_data_of))]
pub fn rights_data(file: &[u8], index: usize) -> &[u8]
    ensures { PartOf file.entry (rights_data_of file.now index) result }
{
    rights_object(file, index).unwrap_or_default().of(file)
}

// The number of `rights_data`: reading's refusal, then 14, then 17.
pub fn rights_data_refusal(file: &[u8], index: usize) -> Rule
    ensures { number_of result ≡ rights_data_refusal file.now index }
{
    rights_object(file, index).err().unwrap_or(Rule::Done)
}
