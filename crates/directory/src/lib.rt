// The directory of sheets: request T-01 of document 02, over the record walk of binary_office. Nothing of it is in
// the Rust source.
#![tactic(auto)]

ghost use Rattle.std.specs.Prelude.{◌≡◌, ◌+◌, ◌^◌, ◌≤◌, ◌<◌, [], leb, length, None};
ghost use Rattle.std.specs.List.{slice_get};
ghost use Rattle.laws.specs.Choice.{pick};
ghost use Rattle.word.specs.Word.{le32};
ghost use Rattle.binary_office.specs.Walk.{walk};
ghost use Rattle.file_params.specs.Questions.{asked, unless};
ghost use Rattle.directory.specs.Directory.{bound_sheets, starts, bof_at, unfit, of_sheets, sheets_of, directory};
ghost use Rattle.directory.specs.Steps.{paired_by, depth, unpaired_by, tally_of, NextSheet, Reaches};

use binary_office::BiffRecord;
use file_params::Refusal;

// What is reported of a stream's sheets: how many there are, and the start of the one that was asked for, if there is
// one.
#[derive(Clone, Copy, Debug, PartialEq, Eq)]
pub struct Sheets {
    pub count: usize,
    pub start: Option<usize>,
}

// A walk of the whole stream: the place of the fault at which it ends, how many BoundSheet8 records there are, and how
// BOF and EOF pair up: how many BOF are open, or the offset of an EOF with none open.
#[derive(Clone, Copy, Debug, PartialEq, Eq)]
struct Tally {
    fault: Option<usize>,
    sheets: usize,
    pairing: Result<usize, usize>,
}

// How BOF and EOF pair up with one record more.
#[tactic(auto, unfolding(laws::specs::Choice::pick))]
fn paired(pairing: Result<usize, usize>, at: usize, id: u16) -> Result<usize, usize>
    requires { depth pairing + 1 < 2 ^ 64 }
    ensures { result ≡ paired_by pairing at id }
{
    let open = pairing?;
    match id {
        0x0809 => Ok(open + 1),
        0x000A => open.checked_sub(1).ok_or(at),
        _ => Ok(open),
    }
}

// Walks the whole stream, and tallies what questions 6, 28 and 29 are asked of.
fn tally_records(stream: &[u8]) -> Tally
    ensures { result ≡ tally_of stream.now }
{
    let mut fault = None;
    let mut sheets = 0;
    let mut pairing: Result<usize, usize> = Ok(0);
    for record in binary_office::biff_records(stream, 0) {
        match record {
            Ok(next) => {
                pairing = paired(pairing, next.at, next.id);
                sheets += usize::from(next.id == 0x0085);
            }
            Err(place) => fault = Some(place),
        }
    }
    Tally {
        fault,
        sheets,
        pairing,
    }
}

// The offset in refusal 29, for a stream of so many bytes whose BOF and EOF pair up as given.
#[tactic(auto, unfolding(laws::specs::Choice::pick, crate::specs::Directory::unpaired))]
fn unpaired(pairing: Result<usize, usize>, size: usize) -> Option<usize>
    ensures { result ≡ unpaired_by size pairing [] }
{
    match pairing {
        Ok(0) => None,
        Ok(_) => Some(size),
        Err(offset) => Some(offset),
    }
}

// The next BoundSheet8 record from the header of a record on.
fn next_sheet(stream: &[u8], from: usize) -> Option<BiffRecord>
    ensures { NextSheet stream.now from result }
{
    for record in binary_office::biff_records(stream, from) {
        let Ok(next) = record else {
            return None;
        };
        if next.id == 0x0085 {
            return Some(next);
        }
    }
    None
}

// The start of a sheet, from the first four bytes of the body of its BoundSheet8 record.
#[tactic(auto, unfolding(word::specs::Word::le32))]
fn start_of(stream: &[u8], body: usize) -> usize
    requires { body + 4 ≤ length stream.now }
    ensures { result ≡ le32 stream.now body }
{
    word::from_le_bytes(
        stream[body],
        stream[body + 1],
        stream[body + 2],
        stream[body + 3],
    ) as usize
}

// Where a search for an offset begins: at a header that is not past it, or at the front.
#[tactic(auto, unfolding(laws::specs::Choice::pick))]
fn begin(from: usize, offset: usize) -> usize
    ensures { result ≡ pick (leb from offset) from 0 }
{
    if from <= offset { from } else { 0 }
}

// Whether an offset is the header of a BOF record, by a walk from another header or from the front.
fn bof_at(stream: &[u8], from: usize, offset: usize) -> bool
    requires { Reaches stream.now from }
    ensures { result ≡ bof_at (walk stream.now).records offset }
{
    for record in binary_office::biff_records(stream, begin(from, offset)) {
        let Ok(next) = record else {
            return false;
        };
        if offset <= next.at {
            return (next.at == offset) & (next.id == 0x0809);
        }
    }
    false
}

// Finds the first BoundSheet8 record that question 28 refuses, of so many as there are: nothing behind the last is
// walked. The walk's place is kept from one start to the next, and goes back to the front where a start is lower than
// the one before.
fn find_unfit(stream: &[u8], sheets: usize) -> Option<usize>
    requires { sheets ≡ length (bound_sheets (walk stream.now).records) }
    ensures { result ≡ unfit stream.now (walk stream.now).records (bound_sheets (walk stream.now).records) }
{
    let mut at: usize = 0;
    let mut from: usize = 0;
    for _ in 0..sheets {
        let sheet = next_sheet(stream, at)?;
        if sheet.len < 4 {
            return Some(sheet.at);
        }
        let start = start_of(stream, sheet.at + 4);
        if !bof_at(stream, from, start) {
            return Some(sheet.at);
        }
        from = start;
        at = sheet.at + 4 + (sheet.len as usize);
    }
    None
}

// The start of the sheet at a place, of so many: none from the count on.
fn start_at(stream: &[u8], sheets: usize, place: usize) -> Option<usize>
    requires all_fit { None ≡ unfit stream.now (walk stream.now).records (bound_sheets (walk stream.now).records) }
    requires counted { sheets ≡ length (bound_sheets (walk stream.now).records) }
    ensures { result ≡ slice_get (starts stream.now (bound_sheets (walk stream.now).records)) place }
{
    if sheets <= place {
        return None;
    }
    let mut at: usize = 0;
    for _ in 0..place {
        let before = next_sheet(stream, at)?;
        at = before.at + 4 + (before.len as usize);
    }
    let sheet = next_sheet(stream, at)?;
    Some(start_of(stream, sheet.at + 4))
}

// Asks questions 28 and 29 of a stream that was tallied.
fn ask_sheets(stream: &[u8], tally: Tally, place: usize) -> Result<Sheets, Refusal>
    requires { tally ≡ tally_of stream.now }
    ensures { result ≡ unless (sheets_of stream.now (bound_sheets (walk stream.now).records) place) (asked (of_sheets stream.now)) }
{
    if let Some(at) = find_unfit(stream, tally.sheets) {
        return Err(Refusal::BoundSheetStart(at));
    }
    if let Some(at) = unpaired(tally.pairing, stream.len()) {
        return Err(Refusal::BofEofUnpaired(at));
    }
    Ok(Sheets {
        count: tally.sheets,
        start: start_at(stream, tally.sheets, place),
    })
}

// How many sheets a stream has and, for a place from 0 in stream order, where that sheet starts; or a refusal.
pub fn directory(stream: &[u8], place: usize) -> Result<Sheets, Refusal>
    ensures { result ≡ directory stream.now place }
{
    if limits::LEGACY_STREAM_READ_CAP < stream.len() {
        return Err(Refusal::StreamTooLarge);
    }
    let tally = tally_records(stream);
    survey::check_records(stream, tally.fault)?;
    ask_sheets(stream, tally, place)
}
