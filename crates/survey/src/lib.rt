// What a stream alone decides: questions 4 and 6 to 26 with the lock that they find, and the counts of what opening the
// stream will take, in one pass over its records. From the Rust source's excel97.rs, the first steps of its `decrypt`;
// the counts are request T-04 of document 02.
#![tactic(auto)]

ghost use Rattle.std.specs.Prelude.{◌≡◌, None};
ghost use Rattle.laws.specs.Choice.{pick};
ghost use Rattle.binary_office.specs.Walk.{walk};
ghost use Rattle.file_params.specs.Questions.{asked, unless, in_order, starts_bof, lock};
ghost use Rattle.survey.specs.Survey.{enciphered_len, counts_of, scheme_by, surveyed};
ghost use Rattle.survey.specs.Steps.{filepass_on, other_on, tally_of, locked_by};

use binary_office::{BiffRecord, Step};
use file_params::Refusal;

// The lock of a FILEPASS body.
#[derive(Clone, Copy, Debug, PartialEq, Eq)]
pub enum Scheme {
    Xor,
    Rc4(block_keys::Rc4Lock),
}

// A stream that no question refuses: how many records it has and how many of their bytes are enciphered, its first
// FILEPASS, and the lock.
#[derive(Clone, Copy, Debug, PartialEq, Eq)]
pub struct Book {
    pub records: usize,
    pub enciphered: usize,
    pub filepass: BiffRecord,
    pub scheme: Scheme,
}

// A walk of the whole stream: the place of the fault at which it ends, how many records there are, how many of their
// bytes are enciphered, the first FILEPASS, and the first id before it that is not one of the seven.
#[derive(Clone, Copy, Debug, PartialEq, Eq)]
struct Tally {
    fault: Option<usize>,
    records: usize,
    enciphered: usize,
    filepass: Option<BiffRecord>,
    other: Option<u16>,
}

// What a walk of the whole stream counts: the place of the fault at which it ends, how many records there are, and how
// many of their bytes are enciphered.
#[derive(Clone, Copy, Debug, PartialEq, Eq)]
pub struct Counts {
    pub fault: Option<usize>,
    pub records: usize,
    pub enciphered: usize,
}

// Whether the first record is BOF.
fn starts_bof(stream: &[u8]) -> bool
    ensures { result ≡ starts_bof (walk stream.now).records }
{
    match binary_office::step_at(stream, 0) {
        Step::Record(id, _) => id == 0x0809,
        Step::Fault(_) => false,
        Step::End => false,
    }
}

// Asks questions 6 and 7 of a stream, whose walk ends at a fault or cleanly.
pub fn check_records(stream: &[u8], fault: Option<usize>) -> Result<(), Refusal>
    ensures { result ≡ unless tt (asked (in_order fault (walk stream.now).records)) }
{
    if let Some(at) = fault {
        return Err(Refusal::BiffRecordUnreadable(at));
    }
    if starts_bof(stream) {
        Ok(())
    } else {
        Err(Refusal::WorkbookBofMissing)
    }
}

// A record where no FILEPASS is before it: the first FILEPASS, if it is one.
fn filepass_in(next: BiffRecord) -> Option<BiffRecord>
    ensures { result ≡ filepass_on None next }
{
    if next.id == 0x002F { Some(next) } else { None }
}

// The first id that is not one of the seven, with one record more, where no FILEPASS is before it.
fn other_on(other: Option<u16>, id: u16) -> Option<u16>
    ensures { result ≡ other_on None other id }
{
    if other.is_none() & !binary_office::never_encrypted(id) {
        Some(id)
    } else {
        other
    }
}

// One of two numbers, by a test.
fn one_of(test: bool, yes: u16, no: u16) -> u16
    ensures { result ≡ pick test yes no }
{
    if test { yes } else { no }
}

// How many bytes of a body are enciphered. Each test picks a number, so that the seven ids need no branch.
fn enciphered_len(id: u16, len: u16) -> u16
    ensures { result ≡ enciphered_len id len }
{
    let most = one_of(id == 0x0085, 4, 0);
    let few = one_of(len < most, len, most);
    len - one_of(binary_office::never_encrypted(id), len, few)
}

// Walks the whole stream, and tallies what the questions are asked of.
fn tally_records(stream: &[u8]) -> Tally
    ensures { result ≡ tally_of stream.now }
{
    let mut fault = None;
    let mut records = 0;
    let mut enciphered = 0;
    let mut filepass = None;
    let mut other = None;
    for record in binary_office::biff_records(stream, 0) {
        match record {
            Ok(next) => {
                if filepass.is_none() {
                    other = other_on(other, next.id);
                    filepass = filepass_in(next);
                }
                enciphered += enciphered_len(next.id, next.len) as usize;
                records += 1;
            }
            Err(place) => fault = Some(place),
        }
    }
    Tally {
        fault,
        records,
        enciphered,
        filepass,
        other,
    }
}

// Counts the records of a stream and their enciphered bytes.
pub fn count_records(stream: &[u8]) -> Counts
    ensures { result ≡ counts_of (walk stream.now) }
{
    let walked = tally_records(stream);
    Counts {
        fault: walked.fault,
        records: walked.records,
        enciphered: walked.enciphered,
    }
}

// Asks questions 10 to 26: the lock of a FILEPASS body, or the first refusal.
fn find_lock(body: &[u8]) -> Result<Scheme, Refusal>
    ensures { result ≡ unless (scheme_by body.now) (asked (lock body.now)) }
{
    let have = body.len();
    let kind = binary_office::le16(body, 0).ok_or(Refusal::FilepassTruncated(have, 2))?;
    if kind == 0 {
        if have < 6 {
            return Err(Refusal::FilepassTruncated(have - 2, 4));
        }
        return Ok(Scheme::Xor);
    }
    if 1 < kind {
        return Err(Refusal::FilepassEncryptionType(kind));
    }
    Ok(Scheme::Rc4(block_keys::scheme_of(&body[2..])?))
}

// Asks questions 8 to 26 of a stream that was tallied.
fn check_locked(stream: &[u8], tally: Tally) -> Result<Book, Refusal>
    requires { tally ≡ tally_of stream.now }
    ensures { result ≡ locked_by stream.now }
{
    let filepass = tally.filepass.ok_or(Refusal::NotEncrypted)?;
    if let Some(id) = tally.other {
        return Err(Refusal::FilepassOutOfOrder(id));
    }
    let start = filepass.at + 4;
    let end = start + (filepass.len as usize);
    let scheme = find_lock(&stream[start..end])?;
    Ok(Book {
        records: tally.records,
        enciphered: tally.enciphered,
        filepass,
        scheme,
    })
}

// Asks questions 4 and 6 to 26: what the stream alone says of its opening, or the first refusal.
pub fn survey(stream: &[u8]) -> Result<Book, Refusal>
    ensures { result ≡ surveyed stream.now }
{
    if limits::LEGACY_STREAM_READ_CAP < stream.len() {
        return Err(Refusal::StreamTooLarge);
    }
    let tally = tally_records(stream);
    check_records(stream, tally.fault)?;
    check_locked(stream, tally)
}
