// Open: the plain stream of a protected workbook, from the Rust source's excel97.rs, with its names. The compound
// file around the stream is left out, `book.clone()` is the output that the caller lends, and under RC4 password text
// goes through the lent scratch.
#![tactic(auto)]

ghost use Rattle.std.specs.Option.{option_map};
ghost use Rattle.std.specs.Prelude.{◌≡◌, ℕ, ◌+◌, ◌≤◌, true, ◌++◌, length, get_or, drop, replicate, None, Some};
ghost use Rattle.laws.specs.Choice.{pick};
ghost use Rattle.laws.proofs.Written.{Written};
ghost use Rattle.sensitive.specs.Utf8.{well_formed};
ghost use Rattle.sensitive.specs.Ansi.{ansi};
ghost use Rattle.binary_office.specs.declared.BiffRecord.{BiffRecord};
ghost use Rattle.file_params.specs.Questions.{scratch_need, asked, unless, lent, of_stream, le16, filepass_body, type_of, structure_of};
ghost use Rattle.survey.specs.Survey.{block_keys, book_of};
ghost use Rattle.block_keys.specs.Lock.{lock_of};
ghost use Rattle.excel97.specs.Open.{xor_matches, array_of, xor_byte, in_record, by_kind, Opens};
ghost use Rattle.excel97.specs.Steps.{xor_lock_of, through_at, Through, ThroughRc4, Blanks, Unlocks, IsFirst, Ready, Accepted, Settles};

use binary_office::BiffRecord;
use file_params::Refusal;
use survey::{Book, Scheme};
use xor_obfuscation::Way;

// The lock of a workbook.
#[derive(Clone, Copy, Debug, PartialEq, Eq)]
pub enum Lock {
    Xor,
    Office97,
    CryptoApi,
}

// What is reported of a stream that was opened.
#[derive(Clone, Copy, Debug, PartialEq, Eq)]
pub struct Report {
    pub records: usize,
    pub lock: Lock,
    pub key_bits: u32,
    pub summary_sealed: bool,
    pub output_bytes: usize,
    pub enciphered_body_bytes: usize,
    pub block_keys: usize,
}

// Asks questions 1 to 5.
pub fn check_lent(
    password: &[u8],
    stream: usize,
    scratch: usize,
    output: usize,
) -> Result<(), Refusal>
    ensures { result ≡ unless tt (asked (lent scratch_need password.now stream scratch output)) }
{
    if limits::PASSWORD_MAX_LEN < password.len() {
        return Err(Refusal::PasswordTooLong);
    }
    if !sensitive::well_formed(password) {
        return Err(Refusal::PasswordMalformed);
    }
    if scratch < limits::SCRATCH_LEN {
        return Err(Refusal::ScratchShort);
    }
    if limits::LEGACY_STREAM_READ_CAP < stream {
        return Err(Refusal::StreamTooLarge);
    }
    if output < stream {
        return Err(Refusal::OutputShort);
    }
    Ok(())
}

// Copies the bytes of src from an offset up to another to the same places of dst.
// Kept by index: copy_from_slice has LLVM call memmove, and the archive asks its host for memcpy and memset alone.
fn copy(src: &[u8], from: usize, to: usize, dst: &mut [u8])
    requires { (from ≤ to) × (to ≤ length src.now) × (to ≤ length dst.old) }
    ensures { Written (λ (o : ℕ). get_or src.now o 0) from to dst.old dst.new }
{
    for i in from..to {
        dst[i] = src[i];
    }
}

// Copies the four bytes of a header to the same places of dst. All are loaded before the stores, so that LLVM copies
// them at once.
// Kept by index: copy_from_slice compares the addresses of both sides as it runs; with it for header and clear part,
// small records open 0.90 to 0.95 times as fast under XOR.
fn copy_header(src: &[u8], at: usize, dst: &mut [u8])
    requires { (at + 4 ≤ length src.now) × (at + 4 ≤ length dst.old) }
    ensures { Written (λ (o : ℕ). get_or src.now o 0) at (at + 4) dst.old dst.new }
{
    let a = src[at];
    let b = src[at + 1];
    let c = src[at + 2];
    let d = src[at + 3];
    dst[at] = a;
    dst[at + 1] = b;
    dst[at + 2] = c;
    dst[at + 3] = d;
}

// Copies a record's header and the clear part after it to the same places of dst.
// Kept by index, as the header is: most clear parts have no byte or four.
fn copy_clear(src: &[u8], at: usize, clear: usize, dst: &mut [u8])
    requires { (at + 4 + clear ≤ length src.now) × (at + 4 + clear ≤ length dst.old) }
    ensures { Written (λ (o : ℕ). get_or src.now o 0) at (at + 4 + clear) dst.old dst.new }
{
    copy_header(src, at, dst);
    for i in at + 4..at + 4 + clear {
        dst[i] = src[i];
    }
}

// What a password makes under XOR: its key, its verifier and its array. They are secrets, so nothing prints them.
#[derive(Clone, Copy, PartialEq, Eq)]
pub struct XorLock {
    pub key: u16,
    pub verifier: u16,
    pub array: [u8; 16],
}

// Makes the key, the verifier and the array of an XOR password, where it is one of 1 to 15 characters up to U+00FF.
#[tactic(auto, using(crate::proofs::Keys::keyed_bytes))]
pub fn xor_lock(password: &[u8]) -> Option<XorLock>
    ensures { result ≡ option_map xor_lock_of (ansi password.now) }
{
    let ansi = sensitive::ansi_password(password)?;
    let bytes = ansi.as_slice();
    let key = xor_obfuscation::xor_key(bytes)?;
    Some(XorLock {
        key,
        verifier: xor_obfuscation::password_verifier(bytes),
        array: xor_obfuscation::xor_array(bytes, key),
    })
}

// The field of two bytes at an offset of a FILEPASS body.
#[tactic(auto, using(binary_office::proofs::Headers::le16_is, binary_office::proofs::Headers::le16_cut))]
fn field(body: &[u8], at: usize) -> u16
    requires { at + 2 ≤ length body.now }
    ensures { result ≡ le16 body.now at }
{
    binary_office::le16(body, at).unwrap_or(0)
}

// Tries a password on an XOR lock: the array that it makes, where key and verifier both match those of the FILEPASS body.
#[tactic(auto, unfolding(laws::specs::Choice::pick))]
fn try_xor(body: &[u8], password: &[u8]) -> Option<[u8; 16]>
    requires { 6 ≤ length body.now }
    ensures { result ≡ pick (xor_matches body.now (ansi password.now)) (Some (array_of (ansi password.now))) None }
{
    let lock = xor_lock(password)?;
    if (lock.key == field(body, 2)) & (lock.verifier == field(body, 4)) {
        Some(lock.array)
    } else {
        None
    }
}

// Up to where a record's enciphered bytes are put through XOR: under 16 of them go on to 16 where the stream has so
// many, since 16 bytes take less time than a few.
fn far_enough(start: usize, end: usize, stream: usize) -> usize
    requires { (start ≤ end) × (end ≤ stream) }
    ensures { (end ≤ result) × (result ≤ stream) }
{
    if start == end {
        return end;
    }
    if 16 <= end - start {
        return end;
    }
    if stream - start < 16 {
        return end;
    }
    start + 16
}

// Puts one record through XOR, and what follows it up to where the result says, by the record's own index: header and
// clear part are the stream's own.
#[tactic(auto, using(survey::proofs::Records::clear_within))]
fn xor_record(
    way: Way,
    stream: &[u8],
    array: &[u8; 16],
    found: BiffRecord,
    output: &mut [u8],
) -> usize
    requires { (found.at + 4 + found.len ≤ length stream.now) × (length stream.now ≤ length output.old) }
    ensures { (found.at + 4 + found.len ≤ result) × (result ≤ length stream.now) × Written (λ (o : ℕ). in_record (xor_byte way array.now) (Some found) o (get_or stream.now o 0)) found.at result output.old output.new }
{
    let clear = binary_office::clear_len(found.id, found.len) as usize;
    let start = found.at + 4 + clear;
    let end = found.at + 4 + (found.len as usize);
    let to = far_enough(start, end, stream.len());
    copy_clear(stream, found.at, clear, output);
    xor_obfuscation::transform(
        way,
        array,
        end + clear,
        &stream[start..to],
        &mut output[start..to],
    );
    to
}

// Puts a stream through XOR, record by record; what lies after the records is the stream's own. What is written past
// a short record is overwritten by what follows it.
#[tactic(auto, using(binary_office::proofs::Records::gave_record, binary_office::proofs::Records::gave_fault, crate::proofs::Records::stands_still, crate::proofs::Records::meets))]
fn xor_records(way: Way, stream: &[u8], array: &[u8; 16], output: &mut [u8])
    requires { length stream.now ≤ length output.old }
    ensures { Written (through_at stream.now (xor_byte way array.now)) 0 (length stream.now) output.old output.new }
{
    let mut end = 0;
    for record in binary_office::biff_records(stream, 0) {
        if let Ok(next) = record {
            xor_record(way, stream, array, next, output);
            end = next.at + 4 + (next.len as usize);
        }
    }
    copy(stream, end, stream.len(), output);
}

// Puts the headers, the clear parts and what lies after the records back into a stream whose every byte was enciphered
// or deciphered.
#[tactic(auto, using(survey::proofs::Records::clear_within, binary_office::proofs::Records::gave_record, binary_office::proofs::Records::gave_fault, crate::proofs::Records::stands_still, crate::proofs::Records::meets))]
fn restore(stream: &[u8], output: &mut [u8])
    requires { length stream.now ≤ length output.old }
    ensures { Written (through_at stream.now (λ (r : BiffRecord) (o x : ℕ). get_or output.old o 0)) 0 (length stream.now) output.old output.new }
{
    let mut rest = 0;
    for record in binary_office::biff_records(stream, 0) {
        if let Ok(next) = record {
            let clear = binary_office::clear_len(next.id, next.len) as usize;
            copy_clear(stream, next.at, clear, output);
            rest = next.at + 4 + (next.len as usize);
        }
    }
    copy(stream, rest, stream.len(), output);
}

// Puts the enciphered bytes of a stream through XOR into an output; the others are copied. An output that is too short
// stays as it is.
pub fn apply_xor(way: Way, stream: &[u8], array: &[u8; 16], output: &mut [u8])
    ensures { Through stream.now (xor_byte way array.now) output.old output.new }
{
    if output.len() < stream.len() {
        return;
    }
    xor_records(way, stream, array, output);
}

// Puts the enciphered bytes of a stream through RC4 into an output, by the keys of a schedule; the others are copied.
// Returns how many block keys were derived. An output that is too short stays as it is.
pub fn apply_rc4(stream: &[u8], schedule: block_keys::Schedule, output: &mut [u8]) -> usize
    ensures { ThroughRc4 stream.now schedule output.old result output.new }
{
    if output.len() < stream.len() {
        return 0;
    }
    let keys = block_keys::decrypt_in_blocks(schedule, 1024, stream, output);
    restore(stream, output);
    keys
}

// Gives the first FILEPASS id 0000 and a zero body.
fn blank(output: &mut [u8], filepass: BiffRecord)
    requires { filepass.at + 4 + filepass.len ≤ length output.old }
    ensures { Blanks filepass output.old output.new }
{
    let at = filepass.at;
    let body = at + 4;
    output[at..at + 2].fill(0);
    output[body..body + (filepass.len as usize)].fill(0);
}

// The body of a stream's first FILEPASS.
#[tactic(auto, using(survey::proofs::Asked::body_inside, survey::proofs::Asked::body_slice))]
fn body_of(stream: &[u8], first: BiffRecord) -> &[u8]
    requires { IsFirst stream.now first }
    ensures { result.now ≡ filepass_body stream.now }
{
    let start = first.at + 4;
    &stream[start..start + (first.len as usize)]
}

// Tries a password on an XOR lock, and opens the stream into the output where it passes.
fn unlock_xor(
    stream: &[u8],
    filepass: BiffRecord,
    password: &[u8],
    output: &mut [u8],
) -> Result<(), Refusal>
    requires { Ready stream.now output.old filepass × (type_of (filepass_body stream.now) ≡ 0) × (6 ≤ length (filepass_body stream.now)) }
    ensures { Unlocks stream.now password.now output.old tt result output.new }
{
    let body = body_of(stream, filepass);
    let array = try_xor(body, password).ok_or(Refusal::WrongPassword)?;
    apply_xor(Way::Decrypt, stream, &array, output);
    blank(output, filepass);
    Ok(())
}

// Tries a password on an RC4 lock, and opens the stream into the output where it passes. Returns how many block keys were
// derived in all.
fn unlock_rc4(
    stream: &[u8],
    filepass: BiffRecord,
    lock: block_keys::Rc4Lock,
    password: &[u8],
    scratch: &mut [u8],
    output: &mut [u8],
) -> Result<usize, Refusal>
    requires { Ready stream.now output.old filepass × (type_of (filepass_body stream.now) ≡ 1) × (2 ≤ length (filepass_body stream.now)) × (lock ≡ lock_of (structure_of (filepass_body stream.now))) × Accepted stream.now password.now scratch.old output.old }
    ensures { Unlocks stream.now password.now output.old (block_keys (filepass_body stream.now) (length stream.now)) result output.new × (scratch.new ≡ replicate 64 0 ++ drop 64 scratch.old) }
{
    let structure = &body_of(stream, filepass)[2..];
    let schedule = block_keys::schedule_of(structure, lock, password, scratch).ok_or(
        Refusal::WrongPassword,
    )?;
    if !block_keys::verify(structure, lock, schedule) {
        return Err(Refusal::WrongPassword);
    }
    let keys = apply_rc4(stream, schedule, output);
    blank(output, filepass);
    Ok(1 + keys)
}

// The lock of a family.
fn lock_of(kind: block_keys::Kind) -> Lock
    ensures { result ≡ by_kind kind }
{
    match kind {
        block_keys::Kind::Office97 => Lock::Office97,
        block_keys::Kind::CryptoApi => Lock::CryptoApi,
    }
}

// Tries a password on a stream that was surveyed, and opens it where the password passes.
fn open_locked(
    stream: &[u8],
    surveyed: Book,
    password: &[u8],
    scratch: &mut [u8],
    output: &mut [u8],
) -> Result<Report, Refusal>
    requires { (None ≡ asked (of_stream stream.now)) × (surveyed ≡ book_of stream.now) × Accepted stream.now password.now scratch.old output.old }
    ensures { Settles stream.now password.now scratch.old output.old result scratch.new output.new }
{
    match surveyed.scheme {
        Scheme::Xor => {
            unlock_xor(stream, surveyed.filepass, password, output)?;
            Ok(Report {
                records: surveyed.records,
                lock: Lock::Xor,
                key_bits: 0,
                summary_sealed: false,
                output_bytes: stream.len(),
                enciphered_body_bytes: surveyed.enciphered,
                block_keys: 0,
            })
        }
        Scheme::Rc4(lock) => {
            let block_keys = unlock_rc4(
                stream,
                surveyed.filepass,
                lock,
                password,
                scratch,
                output,
            )?;
            Ok(Report {
                records: surveyed.records,
                lock: lock_of(lock.kind),
                key_bits: lock.key_bits,
                summary_sealed: lock.summary_sealed,
                output_bytes: stream.len(),
                enciphered_body_bytes: surveyed.enciphered,
                block_keys,
            })
        }
    }
}

// Asks questions 6 to 27, and opens the stream where they are passed.
fn open_stream(
    stream: &[u8],
    password: &[u8],
    scratch: &mut [u8],
    output: &mut [u8],
) -> Result<Report, Refusal>
    requires { (length stream.now ≤ 1073741824) × Accepted stream.now password.now scratch.old output.old }
    ensures { Settles stream.now password.now scratch.old output.old result scratch.new output.new }
{
    let surveyed = survey::survey(stream)?;
    open_locked(stream, surveyed, password, scratch, output)
}

// Opens a protected workbook stream: the plain stream into the output and a report, or a refusal.
pub fn open(
    stream: &[u8],
    password: &[u8],
    scratch: &mut [u8],
    output: &mut [u8],
) -> Result<Report, Refusal>
    ensures { Opens stream.now password.now scratch.old output.old result scratch.new output.new }
{
    check_lent(password, stream.len(), scratch.len(), output.len())?;
    let settled = open_stream(stream, password, scratch, output);
    sensitive::wipe(scratch, limits::SCRATCH_LEN);
    settled
}
