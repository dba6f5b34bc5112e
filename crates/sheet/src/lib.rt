// The operations as C has them: one thin function for each, which include/sheet.h documents and the crate sheet_c exports. The caller
// lends a fixed array of eight numbers for the facts.
#![tactic(auto)]

ghost use Rattle.std.specs.Prelude.{◌≡◌, replicate};
ghost use Rattle.laws.specs.Choice.{pick};
ghost use Rattle.binary_office.specs.Walk.{step_at};
ghost use Rattle.binary_office.specs.Look.{look};
ghost use Rattle.binary_office.specs.SameLock.{same_lock};
ghost use Rattle.directory.specs.Directory.{directory};
ghost use Rattle.forecast.specs.Forecast.{forecast};
ghost use Rattle.sheet.specs.Facts.{flag, facts, look_number, look_facts, record_number, record_facts, start_facts, refusal_facts, number_of, directory_facts, forecast_facts, there_of, major_of, minor_of, lock_number, open_facts, OpensInC, SealsInC};
ghost use Rattle.sealing.specs.declared.Choice.TheVariants as choice;

use binary_office::{Step, Verdict, Version};
use directory::Sheets;
use excel97::{Lock, Report};
use file_params::Refusal;
use forecast::Counts;

// True is 1.
fn flag(b: bool) -> u64
    ensures { result ≡ flag b }
{
    u64::from(b)
}

// Eight facts, of which five are used at most.
fn facts(a: u64, b: u64, c: u64, d: u64, e: u64) -> [u64; 8]
    ensures { result ≡ facts a b c d e }
{
    [a, b, c, d, e, 0, 0, 0]
}

// The facts of a lock whose version is there or not.
fn by_version(xor: bool, version: Option<Version>, bits: u64) -> [u64; 8]
    ensures { result ≡ facts (flag xor) (there_of version) (major_of version) (minor_of version) bits }
{
    let mark = flag(xor);
    match version {
        None => facts(mark, 0, 0, 0, bits),
        Some(version) => facts(
            mark,
            1,
            u64::from(version.major),
            u64::from(version.minor),
            bits,
        ),
    }
}

// The facts of a verdict.
fn look_facts(verdict: Verdict) -> [u64; 8]
    ensures { result ≡ look_facts verdict }
{
    match verdict {
        Verdict::Unknown => facts(0, 0, 0, 0, 0),
        Verdict::No => facts(0, 0, 0, 0, 0),
        Verdict::Yes(lock) => {
            let bits = u64::from(lock.key_size.unwrap_or(0));
            by_version(lock.xor, lock.version, bits)
        }
    }
}

// The number of a verdict.
fn look_number(verdict: Verdict) -> u32
    ensures { result ≡ look_number verdict }
{
    match verdict {
        Verdict::Unknown => 0,
        Verdict::No => 1,
        Verdict::Yes(_) => 2,
    }
}

// The facts of what is at an offset.
fn record_facts(step: Step) -> [u64; 8]
    ensures { result ≡ record_facts step }
{
    match step {
        Step::Record(id, len) => {
            let clear = binary_office::clear_len(id, len);
            facts(u64::from(id), u64::from(len), u64::from(clear), 0, 0)
        }
        Step::Fault(at) => facts(at as u64, 0, 0, 0, 0),
        Step::End => facts(0, 0, 0, 0, 0),
    }
}

// The number of what is at an offset.
fn record_number(step: Step) -> u32
    ensures { result ≡ record_number step }
{
    match step {
        Step::Record(_, _) => 1,
        Step::Fault(_) => 2,
        Step::End => 0,
    }
}

// The number of an answer that a refusal may take the place of.
fn number_of<T: Copy>(answer: Result<T, Refusal>) -> u32
    ensures { result ≡ number_of answer }
{
    match answer {
        Ok(_) => 0,
        Err(refusal) => file_params::number(refusal),
    }
}

// The facts of a refusal.
fn refusal_facts(refusal: Refusal) -> [u64; 8]
    ensures { result ≡ refusal_facts refusal }
{
    let details = file_params::details_of(refusal);
    facts(details.first, details.second, 0, 0, 0)
}

// The facts of a sheet's start, in a stream of so many sheets.
fn start_facts(count: usize, start: Option<usize>) -> [u64; 8]
    ensures { result ≡ start_facts count start }
{
    match start {
        None => facts(count as u64, 0, 0, 0, 0),
        Some(offset) => facts(count as u64, 1, offset as u64, 0, 0),
    }
}

// The facts of a directory's answer.
fn directory_facts(answer: Result<Sheets, Refusal>) -> [u64; 8]
    ensures { result ≡ directory_facts answer }
{
    match answer {
        Ok(sheets) => start_facts(sheets.count, sheets.start),
        Err(refusal) => refusal_facts(refusal),
    }
}

// The facts of a forecast.
fn forecast_facts(answer: Result<Counts, Refusal>) -> [u64; 8]
    ensures { result ≡ forecast_facts answer }
{
    match answer {
        Ok(told) => facts(
            told.output_bytes as u64,
            told.records as u64,
            told.enciphered_body_bytes as u64,
            told.block_keys as u64,
            0,
        ),
        Err(refusal) => refusal_facts(refusal),
    }
}

// The number of a lock.
fn lock_number(lock: Lock) -> u64
    ensures { result ≡ lock_number lock }
{
    match lock {
        Lock::Xor => 0,
        Lock::Office97 => 1,
        Lock::CryptoApi => 2,
    }
}

// The facts of the answer of opening or sealing.
fn open_facts(answer: Result<Report, Refusal>) -> [u64; 8]
    ensures { result ≡ open_facts answer }
{
    match answer {
        Ok(report) => [
            report.records as u64,
            lock_number(report.lock),
            u64::from(report.key_bits),
            flag(report.summary_sealed),
            report.output_bytes as u64,
            report.enciphered_body_bytes as u64,
            report.block_keys as u64,
            0,
        ],
        Err(refusal) => refusal_facts(refusal),
    }
}

// Look.
pub fn sheet_look(stream: &[u8], told: &mut [u64; 8]) -> u32
    ensures { (result ≡ look_number (look stream.now)) × (told.new ≡ look_facts (look stream.now)) }
{
    let verdict = binary_office::look(stream);
    *told = look_facts(verdict);
    look_number(verdict)
}

// Same lock.
pub fn sheet_same_lock(a: &[u8], b: &[u8]) -> bool
    ensures { result ≡ same_lock a.now b.now }
{
    binary_office::same_lock(a, b)
}

// A step of the walk: what is at an offset.
pub fn sheet_record(stream: &[u8], at: usize, told: &mut [u64; 8]) -> u32
    ensures { (result ≡ record_number (step_at stream.now at)) × (told.new ≡ record_facts (step_at stream.now at)) }
{
    let reached = binary_office::record_at(stream, at);
    let step = reached.found;
    *told = record_facts(step);
    record_number(step)
}

// The directory of sheets.
pub fn sheet_directory(stream: &[u8], place: usize, told: &mut [u64; 8]) -> u32
    ensures { (result ≡ number_of (directory stream.now place)) × (told.new ≡ directory_facts (directory stream.now place)) }
{
    let answer = directory::directory(stream, place);
    *told = directory_facts(answer);
    number_of(answer)
}

// What opening will take.
pub fn sheet_forecast(stream: &[u8], told: &mut [u64; 8]) -> u32
    ensures { (result ≡ number_of (forecast stream.now)) × (told.new ≡ forecast_facts (forecast stream.now)) }
{
    let answer = forecast::forecast(stream);
    *told = forecast_facts(answer);
    number_of(answer)
}

// Open.
pub fn sheet_open(
    stream: &[u8],
    password: &[u8],
    scratch: &mut [u8],
    output: &mut [u8],
    told: &mut [u64; 8],
) -> u32
    ensures { OpensInC stream.now password.now scratch.old output.old result scratch.new output.new told.new }
{
    let answer = excel97::open(stream, password, scratch, output);
    *told = open_facts(answer);
    number_of(answer)
}

// Sealing under a choice, with the facts of its answer.
fn seal(
    plain: &[u8],
    password: &[u8],
    choice: sealing::Choice,
    salt: [u8; 16],
    verifier: [u8; 16],
    scratch: &mut [u8],
    output: &mut [u8],
    told: &mut [u64; 8],
) -> u32
    ensures { SealsInC plain.now password.now choice salt verifier scratch.old output.old result scratch.new output.new told.new }
{
    let answer = sealing::seal(plain, password, choice, salt, verifier, scratch, output);
    *told = open_facts(answer);
    number_of(answer)
}

// Sealing under XOR, which has neither salt nor verifier.
pub fn sheet_seal_xor(
    plain: &[u8],
    password: &[u8],
    scratch: &mut [u8],
    output: &mut [u8],
    told: &mut [u64; 8],
) -> u32
    ensures { SealsInC plain.now password.now choice.Xor (replicate 16 0) (replicate 16 0) scratch.old output.old result scratch.new output.new told.new }
{
    let none = [0u8; 16];
    seal(
        plain,
        password,
        sealing::Choice::Xor,
        none,
        none,
        scratch,
        output,
        told,
    )
}

// Sealing under 1.1.
pub fn sheet_seal_office97(
    plain: &[u8],
    password: &[u8],
    salt: &[u8; 16],
    verifier: &[u8; 16],
    scratch: &mut [u8],
    output: &mut [u8],
    told: &mut [u64; 8],
) -> u32
    ensures { SealsInC plain.now password.now choice.Office97 salt.now verifier.now scratch.old output.old result scratch.new output.new told.new }
{
    let salt = *salt;
    let verifier = *verifier;
    seal(
        plain,
        password,
        sealing::Choice::Office97,
        salt,
        verifier,
        scratch,
        output,
        told,
    )
}

// Sealing under CryptoAPI.
pub fn sheet_seal_cryptoapi(
    plain: &[u8],
    password: &[u8],
    salt: &[u8; 16],
    verifier: &[u8; 16],
    major: u16,
    key_size: u32,
    scratch: &mut [u8],
    output: &mut [u8],
    told: &mut [u64; 8],
) -> u32
    ensures { SealsInC plain.now password.now (choice.CryptoApi major key_size) salt.now verifier.now scratch.old output.old result scratch.new output.new told.new }
{
    let salt = *salt;
    let verifier = *verifier;
    let choice = sealing::Choice::CryptoApi(major, key_size);
    seal(
        plain, password, choice, salt, verifier, scratch, output, told,
    )
}
