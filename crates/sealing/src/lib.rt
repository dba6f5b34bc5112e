// Sealing: a plain workbook stream put under a password, with the lock in its zero record, as opening leaves one where
// FILEPASS stood. Request T-07 of document 02; the Rust source only opens. The questions, the walk, the block loop and
// the record loop are Open's.
#![tactic(auto)]

ghost use Rattle.std.specs.Prelude.{◌≡◌, ◌==◌, true, false, ◌&&◌, ◌++◌, ◌+◌, ◌≤◌, eqb, length, None, Some};
ghost use Rattle.std.specs.List.{list_all};
ghost use Rattle.laws.specs.Choice.{pick};
ghost use Rattle.sensitive.specs.Utf8.{well_formed};
ghost use Rattle.xor_obfuscation.specs.declared.Way.TheVariants.{Encrypt};
ghost use Rattle.binary_office.specs.Walk.{walk, all_zero, zero_bytes};
ghost use Rattle.file_params.specs.Questions.{asked, unless, in_order, body_of};
ghost use Rattle.block_keys.specs.declared.Kind.TheVariants as family;
ghost use Rattle.block_keys.specs.BlockKeys.{schedule_of};
ghost use Rattle.excel97.specs.Open.{xor_byte};
ghost use Rattle.sealing.specs.Filepass.{office97_body, crypto_api_body};
ghost use Rattle.sealing.specs.Seal.{zero_of, admitted, fits, Seals};
ghost use Rattle.sealing.specs.Steps.{Put, xor_fields, office97_fields, crypto_api_head, crypto_api_fields, Room, Locks, Enciphers, LocksRc4, Ready, Settles};

use binary_office::BiffRecord;
use excel97::{Lock, Report, XorLock};
use file_params::Refusal;
use survey::Counts;
use xor_obfuscation::Way;

// The lock that a stream is sealed under; CryptoAPI with its major version and its key size.
#[derive(Clone, Copy, Debug, PartialEq, Eq)]
pub enum Choice {
    Xor,
    Office97,
    CryptoApi(u16, u32),
}

// A sealing that is asked for: the plain stream, the password, and the lock with its salt and its plain verifier.
// Not Debug, as it holds a password.
#[derive(Clone, Copy)]
struct Job<'a> {
    plain: &'a [u8],
    password: &'a [u8],
    choice: Choice,
    salt: [u8; 16],
    verifier: [u8; 16],
}

// Asks questions 13 and 23 of a choice.
fn check_choice(choice: Choice) -> Result<(), Refusal>
    ensures { result ≡ unless tt (asked (admitted choice)) }
{
    if let Choice::CryptoApi(major, bits) = choice {
        if !(2..=4).contains(&major) {
            return Err(Refusal::UnsupportedEncryptionVersion(major, 2));
        }
        if !limits::key_size_stated(bits) {
            return Err(Refusal::EncryptionHeaderKeySize(bits));
        }
    }
    Ok(())
}

// Whether all bytes of a body are zero.
fn all_zero(body: &[u8]) -> bool
    ensures { result ≡ list_all (λ b. b == 0) body.now }
{
    body.iter().all(|b| *b == 0)
}

// A record, if it is a zero record.
fn zero_at(plain: &[u8], at: BiffRecord) -> Option<BiffRecord>
    requires { at.at + 4 + at.len ≤ length plain.now }
    ensures { result ≡ pick (eqb at.id 0 && all_zero (body_of plain.now (Some at))) (Some at) None }
{
    let start = at.at + 4;
    let end = start + (at.len as usize);
    if at.id == 0 && all_zero(&plain[start..end]) {
        Some(at)
    } else {
        None
    }
}

// Where the zero record is: the first record whose id is not one of the seven, with no FILEPASS before it.
fn find_zero(plain: &[u8]) -> Option<BiffRecord>
    ensures { result ≡ zero_of plain.now }
{
    for record in binary_office::biff_records(plain, 0) {
        let Ok(next) = record else {
            return None;
        };
        if next.id == 0x002F {
            return None;
        }
        if !binary_office::never_encrypted(next.id) {
            return zero_at(plain, next);
        }
    }
    None
}

// Whether the body of a zero record has a length that the lock wants.
fn length_fits(choice: Choice, len: u16) -> bool
    ensures { result ≡ fits choice len }
{
    match choice {
        Choice::Xor => len == 6,
        Choice::Office97 => len == 54,
        Choice::CryptoApi(_, _) => (106 <= len) & (len <= 1098),
    }
}

// Puts bytes into dst, from an offset on.
fn put(bytes: &[u8], dst: &mut [u8], at: usize)
    requires { at + length bytes.now ≤ length dst.old }
    ensures { Put bytes.now at dst.old dst.new }
{
    dst[at..at + bytes.len()].copy_from_slice(bytes);
}

// Puts so many zeros into dst, from an offset on.
fn put_zeros(n: usize, dst: &mut [u8], at: usize)
    requires { at + n ≤ length dst.old }
    ensures { Put (zero_bytes n) at dst.old dst.new }
{
    dst[at..at + n].fill(0);
}

// The body of an XOR FILEPASS: the type, the key and the verifier.
fn xor_body(key: u16, verifier: u16) -> [u8; 6]
    ensures { result ≡ xor_fields key verifier }
{
    let k = key.to_le_bytes();
    let v = verifier.to_le_bytes();
    [0, 0, k[0], k[1], v[0], v[1]]
}

// The fields of a CryptoAPI FILEPASS before the provider's name: the type, the version, the flags, the header's size, and
// the eight fields of the header.
fn crypto_api_head(major: u16, bits: u32, size: u32) -> [u8; 46]
    ensures { result ≡ crypto_api_head major bits size }
{
    let m = major.to_le_bytes();
    let s = word::to_le_bytes(size);
    let b = word::to_le_bytes(bits);
    [
        1, 0, m[0], m[1], 2, 0, 0x0C, 0, 0, 0, s[0], s[1], s[2], s[3], 0x0C, 0, 0, 0, 0, 0, 0, 0,
        0x01, 0x68, 0, 0, 0x04, 0x80, 0, 0, b[0], b[1], b[2], b[3], 1, 0, 0, 0, 0, 0, 0, 0, 0, 0,
        0, 0,
    ]
}

// Puts a 1.1 FILEPASS body into dst, from an offset on. Kept beside put_crypto_api: the bodies share the salt and the
// verifier alone, at other places.
fn put_office97(salt: [u8; 16], encrypted: block_keys::EncryptedVerifier, dst: &mut [u8], at: usize)
    requires { at + 54 ≤ length dst.old }
    ensures { Put (office97_fields salt encrypted.verifier encrypted.hash) at dst.old dst.new }
{
    let verifier = encrypted.verifier;
    let hash = encrypted.hash;
    put(&[1u8, 0, 1, 0, 1, 0], dst, at);
    put(&salt, dst, at + 6);
    put(&verifier, dst, at + 22);
    put(&hash[..16], dst, at + 38);
}

// Puts a CryptoAPI FILEPASS body of so many bytes into dst, from an offset on.
fn put_crypto_api(
    major: u16,
    bits: u32,
    len: u16,
    salt: [u8; 16],
    encrypted: block_keys::EncryptedVerifier,
    dst: &mut [u8],
    at: usize,
)
    requires { (106 ≤ len) × (at + len ≤ length dst.old) }
    ensures { Put (crypto_api_fields major bits len salt encrypted.verifier encrypted.hash) at dst.old dst.new }
{
    let size = (len - 74) as u32;
    let zeros = (len - 106) as usize;
    let head = crypto_api_head(major, bits, size);
    let verifier = encrypted.verifier;
    let hash = encrypted.hash;
    let tail = at + 46 + zeros;
    put(&head, dst, at);
    put_zeros(zeros, dst, at + 46);
    put(&[16u8, 0, 0, 0], dst, tail);
    put(&salt, dst, tail + 4);
    put(&verifier, dst, tail + 20);
    put(&[20u8, 0, 0, 0], dst, tail + 36);
    put(&hash, dst, tail + 40);
}

// Seals a stream under XOR, in the zero record at an offset.
fn lock_xor(plain: &[u8], at: usize, lock: XorLock, output: &mut [u8])
    requires { Room plain.now output.old at 6 }
    ensures { Locks plain.now at 6 (xor_byte Encrypt lock.array) (xor_fields lock.key lock.verifier) output.old output.new }
{
    let array = lock.array;
    excel97::apply_xor(Way::Encrypt, plain, &array, output);
    let body = xor_body(lock.key, lock.verifier);
    put(&[0x2Fu8, 0], output, at);
    put(&body, output, at + 4);
}

// A stream that was put through RC4: the enciphered verifier and its digest, and how many block keys were derived.
#[derive(Clone, Copy, Debug, PartialEq, Eq)]
struct Enciphered {
    encrypted: block_keys::EncryptedVerifier,
    keys: usize,
}

// Puts the stream through RC4 under the password, and enciphers the verifier and its digest.
fn encipher(
    job: Job<'_>,
    kind: block_keys::Kind,
    bits: u32,
    scratch: &mut [u8],
    output: &mut [u8],
) -> Enciphered
    requires { (well_formed job.password.now ≡ true) × (64 ≤ length scratch.old) × (length job.plain.now ≤ length output.old) }
    ensures { Enciphers (schedule_of kind bits job.entry.salt job.entry.password.now) job.entry.plain.now job.entry.verifier scratch.old output.old result scratch.new output.new }
{
    let schedule = block_keys::make_schedule(kind, bits, job.salt, job.password, scratch).unwrap();
    let encrypted = block_keys::encrypt_verifier(schedule, job.verifier);
    let keys = excel97::apply_rc4(job.plain, schedule, output);
    Enciphered {
        encrypted,
        keys: 1 + keys,
    }
}

// Seals a stream under 1.1, in the zero record at an offset. Returns how many block keys were derived. Kept beside
// lock_crypto_api: what the two share is encipher, and one function would take both bodies' fields and switch on them.
fn lock_office97(job: Job<'_>, at: usize, scratch: &mut [u8], output: &mut [u8]) -> usize
    requires { Room job.plain.now output.old at 54 × (well_formed job.password.now ≡ true) × (64 ≤ length scratch.old) }
    ensures { LocksRc4 job.entry.plain.now at 54 (schedule_of family.Office97 40 job.entry.salt job.entry.password.now) (office97_body (schedule_of family.Office97 40 job.entry.salt job.entry.password.now) job.entry.salt job.entry.verifier) scratch.old output.old result scratch.new output.new }
{
    let made = encipher(
        job,
        block_keys::Kind::Office97,
        limits::RC4_KEY_BITS_DEFAULT,
        scratch,
        output,
    );
    put(&[0x2Fu8, 0], output, at);
    put_office97(job.salt, made.encrypted, output, at + 4);
    made.keys
}

// Seals a stream under CryptoAPI, in a zero record. Returns how many block keys were derived.
fn lock_crypto_api(
    job: Job<'_>,
    zero: BiffRecord,
    major: u16,
    bits: u32,
    scratch: &mut [u8],
    output: &mut [u8],
) -> usize
    requires { Room job.plain.now output.old zero.at zero.len × (106 ≤ zero.len) × (well_formed job.password.now ≡ true) × (64 ≤ length scratch.old) }
    ensures { LocksRc4 job.entry.plain.now zero.at zero.len (schedule_of family.CryptoApi bits job.entry.salt job.entry.password.now) (crypto_api_body (schedule_of family.CryptoApi bits job.entry.salt job.entry.password.now) major bits zero.len job.entry.salt job.entry.verifier) scratch.old output.old result scratch.new output.new }
{
    let made = encipher(job, block_keys::Kind::CryptoApi, bits, scratch, output);
    put(&[0x2Fu8, 0], output, zero.at);
    put_crypto_api(
        major,
        bits,
        zero.len,
        job.salt,
        made.encrypted,
        output,
        zero.at + 4,
    );
    made.keys
}

// What opening the sealed stream will report. Its parameters are the report's fields but the one that is always the same,
// and a struct of them would be the report once more.
fn report(
    records: usize,
    lock: Lock,
    key_bits: u32,
    bytes: usize,
    enciphered: usize,
    block_keys: usize,
) -> Report
    ensures { result ≡ record { records = records; lock = lock; key_bits = key_bits; summary_sealed = false; output_bytes = bytes; enciphered_body_bytes = enciphered; block_keys = block_keys } }
{
    Report {
        records,
        lock,
        key_bits,
        summary_sealed: false,
        output_bytes: bytes,
        enciphered_body_bytes: enciphered,
        block_keys,
    }
}

// Asks question 32, and seals the stream, with its counts, in its zero record.
fn seal_in(
    job: Job<'_>,
    counts: Counts,
    zero: BiffRecord,
    scratch: &mut [u8],
    output: &mut [u8],
) -> Result<Report, Refusal>
    requires { Ready job.plain.now job.choice job.password.now scratch.old output.old counts zero }
    ensures { Settles job.entry.plain.now job.entry.password.now job.entry.choice job.entry.salt job.entry.verifier scratch.old output.old result scratch.new output.new }
{
    let records = counts.records;
    let rest = counts.enciphered - (zero.len as usize);
    let bytes = job.plain.len();
    match job.choice {
        Choice::Xor => {
            let lock = excel97::xor_lock(job.password).ok_or(Refusal::XorPasswordUnfit)?;
            lock_xor(job.plain, zero.at, lock, output);
            Ok(report(records, Lock::Xor, 0, bytes, rest, 0))
        }
        Choice::Office97 => {
            let keys = lock_office97(job, zero.at, scratch, output);
            let bits = limits::RC4_KEY_BITS_DEFAULT;
            Ok(report(records, Lock::Office97, bits, bytes, rest, keys))
        }
        Choice::CryptoApi(major, bits) => {
            let keys = lock_crypto_api(job, zero, major, bits, scratch, output);
            Ok(report(records, Lock::CryptoApi, bits, bytes, rest, keys))
        }
    }
}

// Asks questions 6, 7, 13 and 23.
fn check_plain(plain: &[u8], fault: Option<usize>, choice: Choice) -> Result<(), Refusal>
    ensures { result ≡ unless tt (asked (in_order fault (walk plain.now).records ++ admitted choice)) }
{
    survey::check_records(plain, fault)?;
    check_choice(choice)
}

// Asks questions 6 to 32, and seals the stream where they are passed.
fn seal_stream(job: Job<'_>, scratch: &mut [u8], output: &mut [u8]) -> Result<Report, Refusal>
    requires { (well_formed job.password.now ≡ true) × (64 ≤ length scratch.old) × (length job.plain.now ≤ length output.old) }
    ensures { Settles job.entry.plain.now job.entry.password.now job.entry.choice job.entry.salt job.entry.verifier scratch.old output.old result scratch.new output.new }
{
    let counts = survey::count_records(job.plain);
    check_plain(job.plain, counts.fault, job.choice)?;
    let zero = find_zero(job.plain).ok_or(Refusal::ZeroRecordMissing)?;
    if !length_fits(job.choice, zero.len) {
        return Err(Refusal::ZeroRecordLength(zero.len));
    }
    seal_in(job, counts, zero, scratch, output)
}

// Seals a plain workbook stream under a password: the sealed stream into the output and what opening it will report, or a
// refusal. The verifier is given plain; it and the salt are to be fresh for each sealing. They stay apart from one another
// here, where a Job would ask callers for a value of its type.
pub fn seal(
    plain: &[u8],
    password: &[u8],
    choice: Choice,
    salt: [u8; 16],
    verifier: [u8; 16],
    scratch: &mut [u8],
    output: &mut [u8],
) -> Result<Report, Refusal>
    ensures { Seals plain.now password.now choice salt verifier scratch.old output.old result scratch.new output.new }
{
    excel97::check_lent(password, plain.len(), scratch.len(), output.len())?;
    let job = Job {
        plain,
        password,
        choice,
        salt,
        verifier,
    };
    let settled = seal_stream(job, scratch, output);
    sensitive::wipe(scratch, limits::SCRATCH_LEN);
    settled
}
