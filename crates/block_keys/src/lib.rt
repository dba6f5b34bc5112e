// The keys of a stream's blocks and what is made with them: from the Rust source's rc4.rs, its trait
// `BlockKeySchedule` with `verify_password` and `decrypt_in_blocks`, and the choice of the family, which the source
// makes in each format's own file. The trait object is one value with a kind, the key bits and a 20-byte digest.
#![tactic(auto)]

ghost use Rattle.std.specs.Prelude.{◌≡◌, ◌++◌, ℕ, ◌+◌, ◌-◌, ◌*◌, ◌^◌, ◌≤◌, ◌<◌, min, ltb, length, get_or, replicate};
ghost use Rattle.std.specs.Int.Bits.{bit_xor};
ghost use Rattle.sensitive.specs.Derived.{derived};
ghost use Rattle.laws.specs.Choice.{pick};
ghost use Rattle.laws.proofs.Written.{Written};
ghost use Rattle.rc4.specs.Rc4.{keyed, keystream_byte};
ghost use Rattle.file_params.specs.Questions.{asked, unless, office97, crypto_api};
ghost use Rattle.password_digest.specs.Digest.{sha1_of, md5_of, Digests};
ghost use Rattle.rc4_office97.specs.Keys.{truncated};
ghost use Rattle.block_keys.specs.BlockKeys.{block_key, deciphered_at, started_blocks, Decrypts, agree, digest_len, verified, encrypted_verifier, encrypted_verifier_hash};
ghost use Rattle.block_keys.specs.Lock.{office97_lock, crypto_api_lock, part, scheme_of, Schedules};

use file_params::Refusal;
use rc4::Keystream;

// The family of an RC4 lock.
#[derive(Clone, Copy, Debug, PartialEq, Eq)]
pub enum Kind {
    Office97,
    CryptoApi,
}

// What the keys of all blocks are made from: 1.1 uses the digest's first five bytes.
#[derive(Clone, Copy, Debug, PartialEq, Eq)]
pub struct Schedule {
    pub kind: Kind,
    pub key_bits: u32,
    pub digest: [u8; 20],
}

// What a structure says of its lock: the family, the key size, whether the summary is sealed, and where salt,
// verifier and verifier hash are.
#[derive(Clone, Copy, Debug, PartialEq, Eq)]
pub struct Rc4Lock {
    pub kind: Kind,
    pub key_bits: u32,
    pub summary_sealed: bool,
    pub salt: usize,
    pub verifier: usize,
    pub hash: usize,
}

// The lock of a 1.1 structure.
fn office97(structure: &[u8]) -> Result<Rc4Lock, Refusal>
    ensures { result ≡ unless office97_lock (asked (office97 structure.now)) }
{
    rc4_office97::parse(structure)?;
    Ok(Rc4Lock {
        kind: Kind::Office97,
        key_bits: limits::RC4_KEY_BITS_DEFAULT,
        summary_sealed: false,
        salt: 4,
        verifier: 20,
        hash: 36,
    })
}

// The lock of a CryptoAPI structure.
fn crypto_api(structure: &[u8]) -> Result<Rc4Lock, Refusal>
    ensures { result ≡ unless (crypto_api_lock structure.now) (asked (crypto_api structure.now)) }
{
    let header = rc4_cryptoapi::parse(structure)?;
    Ok(Rc4Lock {
        kind: Kind::CryptoApi,
        key_bits: header.key_bits,
        summary_sealed: header.flags & 0x08 == 0,
        salt: header.salt,
        verifier: header.encrypted_verifier,
        hash: header.encrypted_verifier_hash,
    })
}

// Reads a structure of type 1: its lock, or the first of questions 12 to 26 that is answered by a no. The version
// pair chooses the family.
pub fn scheme_of(structure: &[u8]) -> Result<Rc4Lock, Refusal>
    ensures { result ≡ scheme_of structure.now }
{
    let truncated = Refusal::EncryptionVersionInfoTruncated(structure.len());
    let major = binary_office::le16(structure, 0).ok_or(truncated)?;
    let minor = binary_office::le16(structure, 2).ok_or(truncated)?;
    if (major == 1) & (minor == 1) {
        return office97(structure);
    }
    if (2 <= major) & (major <= 4) & (minor == 2) {
        return crypto_api(structure);
    }
    Err(Refusal::UnsupportedEncryptionVersion(major, minor))
}

// The byte i places after an offset of a structure, 0 past its end.
fn byte_at(structure: &[u8], at: usize, i: usize) -> u8
    ensures { result ≡ get_or structure.now (at + i) 0 }
{
    let Some(place) = at.checked_add(i) else {
        return 0;
    };
    structure.get(place).copied().unwrap_or(0)
}

// Fills dst from an offset of a structure on.
fn copy_part(structure: &[u8], at: usize, dst: &mut [u8])
    ensures { dst.new ≡ part structure.now at (length dst.old) }
{
    for i in 0..dst.len() {
        dst[i] = byte_at(structure, at, i);
    }
}

// Whether the first n bytes of two digests agree; every one of them is looked at.
fn same(a: &[u8], b: &[u8], n: usize) -> bool
    requires { (n ≤ length a.now) × (n ≤ length b.now) }
    ensures { result ≡ agree a.now b.now n }
{
    let mut equal = true;
    for i in 0..n {
        equal &= a[i] == b[i];
    }
    equal
}

// Five bytes, followed by zeros.
fn widened(h: [u8; 5]) -> [u8; 20]
    ensures { result ≡ h ++ replicate 15 0 }
{
    [
        h[0], h[1], h[2], h[3], h[4], 0, 0, 0, 0, 0, 0, 0, 0, 0, 0, 0, 0, 0, 0, 0,
    ]
}

// The digest of a 1.1 schedule.
fn digest_97(salt: [u8; 16], password: &[u8], scratch: &mut [u8]) -> Option<[u8; 20]>
    ensures { Digests (truncated (md5_of password.now) salt ++ replicate 15 0) password.now scratch.old result scratch.new }
{
    let h0 = password_digest::md5_password(password, scratch)?;
    Some(widened(rc4_office97::truncated_h1(h0, salt)))
}

// The schedule of a family, a key size, a salt and a password.
pub fn make_schedule(
    kind: Kind,
    key_bits: u32,
    salt: [u8; 16],
    password: &[u8],
    scratch: &mut [u8],
) -> Option<Schedule>
    ensures { Schedules kind key_bits salt password.now scratch.old result scratch.new }
{
    let digest = match kind {
        Kind::Office97 => digest_97(salt, password, scratch)?,
        Kind::CryptoApi => password_digest::sha1_password(salt, password, scratch)?,
    };
    Some(Schedule {
        kind,
        key_bits,
        digest,
    })
}

// The schedule of a lock and a password.
pub fn schedule_of(
    structure: &[u8],
    lock: Rc4Lock,
    password: &[u8],
    scratch: &mut [u8],
) -> Option<Schedule>
    ensures { Schedules lock.kind lock.key_bits (part structure.now lock.salt 16) password.now scratch.old result scratch.new }
{
    let mut salt = [0u8; 16];
    copy_part(structure, lock.salt, &mut salt);
    make_schedule(lock.kind, lock.key_bits, salt, password, scratch)
}

// The key of a block.
pub fn block_key(schedule: Schedule, block: u32) -> sensitive::DerivedKey
    ensures { result ≡ derived (block_key schedule block) }
{
    let digest = schedule.digest;
    match schedule.kind {
        Kind::Office97 => rc4_office97::block_key(
            [digest[0], digest[1], digest[2], digest[3], digest[4]],
            block,
        ),
        Kind::CryptoApi => rc4_cryptoapi::block_key(digest, schedule.key_bits, block),
    }
}

// The keystream of a block, from its first byte on.
fn keystream(schedule: Schedule, block: u32) -> Keystream
    ensures { result ≡ keyed (block_key schedule block) }
{
    let key = block_key(schedule, block);
    Keystream::new(key.as_slice()).unwrap()
}

// The password check: block 0's keystream runs over verifier, then hash, unbroken, and the digest of the first must
// equal the second.
pub fn verify_password(schedule: Schedule, verifier: [u8; 16], hash: [u8; 20]) -> bool
    ensures { result ≡ verified schedule verifier hash }
{
    let first = keystream(schedule, 0);
    let mut plain = [0u8; 16];
    let then = first.apply(&verifier, &mut plain);
    let mut plain_hash = [0u8; 20];
    then.apply(&hash, &mut plain_hash);
    match schedule.kind {
        Kind::Office97 => {
            let digest = md_5::digest(&plain);
            same(&digest, &plain_hash, 16)
        }
        Kind::CryptoApi => {
            let digest = sha_1::digest(&plain);
            same(&digest, &plain_hash, 20)
        }
    }
}

// The password check of a lock, whose verifier and hash are in its structure.
pub fn verify(structure: &[u8], lock: Rc4Lock, schedule: Schedule) -> bool
    ensures { result ≡ verified schedule (part structure.now lock.verifier 16) (part structure.now lock.hash 20) }
{
    let mut verifier = [0u8; 16];
    copy_part(structure, lock.verifier, &mut verifier);
    let mut hash = [0u8; 20];
    copy_part(structure, lock.hash, &mut hash);
    verify_password(schedule, verifier, hash)
}

// What a structure holds of a verifier: a digest of 16 bytes is followed by zeros.
#[derive(Clone, Copy, Debug, PartialEq, Eq)]
pub struct EncryptedVerifier {
    pub verifier: [u8; 16],
    pub hash: [u8; 20],
}

// Enciphers a verifier and then its digest with block 0's keystream, unbroken.
pub fn encrypt_verifier(schedule: Schedule, verifier: [u8; 16]) -> EncryptedVerifier
    ensures { (result.verifier ≡ encrypted_verifier schedule verifier) × (result.hash ≡ encrypted_verifier_hash schedule verifier ++ replicate (20 - digest_len schedule.kind) 0) }
{
    let first = keystream(schedule, 0);
    let mut enciphered = [0u8; 16];
    let then = first.apply(&verifier, &mut enciphered);
    let mut hash = [0u8; 20];
    match schedule.kind {
        Kind::Office97 => {
            let md5_digest = md_5::digest(&verifier);
            then.apply(&md5_digest, &mut hash);
            EncryptedVerifier {
                verifier: enciphered,
                hash,
            }
        }
        Kind::CryptoApi => {
            let sha1_digest = sha_1::digest(&verifier);
            then.apply(&sha1_digest, &mut hash);
            EncryptedVerifier {
                verifier: enciphered,
                hash,
            }
        }
    }
}

// The key of a block by its number, of which the key uses 32 bits.
fn key_of(schedule: Schedule, block: usize) -> sensitive::DerivedKey
    ensures { result ≡ derived (block_key schedule block) }
{
    block_key(schedule, (block % 0x1_0000_0000) as u32)
}

// Deciphers a block, or what there is of it, from its first byte on.
fn decrypt_block(
    schedule: Schedule,
    block: usize,
    at: usize,
    end: usize,
    src: &[u8],
    dst: &mut [u8],
)
    requires { (at ≤ end) × (end ≤ length src.now) × (end ≤ length dst.old) }
    ensures { Written (λ (o : ℕ). bit_xor (get_or src.now o 0) (keystream_byte (block_key schedule block) (o - at))) at end dst.old dst.new }
{
    let key = key_of(schedule, block);
    rc4::apply_key(key.as_slice(), &src[at..end], &mut dst[at..end]);
}

// Deciphers two whole blocks, side by side.
fn decrypt_pair(
    schedule: Schedule,
    block: usize,
    size: usize,
    at: usize,
    src: &[u8],
    dst: &mut [u8],
)
    requires { (block < 2 ^ 63) × (size < 2 ^ 62) × (at + (size + size) ≤ length src.now) × (at + (size + size) ≤ length dst.old) }
    ensures { Written (λ (o : ℕ). pick (ltb (o - at) size) (bit_xor (get_or src.now o 0) (keystream_byte (block_key schedule block) (o - at))) (bit_xor (get_or src.now o 0) (keystream_byte (block_key schedule (block + 1)) (o - at - size)))) at (at + (size + size)) dst.old dst.new }
{
    let first = key_of(schedule, block);
    let second = key_of(schedule, block + 1);
    let end = at + (size + size);
    rc4::apply_halves(
        first.as_slice(),
        second.as_slice(),
        &src[at..end],
        &mut dst[at..end],
    );
}

// Deciphers as many pairs of whole blocks as the first n bytes have, and returns how many that was.
fn decrypt_pairs(schedule: Schedule, size: usize, n: usize, src: &[u8], dst: &mut [u8]) -> usize
    requires { (1 ≤ size) × (n ≤ length src.now) × (n ≤ length dst.old) }
    ensures { (result * size ≤ n) × Written (deciphered_at size (block_key schedule) src.now) 0 (result * size) dst.old dst.new }
{
    let mut block: usize = 0;
    let mut at: usize = 0;
    // Kept as a while: a step is two blocks, and a for over block numbers would multiply in each turn.
    while size <= (n - at) / 2 {
        decrypt_pair(schedule, block, size, at, src, dst);
        at = at + (size + size);
        block += 2;
    }
    block
}

// Deciphers the blocks from a number on, one by one, up to the n-th byte, and returns how many blocks there are
// up to there, the ones before that number too.
fn decrypt_rest(
    schedule: Schedule,
    size: usize,
    from: usize,
    n: usize,
    src: &[u8],
    dst: &mut [u8],
) -> usize
    requires { (1 ≤ size) × (from * size ≤ n) × (n ≤ length src.now) × (n ≤ length dst.old) }
    ensures { (result ≡ started_blocks size n) × Written (deciphered_at size (block_key schedule) src.now) (from * size) n dst.old dst.new }
{
    let mut block = from;
    let mut at = from * size;
    // Kept as a while: it steps by bytes, the last time by what is left, and the count of blocks is only what it returns.
    while at < n {
        let end = at + size.min(n - at);
        decrypt_block(schedule, block, at, end, src, dst);
        at = end;
        block += 1;
    }
    block
}

// Deciphers src into dst in blocks of so many bytes, the first at offset 0, each under its own key: as many bytes as
// both have room for. Tells how many keys it derived. Blocks of no bytes there are none: with a size of 0 dst stays as
// it is.
pub fn decrypt_in_blocks(schedule: Schedule, size: usize, src: &[u8], dst: &mut [u8]) -> usize
    ensures { Decrypts size (block_key schedule) src.now dst.old result dst.new }
{
    if size == 0 {
        return 0;
    }
    let n = src.len().min(dst.len());
    let blocks = decrypt_pairs(schedule, size, n, src, dst);
    decrypt_rest(schedule, size, blocks, n, src, dst)
}
