// RC4 CryptoAPI (MS-OFFCRYPTO 2.3.5): from the Rust source's rc4_cryptoapi.rs, with its names. The header keeps the
// places of salt, verifier and hash in the structure, and not copies of them.
#![tactic(auto)]

ghost use Rattle.std.specs.Prelude.{◌≡◌, ◌&&◌, ◌||◌, ◌++◌, ◌+◌, ◌-◌, ◌%◌, ◌≤◌, eqb, length, take, replicate};
ghost use Rattle.std.specs.Int.Bits.{bit_and};
ghost use Rattle.laws.specs.Choice.{pick, within};
ghost use Rattle.word.specs.Word.{le32};
ghost use Rattle.sensitive.specs.Derived.{derived};
ghost use Rattle.rc4_cryptoapi.specs.Keys.{hfinal, block_key};
ghost use Rattle.rc4_cryptoapi.specs.Parse.{parsed};

use file_params::Refusal;

// The structure's version, flags and header size; the fields of the verifier, in all.
const PREFIX_LEN: usize = 12;

const VERIFIER_LEN: usize = 60;

const SALT_LEN: u32 = 16;

const VERIFIER_HASH_LEN: u32 = 20;

const ALG_ID_RC4: u32 = 0x6801;

const ALG_ID_HASH_SHA1: u32 = 0x8004;

const FLAG_CRYPTO_API: u32 = 0x04;

const FLAG_EXTERNAL: u32 = 0x10;

const FLAG_AES: u32 = 0x20;

// What a structure says: the key size in bits, the flags, and where salt, verifier and its hash start.
#[derive(Clone, Copy, Debug, PartialEq, Eq)]
pub struct CryptoApiHeader {
    pub key_bits: u32,
    pub flags: u32,
    pub salt: usize,
    pub encrypted_verifier: usize,
    pub encrypted_verifier_hash: usize,
}

// The field of four bytes at an offset.
fn field(s: &[u8], at: usize) -> u32
    requires { at + 4 ≤ length s.now }
    ensures { result ≡ le32 s.now at }
{
    word::from_le_bytes(s[at], s[at + 1], s[at + 2], s[at + 3])
}

// Whether a flag is clear.
fn clear(flags: u32, flag: u32) -> bool
    ensures { result ≡ eqb (bit_and flags flag) 0 }
{
    flags & flag == 0
}

// A value that is 0 or the one named.
fn zero_or(value: u32, named: u32) -> bool
    ensures { result ≡ (eqb value 0 || eqb value named) }
{
    (value == 0) | (value == named)
}

// The key size in bits, 0 read as 40.
fn bits_of(size: u32) -> u32
    ensures { result ≡ pick (eqb size 0) 40 size }
{
    if size == 0 {
        limits::RC4_KEY_BITS_DEFAULT
    } else {
        size
    }
}

// Reads a structure: its fields, or the first of questions 15 to 26 that is answered by a no.
#[tactic(auto, using(laws::proofs::Tests::tests), unfolding(crate::specs::Parse::parsed, file_params::specs::Questions::asked, file_params::specs::Questions::crypto_api, laws::specs::Choice::pick))]
pub fn parse(structure: &[u8]) -> Result<CryptoApiHeader, Refusal>
    ensures { result ≡ parsed structure.now }
{
    let have = structure.len();
    if have < PREFIX_LEN {
        return Err(Refusal::EncryptionInfoTruncated(have));
    }
    let size = field(structure, 8);
    if !limits::size_fits(size) {
        return Err(Refusal::EncryptionHeaderSizeOutOfRange(size));
    }
    let verifier = PREFIX_LEN + (size as usize);
    if have < verifier {
        return Err(Refusal::EncryptionHeaderSizeOutOfBounds(size, have));
    }
    let flags = field(structure, 12);
    if !clear(flags, FLAG_EXTERNAL) {
        return Err(Refusal::FlagExternal(flags));
    }
    if !clear(flags, FLAG_AES) {
        return Err(Refusal::FlagAes(flags));
    }
    if clear(flags, FLAG_CRYPTO_API) {
        return Err(Refusal::FlagCryptoApiClear(flags));
    }
    let alg_id = field(structure, 20);
    if !zero_or(alg_id, ALG_ID_RC4) {
        return Err(Refusal::UnsupportedAlgId(alg_id));
    }
    let alg_id_hash = field(structure, 24);
    if !zero_or(alg_id_hash, ALG_ID_HASH_SHA1) {
        return Err(Refusal::UnsupportedAlgIdHash(alg_id_hash));
    }
    let key_size = field(structure, 28);
    if !limits::key_size_fits(key_size) {
        return Err(Refusal::EncryptionHeaderKeySize(key_size));
    }
    if have < verifier + VERIFIER_LEN {
        return Err(Refusal::EncryptionVerifierTruncated(have - verifier));
    }
    let salt_size = field(structure, verifier);
    if salt_size != SALT_LEN {
        return Err(Refusal::VerifierSaltSize(salt_size));
    }
    let hash_size = field(structure, verifier + 36);
    if hash_size != VERIFIER_HASH_LEN {
        return Err(Refusal::VerifierHashSize(hash_size));
    }
    let key_bits = bits_of(key_size);
    Ok(CryptoApiHeader {
        key_bits,
        flags,
        salt: verifier + 4,
        encrypted_verifier: verifier + 20,
        encrypted_verifier_hash: verifier + 40,
    })
}

// Whether the key size in bits is from 48 to 128.
fn long_key(key_bits: u32) -> bool
    ensures { result ≡ within 48 128 key_bits }
{
    (48..=limits::RC4_KEY_BITS_MAX).contains(&key_bits)
}

// SHA-1 of H0 and the block's number.
fn final_hash(h0: [u8; 20], block: u32) -> [u8; 20]
    ensures { result ≡ hfinal h0 block }
{
    let m: [u8; 24] = word::joined(&h0, &word::to_le_bytes(block));
    sha_1::digest(&m)
}

// The first n bytes of a hash, followed by zeros.
fn head(hash: [u8; 20], n: usize) -> [u8; 16]
    requires { n ≤ 16 }
    ensures { result ≡ take n hash ++ replicate (16 - n) 0 }
{
    let mut bytes = [0u8; 16];
    bytes[..n].copy_from_slice(&hash[..n]);
    bytes
}

// The key of a block, from H0 and the key size in bits.
pub fn block_key(h0: [u8; 20], key_bits: u32, block: u32) -> sensitive::DerivedKey
    ensures { result ≡ derived (block_key h0 key_bits block) }
{
    let hash = final_hash(h0, block);
    if long_key(key_bits) {
        let len = (key_bits / 8) as usize;
        let bytes = head(hash, len);
        return sensitive::DerivedKey { bytes, len };
    }
    let bytes = head(hash, 5);
    sensitive::DerivedKey { bytes, len: 16 }
}
