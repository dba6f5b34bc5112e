// The password's digest H0: from the Rust source's rc4_cryptoapi.rs and rc4_office97.rs, where it is the first
// step of both key schedules, and held in sensitive.rs's PasswordDigest. The source encodes the password whole;
// here its UTF-16LE text goes through 64 bytes of memory that the caller lends, a block at a time.
#![tactic(auto)]

ghost use Rattle.std.specs.Prelude.{◌≡◌, ℕ, ◌<◌, ◌≤◌, List, ◌++◌, length, drop, replicate, nat_le, Some};
ghost use Rattle.laws.specs.Choice.{pick};
ghost use Rattle.padding.specs.Padding.{hash_end, hash};
ghost use Rattle.sensitive.specs.Utf16.{encoded};
ghost use Rattle.password_digest.specs.Filling.{Steps, Fills, Answers};
ghost use Rattle.password_digest.specs.Digest.{spelt, sha1_of, md5_of, Digests};

mod place;

use crate::place::{Filled, Place};
use padding::BlockHash;

// The byte of the encoding at a place of the text, and the next place; none where the text ends.
fn next_byte(text: &[u8], place: Place) -> Option<(u8, Place)>
    ensures { Steps text.now place.at place.skip result }
{
    match sensitive::char_at(text, place.at) {
        sensitive::Char::Point(point, next) => {
            let units = sensitive::utf16le(point);
            let byte = units.bytes[place.skip];
            let at = place.at;
            let more = place.skip + 1;
            if more < units.len {
                return Some((byte, Place { at, skip: more }));
            }
            Some((byte, Place { at: next, skip: 0 }))
        }
        sensitive::Char::Malformed => None,
        sensitive::Char::End => None,
    }
}

// Writes the encoding's bytes from a place of the text on to the block, from its n-th byte on, until the
// block is full or the text ends.
fn fill(text: &[u8], place: Place, block: &mut [u8], n: usize) -> Filled
    requires { (length block.old ≡ 64) × (n ≤ 64) }
    ensures { Fills text.now block.old place.at place.skip n block.new result.place.at result.place.skip result.n }
{
    let mut place = place;
    for i in n..64 {
        match next_byte(text, place) {
            Some((byte, next)) => {
                block[i] = byte;
                place = next;
            }
            None => return Filled { place, n: i },
        }
    }
    Filled { place, n: 64 }
}

// Writes the encoding's next bytes to the block, from its start on: the bytes of the block before are hashed.
fn refill(text: &[u8], f: Filled, block: &mut [u8]) -> Filled
    requires { length block.old ≡ 64 }
    ensures { Fills text.now block.old f.place.at f.place.skip 0 block.new result.place.at result.place.skip result.n }
{
    fill(text, f.place, block, 0)
}

// The hash of some bytes and a text in UTF-16LE, through a block; total is the number of bytes that is stated at the end.
fn hash_text<H: BlockHash>(before: &[u8], text: &[u8], block: &mut [u8], total: u64) -> H::Digest
    requires block_len { length block.old ≡ 64 }
    requires room { length before.now ≤ 64 }
    ensures { (e : List ℕ) → encoded text.now ≡ Some e → result ≡ H.digest_of (hash_end H.after_block H.size_bytes H.initial (before.now ++ e) total) }
{
    let k = before.len();
    block[..k].copy_from_slice(before);
    let mut h = H::init();
    let mut f = fill(text, Place { at: 0, skip: 0 }, block, k);
    while f.n == 64 {
        h = padding::compress_all(h, block);
        f = refill(text, f, block);
    }
    let n = f.n;
    padding::finish(h, &block[..n], total)
}

// Zeroes the block at the start of the scratch.
fn clear(scratch: &mut [u8])
    ensures { scratch.new ≡ pick (nat_le 64 (length scratch.old)) (replicate 64 0 ++ drop 64 scratch.old) scratch.old }
{
    sensitive::wipe(scratch, 64);
}

// The hash of some bytes and the password in UTF-16LE.
fn hash_password<H: BlockHash>(
    before: &[u8],
    password: &[u8],
    scratch: &mut [u8],
) -> Option<H::Digest>
    requires { length before.now ≤ 64 }
    ensures { Answers (H.digest_of (hash H.after_block H.size_bytes H.initial (before.now ++ spelt password.now))) password.now scratch.old result scratch.new }
{
    if scratch.len() < 64 {
        return None;
    }
    match sensitive::utf16le_len(password) {
        Some(len) => {
            let total = (len as u64).wrapping_add(before.len() as u64);
            let digest = hash_text::<H>(before, password, &mut scratch[..64], total);
            clear(scratch);
            Some(digest)
        }
        None => {
            clear(scratch);
            None
        }
    }
}

// SHA-1 of a salt and the password in UTF-16LE.
pub fn sha1_password(salt: [u8; 16], password: &[u8], scratch: &mut [u8]) -> Option<[u8; 20]>
    ensures { Digests (sha1_of salt password.now) password.now scratch.old result scratch.new }
{
    hash_password::<sha_1::State>(&salt, password, scratch)
}

// MD5 of the password in UTF-16LE.
pub fn md5_password(password: &[u8], scratch: &mut [u8]) -> Option<[u8; 16]>
    ensures { Digests (md5_of password.now) password.now scratch.old result scratch.new }
{
    hash_password::<md_5::State>(&[], password, scratch)
}
