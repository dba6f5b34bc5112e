// Office 97's RC4 (MS-OFFCRYPTO 2.3.6): from the Rust source's rc4_office97.rs, with its names.
#![tactic(auto)]

ghost use Rattle.std.specs.Prelude.{◌≡◌, ◌++◌, take};
ghost use Rattle.sensitive.specs.Derived.{derived};
ghost use Rattle.rc4_office97.specs.Keys.{times, truncated, block_key};
ghost use Rattle.rc4_office97.specs.Parse.{parsed};

use file_params::Refusal;

// The whole structure: version, salt, verifier, verifier hash.
const HEADER_LEN: usize = 52;

// Reads a structure: whether it is whole, which is question 14. Its fields are at fixed places, so there is no more to
// report.
pub fn parse(structure: &[u8]) -> Result<(), Refusal>
    ensures { result ≡ parsed structure.now }
{
    let have = structure.len();
    if have < HEADER_LEN {
        return Err(Refusal::Rc4Office97HeaderTruncated(have));
    }
    Ok(())
}

// The first five bytes of H0 and the salt.
fn unit(h0: [u8; 16], salt: [u8; 16]) -> [u8; 21]
    ensures { result ≡ take 5 h0 ++ salt }
{
    word::joined(&[h0[0], h0[1], h0[2], h0[3], h0[4]], &salt)
}

// The unit sixteen times over.
fn repeated(unit: [u8; 21]) -> [u8; 336]
    ensures { result ≡ times 16 unit }
{
    let mut m = [0u8; 336];
    for i in 0..336 {
        m[i] = unit[i % 21];
    }
    m
}

// What every block's key is made from: five bytes, from H0 and the salt.
pub fn truncated_h1(h0: [u8; 16], salt: [u8; 16]) -> [u8; 5]
    ensures { result ≡ truncated h0 salt }
{
    let m = repeated(unit(h0, salt));
    let h = md_5::digest(&m);
    [h[0], h[1], h[2], h[3], h[4]]
}

// The key of a block.
pub fn block_key(truncated_h1: [u8; 5], block: u32) -> sensitive::DerivedKey
    ensures { result ≡ derived (block_key truncated_h1 block) }
{
    let m: [u8; 9] = word::joined(&truncated_h1, &word::to_le_bytes(block));
    let bytes = md_5::digest(&m);
    sensitive::DerivedKey { bytes, len: 16 }
}
