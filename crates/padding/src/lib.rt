// What SHA-1 (FIPS 180-4, section 5.1.1) and MD5 (RFC 1321, sections 3.1 and 3.2) share: a trait of a hash by blocks
// of 64 bytes, the padding of a message, and the hash of a message over it.
// The source takes both hashes from libraries, so nothing here comes from it.
#![tactic(auto)]

ghost use Rattle.std.specs.Prelude.{◌≡◌, ℕ, ◌-◌, ◌*◌, ◌/◌, ◌%◌, ◌^◌, ◌<◌, List, ◌∷◌, ◌++◌, length, take, replicate};
ghost use Rattle.padding.specs.Padding.{be64, le64, blocks, hash_end, hash};

// A hash by blocks of 64 bytes; its value is Self.
pub trait BlockHash: Copy {
    type Digest;

    // The value at the start, the value after a block, the eight bytes of a message's length in bits, a value's digest.
    ghost initial: { Self };

    ghost after_block: { Self → List ℕ → Self };

    ghost size_bytes: { ℕ → List ℕ };

    ghost digest_of: { Self → Self.Digest };

    fn init() -> Self
        ensures { result ≡ initial };

    fn compress(self, block: &[u8; 64]) -> Self
        ensures { result ≡ after_block self block.now };

    fn size(total: u64) -> [u8; 8]
        ensures { result ≡ size_bytes (8 * total) };

    fn to_digest(self) -> Self::Digest
        ensures { result ≡ digest_of self };

    // Those are eight bytes, and they tell the low 64 bits of the length.
    ghost eight: { (n : ℕ) → length (size_bytes n) ≡ 8 };

    ghost low_bits: { (b n : ℕ) → b ≡ n % 2 ^ 64 → size_bytes b ≡ size_bytes n };
}

// The hash value after the whole blocks of a message.
pub fn compress_all<H: BlockHash>(h: H, m: &[u8]) -> H
    ensures { result ≡ blocks H.after_block h m.now (length m.now / 64) }
{
    let (whole, _) = m.as_chunks::<64>();
    let mut v = h;
    for block in whole {
        v = v.compress(block);
    }
    v
}

// The bytes left of a message and the mark behind them, in a block of zeros.
fn marked(rest: &[u8]) -> [u8; 64]
    requires { length rest.now < 64 }
    ensures { result ≡ rest.now ++ (128 ∷ replicate (63 - length rest.now) 0) }
{
    let k = rest.len();
    let mut block = [0u8; 64];
    block[..k].copy_from_slice(rest);
    block[k] = 0x80;
    block
}

// A block with the length's bytes at its end.
fn with_size(mut block: [u8; 64], size: [u8; 8]) -> [u8; 64]
    ensures { result ≡ take 56 block ++ size }
{
    block[56..].copy_from_slice(&size);
    block
}

// The hash value after what is left of a message of `total` bytes, padded: with the length in the same block, or in one
// more where the bytes left and the mark leave no room for it.
fn compress_last<H: BlockHash>(h: H, rest: &[u8], total: u64) -> H
    requires { length rest.now < 64 }
    ensures { result ≡ hash_end H.after_block H.size_bytes h rest.now total }
{
    let size = H::size(total);
    let block = marked(rest);
    if rest.len() < 56 {
        let end = with_size(block, size);
        return h.compress(&end);
    }
    let end = with_size([0u8; 64], size);
    h.compress(&block).compress(&end)
}

// The digest of a message of `total` bytes that ends in m, from the hash value that the blocks before m gave.
pub fn finish<H: BlockHash>(h: H, m: &[u8], total: u64) -> H::Digest
    ensures { result ≡ H.digest_of (hash_end H.after_block H.size_bytes h m.now total) }
{
    let (_, rest) = m.as_chunks::<64>();
    let v = compress_all(h, m);
    compress_last(v, rest, total).to_digest()
}

// The digest of a message.
pub fn digest<H: BlockHash>(m: &[u8]) -> H::Digest
    ensures { result ≡ H.digest_of (hash H.after_block H.size_bytes H.initial m.now) }
{
    finish(H::init(), m, m.len() as u64)
}

// The number of bits of so many bytes, modulo 2^64.
fn bits(total: u64) -> u64
    ensures { result ≡ (8 * total) % 2 ^ 64 }
{
    total.wrapping_mul(8)
}

// The number of bits of so many bytes, as eight bytes, the most significant first.
#[tactic(auto, using(crate::proofs::Size::be64_of))]
pub fn size_be(total: u64) -> [u8; 8]
    ensures { result ≡ be64 (8 * total) }
{
    bits(total).to_be_bytes()
}

// The number of bits of so many bytes, as eight bytes, the least significant first.
#[tactic(auto, using(crate::proofs::Size::le64_of))]
pub fn size_le(total: u64) -> [u8; 8]
    ensures { result ≡ le64 (8 * total) }
{
    bits(total).to_le_bytes()
}
