// The bounds of the Rust source's limits.rs that the Excel stream part uses, under its names; its range
// RC4_KEY_BITS is two numbers here, and RC4_ENCRYPTION_HEADER_SIZE_MIN is rc4_cryptoapi.rs's HEADER_FIXED_LEN. Two more
// are of the customer's documents: PASSWORD_MAX_LEN (01) and SCRATCH_LEN (02, T-06). The tests of a header's size and of
// a key size are next to their bounds, so that a wrong bound is refused here.
#![tactic(auto)]

ghost use Rattle.std.specs.Prelude.{◌≡◌, ◌&&◌, ◌||◌, ◌%◌, eqb};
ghost use Rattle.laws.specs.Choice.{within};

// The first bytes of a stream that are looked at for a FILEPASS record.
pub const BIFF_SCAN_CAP: usize = 0x10_0000;

// The longest stream that is opened or sealed, which the source sets to its PAYLOAD_CEILING.
pub const LEGACY_STREAM_READ_CAP: usize = 0x4000_0000;

// The largest encryption header, and the fixed fields that the smallest consists of.
pub const RC4_ENCRYPTION_HEADER_SIZE_MAX: usize = 1024;

pub const RC4_ENCRYPTION_HEADER_SIZE_MIN: usize = 32;

// The least and the greatest key size in bits, which go in steps of 8, and what a key size of 0 means.
pub const RC4_KEY_BITS_MIN: u32 = 40;

pub const RC4_KEY_BITS_MAX: u32 = 128;

pub const RC4_KEY_BITS_DEFAULT: u32 = 40;

// The most characters of an XOR password.
pub const XOR_PASSWORD_MAX_LEN: usize = 15;

// The longest password in bytes, and the scratch that opening and sealing ask for.
pub const PASSWORD_MAX_LEN: usize = 1024;

pub const SCRATCH_LEN: usize = 64;

// An encryption header's size that is accepted: document 01's question 16.
pub fn size_fits(size: u32) -> bool
    ensures { result ≡ within 32 1024 size }
{
    (RC4_ENCRYPTION_HEADER_SIZE_MIN..=RC4_ENCRYPTION_HEADER_SIZE_MAX).contains(&(size as usize))
}

// A key size in bits that a lock states: what document 02's T-07 writes.
pub fn key_size_stated(bits: u32) -> bool
    ensures { result ≡ (within 40 128 bits && eqb (bits % 8) 0) }
{
    (RC4_KEY_BITS_MIN..=RC4_KEY_BITS_MAX).contains(&bits) && bits % 8 == 0
}

// A key size in bits that is accepted: document 01's question 23, which accepts 0 too.
pub fn key_size_fits(bits: u32) -> bool
    ensures { result ≡ (eqb bits 0 || (within 40 128 bits && eqb (bits % 8) 0)) }
{
    bits == 0 || key_size_stated(bits)
}
