// XOR obfuscation, Method 1 (MS-OFFCRYPTO 2.3.7.1 to 2.3.7.3): from the Rust source's
// xor_obfuscation.rs, with its names and tables.
#![tactic(auto)]

ghost use Rattle.std.specs.Prelude.{◌≡◌, ◌++◌, ℕ, ◌+◌, ◌-◌, ◌*◌, ◌/◌, ◌%◌, ◌^◌, ◌≤◌, ◌<◌, eqb, length, get_or};
ghost use Rattle.std.specs.Int.Bits.{bit_xor};
ghost use Rattle.laws.specs.Choice.{pick};
ghost use Rattle.laws.specs.Offsets.{tabulate};
ghost use Rattle.laws.proofs.Written.{Written};
ghost use Rattle.xor_obfuscation.specs.Xor.{pad_array, initial_code, xor_matrix, verifier_step, password_verifier, char_bits, key_of, xor_array};
ghost use Rattle.xor_obfuscation.specs.declared.Way.{Way};
ghost use Rattle.xor_obfuscation.specs.declared.Way.TheVariants.{Decrypt, Encrypt};
ghost use Rattle.xor_obfuscation.specs.Xor.{ciphered, twice_over, transformed_at, Transforms};

// PadArray, InitialCode and XorMatrix of MS-OFFCRYPTO 2.3.7.2.
pub const PAD_ARRAY: [u8; 15] = [
    0xBB, 0xFF, 0xFF, 0xBA, 0xFF, 0xFF, 0xB9, 0x80, 0x00, 0xBE, 0x0F, 0x00, 0xBF, 0x0F, 0x00,
];

pub const INITIAL_CODE: [u16; 15] = [
    0xE1F0, 0x1D0F, 0xCC9C, 0x84C0, 0x110C, 0x0E10, 0xF1CE, 0x313E, 0x1872, 0xE139, 0xD40F, 0x84F9,
    0x280C, 0xA96A, 0x4EC3,
];

pub const XOR_MATRIX: [u16; 105] = [
    0xAEFC, 0x4DD9, 0x9BB2, 0x2745, 0x4E8A, 0x9D14, 0x2A09, 0x7B61, 0xF6C2, 0xFDA5, 0xEB6B, 0xC6F7,
    0x9DCF, 0x2BBF, 0x4563, 0x8AC6, 0x05AD, 0x0B5A, 0x16B4, 0x2D68, 0x5AD0, 0x0375, 0x06EA, 0x0DD4,
    0x1BA8, 0x3750, 0x6EA0, 0xDD40, 0xD849, 0xA0B3, 0x5147, 0xA28E, 0x553D, 0xAA7A, 0x44D5, 0x6F45,
    0xDE8A, 0xAD35, 0x4A4B, 0x9496, 0x390D, 0x721A, 0xEB23, 0xC667, 0x9CEF, 0x29FF, 0x53FE, 0xA7FC,
    0x5FD9, 0x47D3, 0x8FA6, 0x0F6D, 0x1EDA, 0x3DB4, 0x7B68, 0xF6D0, 0xB861, 0x60E3, 0xC1C6, 0x93AD,
    0x377B, 0x6EF6, 0xDDEC, 0x45A0, 0x8B40, 0x06A1, 0x0D42, 0x1A84, 0x3508, 0x6A10, 0xAA51, 0x4483,
    0x8906, 0x022D, 0x045A, 0x08B4, 0x1168, 0x76B4, 0xED68, 0xCAF1, 0x85C3, 0x1BA7, 0x374E, 0x6E9C,
    0x3730, 0x6E60, 0xDCC0, 0xA9A1, 0x4363, 0x86C6, 0x1DAD, 0x3331, 0x6662, 0xCCC4, 0x89A9, 0x0373,
    0x06E6, 0x0DCC, 0x1021, 0x2042, 0x4084, 0x8108, 0x1231, 0x2462, 0x48C4,
];

// Which way data is put through the array.
#[derive(Clone, Copy, Debug, PartialEq, Eq)]
pub enum Way {
    Decrypt,
    Encrypt,
}

// The verifier with one byte more of the password array.
fn verifier_step(v: u16, b: u8) -> u16
    ensures { result ≡ verifier_step v b }
{
    let intermediate1 = v / 0x4000 % 2;
    let intermediate2 = v.wrapping_mul(2) % 0x8000;
    (intermediate1 | intermediate2) ^ u16::from(b)
}

// CreatePasswordVerifier_Method1: the verifier that a workbook keeps.
pub fn password_verifier(password: &[u8]) -> u16
    ensures { result ≡ password_verifier password.now }
{
    let walked = password.iter().rev().fold(0, |v, b| verifier_step(v, *b));
    let len_byte = password.len().min(255) as u8;
    verifier_step(walked, len_byte) ^ 0xCE4B
}

// The key with a matrix entry, where the bit is 1.
fn toggled(key: u16, bit: u8, entry: u16) -> u16
    ensures { result ≡ pick (eqb bit 1) (bit_xor key entry) key }
{
    if bit == 1 { key ^ entry } else { key }
}

// The key with one character more: its seven bits against the matrix from an element down.
fn char_key(mut key: u16, c: u8, element: usize) -> u16
    requires { (6 ≤ element) × (element < 105) }
    ensures { result ≡ char_bits c element key 7 }
{
    for n in 0..7 {
        let bit = (c >> (6 - n)) % 2;
        key = toggled(key, bit, XOR_MATRIX[element - n]);
    }
    key
}

// CreateXorKey_Method1: a password of 1 to 15 bytes has a key.
pub fn xor_key(password: &[u8]) -> Option<u16>
    ensures { result ≡ key_of password.now }
{
    let len = password.len();
    if !(1..=limits::XOR_PASSWORD_MAX_LEN).contains(&len) {
        return None;
    }
    let mut key = INITIAL_CODE[len - 1];
    for n in (0..len).rev() {
        key = char_key(key, password[n], 0x68 - (len - 1 - n) * 7);
    }
    Some(key)
}

// The byte of the password, or of the padding after it, at a place: 0 past the end of both.
fn source(password: &[u8], i: usize) -> u8
    ensures { result ≡ get_or (password.now ++ pad_array) i 0 }
{
    match password.get(i) {
        Some(b) => *b,
        None => PAD_ARRAY.get(i - password.len()).copied().unwrap_or(0),
    }
}

// The half of the key for a place: the high byte at odd ones, the low byte at even ones.
fn half(key: u16, i: usize) -> u8
    ensures { result ≡ pick (eqb (i % 2) 1) (key / 2 ^ 8 % 2 ^ 8) (key % 2 ^ 8) }
{
    key.to_le_bytes()[i % 2]
}

// CreateXorArray_Method1, for a password and its key.
pub fn xor_array(password: &[u8], key: u16) -> [u8; 16]
    ensures { result ≡ xor_array password.now key }
{
    let mut array = [0u8; 16];
    for (i, b) in array.iter_mut().enumerate() {
        *b = (source(password, i) ^ half(key, i)).rotate_right(1);
    }
    array
}

// A way as a type, so that the code for each way is compiled by itself, with the count of its rotation a constant.
trait Direction {
    ghost way: { Way };

    // A byte put through a byte of the array.
    fn byte(c: u8, key: u8) -> u8
        ensures { result ≡ ciphered way c key };
}

struct Decryption;

struct Encryption;

impl Direction for Decryption {
    ghost way = { Decrypt };

    fn byte(c: u8, key: u8) -> u8 {
        (c ^ key).rotate_right(5)
    }
}

impl Direction for Encryption {
    ghost way = { Encrypt };

    fn byte(c: u8, key: u8) -> u8 {
        c.rotate_left(5) ^ key
    }
}

// The array twice over: from any index on there are 16 bytes of it in order.
fn doubled(array: &[u8; 16]) -> [u8; 32]
    ensures { result ≡ twice_over array.now }
{
    let mut twice = [0u8; 32];
    for (i, b) in array.iter().enumerate() {
        twice[i] = *b;
        twice[16 + i] = *b;
    }
    twice
}

// The 16 bytes of src from a place on, put through from an index of the array on.
fn piece<D: Direction>(twice: &[u8; 32], start: usize, src: &[u8], at: usize) -> [u8; 16]
    requires { (start < 16) × (at + 16 ≤ length src.now) }
    ensures { result ≡ tabulate (λ (i : ℕ). ciphered D.way (get_or src.now (at + i) 0) (get_or twice.now (start + i) 0)) 16 }
{
    let mut out = [0u8; 16];
    for (i, b) in out.iter_mut().enumerate() {
        *b = D::byte(src[at + i], twice[start + i]);
    }
    out
}

// 16 bytes into dst, from a place on.
// Kept by index: copy_from_slice compares the addresses of both sides as it runs, and 16 KiB go 0.6 times as fast by it.
fn put(bytes: [u8; 16], dst: &mut [u8], at: usize)
    requires { at + 16 ≤ length dst.old }
    ensures { Written (λ (o : ℕ). get_or bytes (o - at) 0) at (at + 16) dst.old dst.new }
{
    for (i, b) in bytes.iter().enumerate() {
        dst[at + i] = *b;
    }
}

// The first n bytes, at least 16, in pieces of 16 by the array twice over. The last piece ends at n, and where n is not
// a multiple of 16 it writes some bytes of the one before it again.
fn in_pieces<D: Direction>(array: &[u8; 16], index: usize, src: &[u8], dst: &mut [u8], n: usize)
    requires { (16 ≤ n) × (n ≤ length src.now) × (n ≤ length dst.old) }
    ensures { Written (transformed_at D.way array.now index src.now) 0 n dst.old dst.new }
{
    let twice = doubled(array);
    let first = index % 16;
    for k in 0..(n - 1) / 16 {
        let at = 16 * k;
        put(piece::<D>(&twice, first, src, at), dst, at);
    }
    let last = n - 16;
    put(piece::<D>(&twice, (first + n) % 16, src, last), dst, last);
}

// The first n bytes, one by one.
fn one_by_one<D: Direction>(array: &[u8; 16], index: usize, src: &[u8], dst: &mut [u8], n: usize)
    requires { (n ≤ length src.now) × (n ≤ length dst.old) }
    ensures { Written (transformed_at D.way array.now index src.now) 0 n dst.old dst.new }
{
    let start = index % 16;
    for k in 0..n {
        dst[k] = D::byte(src[k], array[(start + k) % 16]);
    }
}

// The bytes of src into dst, as many as both have room for.
fn put_through<D: Direction>(array: &[u8; 16], index: usize, src: &[u8], dst: &mut [u8])
    ensures { Transforms D.way array.now index src.now dst.old dst.new }
{
    let n = src.len().min(dst.len());
    if n < 16 {
        one_by_one::<D>(array, index, src, dst, n);
    } else {
        in_pieces::<D>(array, index, src, dst, n);
    }
}

// DecryptData_Method1 or EncryptData_Method1: the bytes of src, put through the array from an index on, into
// dst, as many as both have room for.
pub fn transform(way: Way, array: &[u8; 16], index: usize, src: &[u8], dst: &mut [u8])
    ensures { Transforms way array.now index src.now dst.old dst.new }
{
    match way {
        Way::Decrypt => put_through::<Decryption>(array, index, src, dst),
        Way::Encrypt => put_through::<Encryption>(array, index, src, dst),
    }
}
