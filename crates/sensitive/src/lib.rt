// Password text: from the Rust source's sensitive.rs (UTF-16LE, wiping) and from the passwords of its
// xor_obfuscation.rs. Where the source relies on `&str` and on `char`, the text is taken apart here by
// RFC 3629. The source's wrapped buffers are memory that the caller lends.
#![tactic(auto)]

ghost use Rattle.std.specs.Prelude.{◌≡◌, ◌++◌, ◌^◌, ◌<◌, leb, length, get_or, take, drop, replicate, Some};
ghost use Rattle.laws.specs.Choice.{pick};
ghost use Rattle.laws.specs.Choice as choice;
ghost use Rattle.sensitive.specs.Utf8.{char_at, well_formed};
ghost use Rattle.sensitive.specs.Utf8 as utf8;
ghost use Rattle.sensitive.specs.Utf16.{units, encoded, length_of, into};
ghost use Rattle.sensitive.specs.Utf16 as utf16;
ghost use Rattle.sensitive.specs.Ansi.{ansi};

use std::error::Error;
use std::fmt;
use std::marker::Model;

// What is at an offset of a text: a character, by its code point and where the next one starts;
// bytes that start no character; nothing.
#[derive(Clone, Copy, Debug, PartialEq, Eq)]
pub enum Char {
    Point(u32, usize),
    Malformed,
    End,
}

// A code point in UTF-16LE: its bytes, of which the first len count.
// Kept as an array and a length: fixed memory.
#[derive(Clone, Copy, Debug, PartialEq, Eq)]
pub struct Units {
    pub bytes: [u8; 4],
    pub len: usize,
}

impl Units {
    // The bytes that count.
    pub fn as_slice(&self) -> &[u8]
        ensures { result.now ≡ take self.now.len self.now.bytes }
    {
        &self.bytes[..self.len.min(4)]
    }
}

// Why a text is not encoded into a buffer: it is not well formed, or it takes this many bytes, which
// are more than the buffer has.
#[derive(Clone, Copy, Debug, PartialEq, Eq)]
pub enum EncodeError {
    Malformed,
    Short(usize),
}

impl fmt::Display for EncodeError {
    fn fmt<W: fmt::Write>(&self, f: &mut fmt::Formatter<W>) -> fmt::Result {
        match self {
            EncodeError::Malformed => write!(f, "the text is not well-formed UTF-8"),
            EncodeError::Short(need) => write!(
                f,
                "the text takes {need} bytes, more than there are"
            ),
        }
    }
}

impl Error for EncodeError {}

// An XOR password: 1 to 15 bytes. Clauses see the bytes. It is a secret, so nothing prints it.
#[derive(Clone, Copy, PartialEq, Eq)]
pub struct AnsiPassword {
    bytes: [u8; 16],
    len: usize,
}

impl Model for AnsiPassword {
    ghost use Rattle.std.specs.Prelude.{◌≡◌, ◌++◌, ◌-◌, ◌≤◌, ℕ, List, length, take, replicate};

    ghost Value = { List ℕ };

    ghost view = { λ a. take a.len a.bytes };

    ghost invariant = { λ a. (1 ≤ a.len) × (a.len ≤ 15) × (a.bytes ≡ take a.len a.bytes ++ replicate (16 - a.len) 0) };

    ghost inverse = { λ bs. record { bytes = bs ++ replicate (16 - length bs) 0; len = length bs } };

    ghost use Rattle.std.proofs.Common.{sym};
    ghost use Rattle.sensitive.specs.Padded.{length-front};

    ghost inverse_ok = { λ a h. Prim.rw (length-front a.bytes a.len h.1 h.2, sym h.2) };
}

impl AnsiPassword {
    // The bytes.
    pub fn as_slice(&self) -> &[u8]
        ensures { result.now ≡ self.now }
    {
        &self.bytes[..self.len]
    }
}

// The key of one block: its bytes, of which the first len count, followed by zeros. It is a secret, so
// nothing prints it.
// Kept as an array and a length: fixed memory.
#[derive(Clone, Copy, PartialEq, Eq)]
pub struct DerivedKey {
    pub bytes: [u8; 16],
    pub len: usize,
}

impl DerivedKey {
    // The bytes that count.
    pub fn as_slice(&self) -> &[u8]
        ensures { result.now ≡ take self.now.len self.now.bytes }
    {
        &self.bytes[..self.len.min(16)]
    }
}

// The byte at an offset of a text, 0 past its end.
fn byte_at(text: &[u8], at: usize) -> u8
    ensures { result ≡ get_or text.now at 0 }
{
    text.get(at).copied().unwrap_or(0)
}

// A byte from lo to hi.
fn within(lo: u8, hi: u8, x: u8) -> bool
    ensures { result ≡ choice.within lo hi x }
{
    (lo..=hi).contains(&x)
}

// A byte that goes on a character.
fn tail(b: u8) -> bool
    ensures { result ≡ utf8.tail b }
{
    within(0x80, 0xBF, b)
}

// A character of two bytes.
fn two(a: u8, b: u8) -> bool
    ensures { result ≡ utf8.two a b }
{
    within(0xC2, 0xDF, a) & tail(b)
}

// A character of three bytes.
fn three(a: u8, b: u8, c: u8) -> bool
    ensures { result ≡ utf8.three a b c }
{
    (((a == 0xE0) & within(0xA0, 0xBF, b))
        | (within(0xE1, 0xEC, a) & tail(b))
        | ((a == 0xED) & within(0x80, 0x9F, b))
        | (within(0xEE, 0xEF, a) & tail(b)))
        & tail(c)
}

// A character of four bytes.
fn four(a: u8, b: u8, c: u8, d: u8) -> bool
    ensures { result ≡ utf8.four a b c d }
{
    (((a == 0xF0) & within(0x90, 0xBF, b))
        | (within(0xF1, 0xF3, a) & tail(b))
        | ((a == 0xF4) & within(0x80, 0x8F, b)))
        & tail(c)
        & tail(d)
}

// The code point of a character of two bytes.
fn point2(a: u8, b: u8) -> u32
    ensures { result ≡ utf8.point2 a b }
{
    u32::from(a) % 32 * 64 + u32::from(b) % 64
}

// The code point of a character of three bytes.
fn point3(a: u8, b: u8, c: u8) -> u32
    ensures { result ≡ utf8.point3 a b c }
{
    u32::from(a) % 16 * 4096 + u32::from(b) % 64 * 64 + u32::from(c) % 64
}

// The code point of a character of four bytes.
fn point4(a: u8, b: u8, c: u8, d: u8) -> u32
    ensures { result ≡ utf8.point4 a b c d }
{
    u32::from(a) % 8 * 262144
        + u32::from(b) % 64 * 4096
        + u32::from(c) % 64 * 64
        + u32::from(d) % 64
}

// The character that the bytes a, b, c, d start, the first of which is at `at`.
fn character(at: usize, a: u8, b: u8, c: u8, d: u8) -> Char
    requires { at < 2 ^ 63 }
    ensures { result ≡ utf8.character at a b c d }
{
    if within(0x00, 0x7F, a) {
        return Char::Point(u32::from(a), at + 1);
    }
    if two(a, b) {
        return Char::Point(point2(a, b), at + 2);
    }
    if three(a, b, c) {
        return Char::Point(point3(a, b, c), at + 3);
    }
    if four(a, b, c, d) {
        return Char::Point(point4(a, b, c, d), at + 4);
    }
    Char::Malformed
}

// What is at an offset of a text.
pub fn char_at(text: &[u8], at: usize) -> Char
    ensures { result ≡ char_at text.now at }
{
    if text.len() <= at {
        return Char::End;
    }
    character(
        at,
        byte_at(text, at),
        byte_at(text, at + 1),
        byte_at(text, at + 2),
        byte_at(text, at + 3),
    )
}

// That bytes of a text start no character.
#[derive(Clone, Copy, Debug, PartialEq, Eq)]
pub struct Malformed;

// The characters of a text from an offset on, by their code points. After bytes that start no
// character there are no more.
#[derive(Clone, Copy)]
pub struct Chars<'a> {
    text: &'a [u8],
    at: usize,
}

impl<'a> Chars<'a> {
    // All characters of a text.
    pub fn new(text: &'a [u8]) -> Self
        ensures text { result.text.now ≡ text.now }
        ensures at { result.at ≡ 0 }
    {
        Chars { text, at: 0 }
    }
}

impl<'a> Iterator for Chars<'a> {
    ghost use Rattle.std.specs.Iterator.{at_most};
    ghost use Rattle.std.specs.Prelude.{length, ◌-◌};
    ghost use Rattle.sensitive.specs.Chars.{Steps};

    type Item = Result<u32, Malformed>;

    ghost next_gives = { Steps };

    ghost remaining = { λ s. at_most (length s.text.now - s.at) };

    fn next(&mut self) -> Option<Result<u32, Malformed>> {
        match char_at(self.text, self.at) {
            Char::Point(point, next) => {
                self.at = next;
                Some(Ok(point))
            }
            Char::Malformed => {
                self.at = self.text.len();
                Some(Err(Malformed))
            }
            Char::End => None,
        }
    }
}

// A unit of 16 bits, the lower byte first.
fn unit(u: u32) -> [u8; 2]
    ensures { result ≡ utf16.unit u }
{
    ((u % 0x1_0000) as u16).to_le_bytes()
}

// A code point in UTF-16LE. Above 10FFFF, which no text has, it is what the formula gives.
pub fn utf16le(point: u32) -> Units
    ensures { result ≡ units point }
{
    if point < 0x1_0000 {
        let [first, second] = unit(point);
        return Units {
            bytes: [first, second, 0, 0],
            len: 2,
        };
    }
    let bits = point - 0x1_0000;
    let high = 0xD800 + bits / 0x400;
    let low = 0xDC00 + bits % 0x400;
    let [first, second] = unit(high);
    let [third, fourth] = unit(low);
    Units {
        bytes: [first, second, third, fourth],
        len: 4,
    }
}

// How many bytes a text takes in UTF-16LE, or none where it is not well formed.
pub fn utf16le_len(text: &[u8]) -> Option<usize>
    ensures { result ≡ length_of (encoded text.now) }
{
    let mut len: usize = 0;
    for point in Chars::new(text) {
        len += utf16le(point.ok()?).len;
    }
    Some(len)
}

// Whether a text is well-formed UTF-8.
pub fn well_formed(text: &[u8]) -> bool
    ensures { result ≡ well_formed text.now }
{
    utf16le_len(text).is_some()
}

// Writes a text in UTF-16LE to a buffer that it fills.
fn put_text(text: &[u8], out: &mut [u8])
    requires { length_of (encoded text.now) ≡ Some (length out.old) }
    ensures { encoded text.now ≡ Some out.new }
{
    // Kept by an offset: the parts of out differ in length, so no `chunks_mut` gives them.
    let mut n: usize = 0;
    for point in Chars::new(text) {
        let Ok(point) = point else { return };
        let units = utf16le(point);
        let end = n + units.len;
        out[n..end].copy_from_slice(units.as_slice());
        n = end;
    }
}

// Writes a text in UTF-16LE to the start of out and returns how many bytes that are, or leaves out as it is.
pub fn utf16le_password(text: &[u8], out: &mut [u8]) -> Result<usize, EncodeError>
    ensures answer { result ≡ (into (encoded text.now) out.old).answer }
    ensures out { out.new ≡ (into (encoded text.now) out.old).out }
{
    let n = utf16le_len(text).ok_or(EncodeError::Malformed)?;
    if out.len() < n {
        return Err(EncodeError::Short(n));
    }
    put_text(text, &mut out[..n]);
    Ok(n)
}

// The bytes of an XOR password: 1 to 15 characters up to U+00FF, one byte each, or none.
pub fn ansi_password(text: &[u8]) -> Option<AnsiPassword>
    ensures { result ≡ ansi text.now }
{
    // Kept as an array and a count: fixed memory, so there is no Vec to push to.
    let mut bytes = [0u8; 16];
    let mut len: usize = 0;
    for point in Chars::new(text) {
        let point = point.ok()?;
        if 0xFF < point {
            return None;
        }
        if limits::XOR_PASSWORD_MAX_LEN <= len {
            return None;
        }
        bytes[len] = point as u8;
        len += 1;
    }
    if len == 0 {
        return None;
    }
    Some(AnsiPassword { bytes, len })
}

// Zeroes the first n bytes, and returns true; where there are fewer, returns false and leaves them.
pub fn wipe(buf: &mut [u8], n: usize) -> bool
    ensures { (result ≡ leb n (length buf.old)) × (buf.new ≡ pick (leb n (length buf.old)) (replicate n 0 ++ drop n buf.old) buf.old) }
{
    if buf.len() < n {
        return false;
    }
    buf[..n].fill(0);
    true
}
