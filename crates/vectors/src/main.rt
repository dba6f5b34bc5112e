// Runs the published vectors of MD5 (RFC 1321), SHA-1 (the NIST validation set) and RC4 (RFC 6229), and
// what other programs make of texts and of XOR passwords, and prints how many of each set ran and how
// many differ. tools/ has the scripts that make the data: make_vectors.py, make_texts.py, XorVectors.java.
#![tactic(auto)]

ghost use Rattle.std.specs.Prelude.{◌<◌, ◌^◌};

use rc4::Keystream;
use samples::{Reader, part};
use sensitive::EncodeError;
use std::io;
use std::rt::Files;

// How many vectors of a set ran, and how many differ.
#[derive(Clone, Copy, Debug, PartialEq, Eq)]
struct Tally {
    run: u64,
    differ: u64,
}

impl Tally {
    fn count(&mut self, same: bool) {
        self.run = self.run.wrapping_add(1);
        if !same {
            self.differ = self.differ.wrapping_add(1);
        }
    }
}

// Counts the cases of a set, which follow one another in its data: judge reads a case and says whether what is made of
// it is as wanted. A case takes bytes, so there are no more cases than bytes.
fn judged<F: FnMut(&mut Reader) -> bool>(data: &[u8], mut judge: F) -> Tally
    requires { F.IsAlwaysCallable judge }
{
    let mut tally = Tally { run: 0, differ: 0 };
    let mut cases = Reader::new(data);
    for _ in data {
        if cases.is_empty() {
            break;
        }
        tally.count(judge(&mut cases));
    }
    tally
}

// A message after its length, and its MD5 digest.
fn md5_same(cases: &mut Reader) -> bool {
    let got = md_5::digest(cases.sized());
    got.as_slice() == cases.bytes(16)
}

// A message after its length, and its SHA-1 digest.
fn sha1_same(cases: &mut Reader) -> bool {
    let got = sha_1::digest(cases.sized());
    got.as_slice() == cases.bytes(20)
}

// Three digests, one after the other.
fn joined(a: [u8; 20], b: [u8; 20], c: [u8; 20]) -> [u8; 60] {
    let mut m = [0u8; 60];
    let (first, others) = m.split_at_mut(20);
    let (second, third) = others.split_at_mut(20);
    first.copy_from_slice(&a);
    second.copy_from_slice(&b);
    third.copy_from_slice(&c);
    m
}

// A checkpoint of the Monte Carlo test: a thousand digests, each of the three before it.
fn checkpoint(seed: [u8; 20]) -> [u8; 20] {
    let mut a = seed;
    let mut b = seed;
    let mut c = seed;
    for _ in 0..1000 {
        let m = joined(a, b, c);
        a = b;
        b = c;
        c = sha_1::digest(&m);
    }
    c
}

// The first 20 bytes of a part, with zeros for those that it lacks.
fn seed_of(data: &[u8]) -> [u8; 20] {
    let mut seed = [0u8; 20];
    let len = data.len().min(20);
    seed[..len].copy_from_slice(&data[..len]);
    seed
}

// The checkpoints of the Monte Carlo test, each made of the one before, behind the seed of the first.
fn sha1_monte(data: &[u8]) -> Tally {
    let mut digest = seed_of(data);
    judged(data.get(20..).unwrap_or(&[]), |cases| {
        digest = checkpoint(digest);
        digest.as_slice() == cases.bytes(20)
    })
}

// Whether 16 bytes of a key's keystream from an offset of at most 4,096 on are those wanted. The
// keystream is resumed after the bytes before the offset.
fn keystream_same(key: &[u8], offset: usize, want: &[u8]) -> bool {
    let Some(keystream) = Keystream::new(key) else {
        return false;
    };
    let zeros = [0u8; 4096];
    let Some(skipped) = zeros.get(..offset) else {
        return false;
    };
    let mut before = [0u8; 4096];
    let later = keystream.apply(skipped, &mut before);
    let mut got = [0u8; 16];
    later.apply(&zeros, &mut got);
    got.as_slice() == want
}

// A key after its length, an offset, and what the keystream is from there on.
fn rc4_same(cases: &mut Reader) -> bool {
    let key = cases.sized();
    let offset = cases.number();
    keystream_same(key, offset, cases.bytes(16))
}

// The length that says of a text that it is not well formed.
const NOT_WELL_FORMED: usize = 0xffff_ffff;

// Whether a text in UTF-16LE is as wanted.
fn encoded_same(text: &[u8], len: usize, want: &[u8]) -> bool {
    let mut out = [0u8; 64];
    match sensitive::utf16le_password(text, &mut out) {
        Ok(n) => n == len && part(&out, 0, n) == want,
        Err(EncodeError::Malformed) => len == NOT_WELL_FORMED,
        Err(EncodeError::Short(_)) => false,
    }
}

// A text after its length, and what it is in UTF-16LE after the length of that, which nothing follows where the text is
// not well formed.
fn text_same(cases: &mut Reader) -> bool {
    let text = cases.sized();
    let len = cases.number();
    let want = cases.bytes(if len == NOT_WELL_FORMED { 0 } else { len });
    encoded_same(text, len, want)
}

// An XOR password after its length, its key, its verifier and its array.
fn xor_same(cases: &mut Reader) -> bool {
    let password = cases.sized();
    let key = cases.number();
    let verifier = cases.number();
    let array = cases.bytes(16);
    let Some(k) = xor_obfuscation::xor_key(password) else {
        return false;
    };
    usize::from(k) == key
        && usize::from(xor_obfuscation::password_verifier(password)) == verifier
        && xor_obfuscation::xor_array(password, k).as_slice() == array
}

// Reads a set, as far as N bytes of it, and prints what comes of it under its name.
fn report<const N: usize, R: Files + Print + Eprint, F: FnOnce(&[u8]) -> Tally>(
    rt: &R,
    name: &str,
    path: &[u8],
    set: F,
) -> io::Result<()>
    requires callable { F.IsAlwaysCallable set }
    requires fits { N < 2 ^ 63 }
{
    let mut data = [0u8; N];
    let Tally { run, differ } = set(samples::read(rt, path, &mut data));
    println!(rt; "{name}: {run} run, {differ} differ")
}

fn report_rc4<R: Files + Print + Eprint>(rt: &R, name: &str, path: &[u8]) -> io::Result<()> {
    report::<4096, _, _>(rt, name, path, |data| judged(data, rc4_same))
}

fn report_sha1<R: Files + Print + Eprint>(rt: &R, name: &str, path: &[u8]) -> io::Result<()> {
    report::<262144, _, _>(rt, name, path, |data| judged(data, sha1_same))
}

fn main(rt: HostRuntime) -> io::Result<()> {
    report::<4096, _, _>(
        &rt,
        "RFC 1321, MD5",
        b"rfc1321",
        |data| judged(data, md5_same),
    )?;
    report_sha1(&rt, "SHA-1 validation, short messages", b"sha1_short")?;
    report_sha1(&rt, "SHA-1 validation, long messages", b"sha1_long")?;
    report::<4096, _, _>(
        &rt,
        "SHA-1 validation, Monte Carlo checkpoints",
        b"sha1_monte",
        sha1_monte,
    )?;
    report_rc4(&rt, "RFC 6229, RC4 with keys of 5 bytes", b"rfc6229_5")?;
    report_rc4(&rt, "RFC 6229, RC4 with keys of 7 bytes", b"rfc6229_7")?;
    report_rc4(&rt, "RFC 6229, RC4 with keys of 8 bytes", b"rfc6229_8")?;
    report_rc4(&rt, "RFC 6229, RC4 with keys of 10 bytes", b"rfc6229_10")?;
    report_rc4(&rt, "RFC 6229, RC4 with keys of 16 bytes", b"rfc6229_16")?;
    report::<262144, _, _>(
        &rt,
        "UTF-8 to UTF-16LE, by CPython 3.11",
        b"texts",
        |data| { judged(data, text_same) },
    )?;
    report::<8192, _, _>(
        &rt,
        "XOR keys, verifiers and arrays, by Apache POI 4.0.1",
        b"xor",
        |data| judged(data, xor_same),
    )
}
