// What the test programs read their data with: a file into a lent buffer, a part of the data, a number, and the parts
// and numbers that follow one another. It carries nothing of the source.
#![tactic(auto)]

ghost use Rattle.std.specs.Prelude.{◌≡◌, ◌+◌, ◌-◌, ◌*◌, ◌%◌, ◌<◌, ◌≤◌, ◌↔◌, ◌^◌, [], ◌++◌, length, drop, IfSome, IfOk, IsTrue};
ghost use Rattle.laws.specs.Offsets.{tabulate};
ghost use Rattle.laws.proofs.Written.{Written};
ghost use Rattle.samples.specs.Sample.{part_at, number_at, lent_at};

use std::io::Read;
use std::marker::Model;
use std::rt::Files;
use std::{fs, io};

// A part of the data, or no bytes where it does not lie within.
pub fn part(d: &[u8], at: usize, len: usize) -> &[u8]
    ensures { result.now ≡ part_at d.now at len }
{
    let Some(rest) = d.get(at..) else { return &[] };
    let Some(part) = rest.get(..len) else {
        return &[]
    };
    part
}

// The number of four bytes at an offset, or 0 where it does not lie within.
pub fn number(d: &[u8], at: usize) -> usize
    ensures value { result ≡ number_at d.now at }
    ensures fits { result < 2 ^ 32 }
{
    let Some(rest) = d.get(at..) else { return 0 };
    let Some(bytes) = rest.first_chunk() else {
        return 0
    };
    u32::from_le_bytes(*bytes) as usize
}

// The data of a program, read from its front: each read moves on by the bytes that it takes, or to the end where there
// are fewer. Clauses see what is left. A program whose cases follow one another in its data goes over them by
//
//     let mut cases = Reader::new(data);
//     while !cases.is_empty() {
//         let text = cases.sized();
//         ..
//     }
//
// with `length l.cases` as the loop's measure.
#[derive(Drop)]
pub struct Reader<'a> {
    rest: &'a [u8],
}

impl<'a> Model for Reader<'a> {
    ghost use Rattle.std.specs.Prelude.{ℕ, List};

    ghost Value = { List ℕ };

    ghost view = { λ r. r.rest.now };
}

impl<'a> Reader<'a> {
    // All of the data.
    pub fn new(all: &'a [u8]) -> Self
        ensures { result ≡ all.now }
    {
        Reader { rest: all }
    }

    // Whether nothing is left.
    pub fn is_empty(&self) -> bool
        ensures { IsTrue result ↔ (self.now ≡ []) }
    {
        self.rest.is_empty()
    }

    // The number of four bytes that is next, or 0 where there are fewer.
    pub fn number(&mut self) -> usize
        ensures value { result ≡ number_at self.old 0 }
        ensures fits { result < 2 ^ 32 }
        ensures rest { self.new ≡ drop 4 self.old }
        ensures left { length self.new ≡ length self.old - 4 }
    {
        let rest = self.rest;
        self.rest = rest.get(4..).unwrap_or(&[]);
        number(rest, 0)
    }

    // The number of eight bytes that is next, by its halves of four, the lower first.
    pub fn wide_number(&mut self) -> u64
        ensures value { result ≡ number_at self.old 0 + 2 ^ 32 * number_at (drop 4 self.old) 0 }
        ensures rest { self.new ≡ drop 8 self.old }
        ensures left { length self.new ≡ length self.old - 8 }
    {
        let low = self.number() as u64;
        let high = self.number() as u64;
        low + 4294967296 * high
    }

    // The len bytes that are next, or no bytes where there are fewer.
    pub fn bytes(&mut self, len: usize) -> &'a [u8]
        ensures value { result.now ≡ part_at self.old 0 len }
        ensures rest { self.new ≡ drop len self.old }
        ensures left { length self.new ≡ length self.old - len }
    {
        let rest = self.rest;
        self.rest = rest.get(len..).unwrap_or(&[]);
        part(rest, 0, len)
    }

    // The bytes that are next after their length, or no bytes where there are fewer.
    pub fn sized(&mut self) -> &'a [u8]
        ensures value { result.now ≡ part_at (drop 4 self.old) 0 (number_at self.old 0) }
        ensures rest { self.new ≡ drop (number_at self.old 0) (drop 4 self.old) }
        ensures left { length self.new ≡ length self.old - 4 - number_at self.old 0 }
    {
        let len = self.number();
        self.bytes(len)
    }
}

// The byte at an offset of a buffer as it is lent.
pub fn lent_byte(i: usize) -> u8
    ensures { result ≡ lent_at i }
{
    (i % 251 + 1) as u8
}

// Fills a buffer from one multiple of 251 to the next at most, with the bytes that are lent.
fn lend_piece(buffer: &mut [u8], at: usize, end: usize)
    requires { (at ≤ end) × (end ≤ length buffer.old) × (end ≤ at + 251) × (at % 251 ≡ 0) }
    ensures { Written lent_at at end buffer.old buffer.new }
{
    for i in 0..end - at {
        buffer[at + i] = i as u8 + 1;
    }
}

// Fills a buffer with the bytes that are lent, so that every byte that is written shows. It goes by pieces that begin at 1
// again: with a remainder for each byte `sealings` takes three times as long.
pub fn lend(buffer: &mut [u8])
    ensures { buffer.new ≡ tabulate lent_at (length buffer.old) }
{
    for k in 0..buffer.len().div_ceil(251) {
        let at = 251 * k;
        let end = buffer.len().min(at + 251);
        lend_piece(buffer, at, end);
    }
}

// Whether a lent buffer holds some bytes at its front, and behind them is as it was lent.
pub fn holds(buffer: &[u8], front: &[u8]) -> bool
    ensures { IsTrue result ↔ (buffer.now ≡ front.now ++ drop (length front.now) (tabulate lent_at (length buffer.now))) }
{
    let Some(rest) = buffer.strip_prefix(front) else {
        return false;
    };
    // Kept by index: where LLVM knows the buffer's length, it takes the remainder of a number of 16 bits.
    for i in buffer.len() - rest.len()..buffer.len() {
        if buffer[i] != lent_byte(i) {
            return false;
        }
    }
    true
}

// Reads what follows in an open file until the buffer is full or the file ends.
fn fill(file: &mut impl Read, buffer: &mut [u8]) -> io::Result<usize>
    ensures { IfOk result (λ n. n ≤ length buffer.old) }
{
    // Kept by a count: `read_exact` fails on a file that ends early, and `read_to_end` needs a heap.
    let mut done: usize = 0;
    while done < buffer.len() {
        let more = file.read(&mut buffer[done..])?;
        if more == 0 {
            break;
        }
        done += more;
    }
    Ok(done)
}

// Reads a file into a buffer, as far as there is room.
fn load_from<R: Files>(rt: &R, path: &str, buffer: &mut [u8]) -> io::Result<usize>
    ensures { IfOk result (λ n. n ≤ length buffer.old) }
{
    let mut file = fs::open(rt, path)?;
    fill(&mut file, buffer)
}

// Reads a file into a buffer, as far as there is room, and returns what it read. Where it can't be read, says so on
// standard error. A path is UTF-8.
pub fn load<'a, R: Files + Eprint>(rt: &R, path: &[u8], buffer: &'a mut [u8]) -> Option<&'a [u8]>
    ensures { IfSome result (λ read. length read.now ≤ length buffer.old) }
{
    let Ok(path) = str::from_utf8(path) else {
        let _ = eprintln!(rt; "a path is not UTF-8");
        return None;
    };
    match load_from(rt, path, buffer) {
        Ok(n) => Some(&buffer[..n]),
        Err(error) => {
            let _ = eprintln!(rt; "{path}: {error}");
            None
        }
    }
}

// Reads a file into a buffer, as far as there is room, and returns what it read: no bytes where it can't be read.
pub fn read<'a, R: Files + Eprint>(rt: &R, path: &[u8], buffer: &'a mut [u8]) -> &'a [u8]
    ensures { length result.now ≤ length buffer.old }
{
    load(rt, path, buffer).unwrap_or(&[])
}
