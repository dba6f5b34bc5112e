// Prints the listings of the streams in its data, one after the other, each preceded by a line that numbers it
// and gives its length. tools/make_listings.py makes the data and what is expected.
#![tactic(auto)]

use samples::Reader;
use std::io;

// Writes the listing of a stream.
fn list(rt: &impl Print, stream: &[u8]) -> io::Result<()> {
    let mut text = [0u8; 196608];
    let len = listing_text::listing(stream, &mut text);
    match text.get(..len) {
        Some(listing) => rt.write_all(listing),
        None => Ok(()),
    }
}

// Writes the line before a listing.
fn announce(rt: &impl Print, number: u64, len: usize) -> io::Result<()> {
    println!(rt; "stream {number}: {len} bytes")
}

// Writes the listings of all streams: each comes after its length of four bytes.
fn list_all(rt: &impl Print, all: &[u8]) -> io::Result<()> {
    let mut number: u64 = 1;
    let mut streams = Reader::new(all);
    while !streams.is_empty() {
        let len = streams.number();
        announce(rt, number, len)?;
        list(rt, streams.bytes(len))?;
        number = number.wrapping_add(1);
    }
    Ok(())
}

fn main(rt: HostRuntime) -> io::Result<()> {
    let mut all = [0u8; 196608];
    list_all(&rt, samples::read(&rt, b"streams", &mut all))
}
