// Prints the listing of the stream in `book.bin`. What is printed is `listing_text::listing`'s; this
// program only reads and writes.
#![tactic(auto)]

use std::io;

// Writes the listing of a stream.
fn list(rt: &impl Print, stream: &[u8]) -> io::Result<()> {
    // Room for the longest listing: 8,192 records of no body take 15 bytes each at the most.
    let mut text = [0u8; 131072];
    let len = listing_text::listing(stream, &mut text);
    match text.get(..len) {
        Some(listing) => rt.write_all(listing),
        None => Ok(()),
    }
}

fn main(rt: HostRuntime) -> io::Result<()> {
    // One byte more than the longest stream that is listed: of a longer one the rest does not matter.
    let mut stream = [0u8; 32769];
    match samples::load(&rt, b"book.bin", &mut stream) {
        Some(stream) => list(&rt, stream),
        None => Ok(()),
    }
}
