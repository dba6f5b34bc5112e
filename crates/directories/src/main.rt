// Asks for the directory of each stream in its data, through the function that the C export calls, at each place that goes
// with it, and prints the answer and all eight facts. tools/make_directories.py makes the data and what is expected.
#![tactic(auto)]

use samples::Reader;
use std::io;

// Asks for the directory of a stream at a place, and writes the answer and its eight facts. The facts are lent full, so
// that one that is not written shows.
fn ask(rt: &impl Print, name: &[u8], stream: &[u8], place: usize) -> io::Result<()> {
    let mut facts = [0xA5A5_A5A5_A5A5_A5A5u64; 8];
    let answer = sheet::sheet_directory(stream, place, &mut facts);
    rt.write_all(name)?;
    print!(rt; ", place {place} directory {answer}:")?;
    for fact in facts {
        print!(rt; " {fact}")?;
    }
    println!(rt; "")
}

// Asks for the directory of a stream at each of the places, of eight bytes each.
fn ask_all(rt: &impl Print, name: &[u8], stream: &[u8], places: &[u8]) -> io::Result<()> {
    let mut places = Reader::new(places);
    while !places.is_empty() {
        ask(rt, name, stream, places.wide_number() as usize)?;
    }
    Ok(())
}

// Runs all cases: name, stream and places, each after its length; each place is a case.
fn run_all(rt: &impl Print, data: &[u8]) -> io::Result<()> {
    let mut cases: u64 = 0;
    let mut rest = Reader::new(data);
    while !rest.is_empty() {
        let name = rest.sized();
        let stream = rest.sized();
        let len = rest.number();
        ask_all(rt, name, stream, rest.bytes(len))?;
        cases = cases.wrapping_add((len / 8) as u64);
    }
    println!(rt; "{cases} cases")
}

fn main(rt: HostRuntime) -> io::Result<()> {
    let mut data = [0u8; 262144];
    run_all(&rt, samples::read(&rt, b"cases", &mut data))
}
