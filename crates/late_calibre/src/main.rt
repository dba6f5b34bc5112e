// Opens sheets with a table of calibres, one under each lock, and prints the lift angle of the last calibre, whose record
// is past the first kilobyte, with what opening took; with another password it prints the refusal and no figure.
// tools/make_late_calibre.py makes the data and what is expected.
#![tactic(auto)]

use binary_office::BiffRecord;
use excel97::Report;
use samples::{Reader, number, part};
use std::io;

// The lift angle in degrees of an RK record whose header is at an offset: the number in its last four bytes, which
// end in 10 in binary where they hold a whole number.
fn angle_at(sheet: &[u8], at: usize) -> Option<usize> {
    let rk = number(part(sheet, at, 14), 10);
    (rk % 4 == 2).then_some(rk / 4)
}

// The lift angle of the last RK record.
fn last_angle(sheet: &[u8]) -> Option<usize> {
    let mut last = None;
    for record in binary_office::biff_records(sheet, 0) {
        if let Ok(BiffRecord { at, id: 0x027E, .. }) = record {
            last = angle_at(sheet, at);
        }
    }
    last
}

fn tell_angle(rt: &impl Print, angle: Option<usize>) -> io::Result<()> {
    match angle {
        Some(degrees) => print!(rt; "{degrees}"),
        None => print!(rt; "no angle"),
    }
}

// Writes what opening took.
fn tell_counts(rt: &impl Print, report: Report) -> io::Result<()> {
    let Report {
        output_bytes,
        records,
        enciphered_body_bytes,
        block_keys,
        ..
    } = report;
    println!(rt;
        "; {output_bytes} bytes, {records} records, {enciphered_body_bytes} bytes enciphered, {block_keys} block keys"
    )
}

// Opens a sheet and writes the last calibre's lift angle with what opening took, or the refusal.
fn measure(rt: &impl Print, password: &[u8], stream: &[u8]) -> io::Result<()> {
    let mut scratch = [0u8; 64];
    let mut output = [0u8; 4096];
    match excel97::open(stream, password, &mut scratch, &mut output) {
        Ok(report) => {
            tell_angle(rt, last_angle(part(&output, 0, stream.len())))?;
            tell_counts(rt, report)
        }
        Err(refusal) => {
            let number = file_params::number(refusal);
            println!(rt; "refused, {number}")
        }
    }
}

// Goes through all sheets: heading, password and stream, each after its length.
fn measure_all(rt: &impl Print, data: &[u8]) -> io::Result<()> {
    let mut sheets = Reader::new(data);
    while !sheets.is_empty() {
        rt.write_all(sheets.sized())?;
        print!(rt; ": ")?;
        let password = sheets.sized();
        measure(rt, password, sheets.sized())?;
    }
    Ok(())
}

fn main(rt: HostRuntime) -> io::Result<()> {
    let mut data = [0u8; 65536];
    measure_all(&rt, samples::read(&rt, b"sheets", &mut data))
}
