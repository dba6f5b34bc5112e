// Looks at the streams in its data, compares the lock of each with the one before, says what opening will take, and opens
// them, through the functions that the C exports call; prints for each the answers, what is left of the scratch, and the output.
// tools/make_short_books.py makes the data and what is expected.
#![tactic(auto)]

ghost use Rattle.std.specs.Prelude.{◌≤◌, length};

use samples::{Reader, lent_byte};
use std::io;

// A case: its name, the stream that is looked at and opened with a password, and the stream of the case before it.
#[derive(Clone, Copy, Debug)]
struct Case<'a> {
    name: &'a [u8],
    password: &'a [u8],
    before: &'a [u8],
    stream: &'a [u8],
}

// How many bytes at the start of a buffer are zero.
fn zeros(buffer: &[u8]) -> usize {
    buffer.iter().take_while(|byte| **byte == 0).count()
}

// How many bytes at the start of a buffer were written: up to the last that is not as it was lent.
fn written(buffer: &[u8]) -> usize
    ensures { result ≤ length buffer.now }
{
    let last = buffer
        .iter()
        .enumerate()
        .rposition(|(i, byte)| *byte != lent_byte(i));
    last.map_or(0, |i| i + 1)
}

// Writes an operation's name, its number and its facts.
fn tell(rt: &impl Print, name: &str, answer: u32, facts: &[u64]) -> io::Result<()> {
    print!(rt; " {name} {answer}:")?;
    for fact in facts {
        print!(rt; " {fact}")?;
    }
    Ok(())
}

// Writes what is left of the scratch.
fn tell_scratch(rt: &impl Print, scratch: &[u8]) -> io::Result<()> {
    let zero = zeros(scratch);
    let left = scratch.len() - written(scratch);
    print!(rt; " scratch {zero} zero, {left} as lent,")
}

// Writes the output up to the last byte that is not as it was lent.
fn tell_output(rt: &impl Print, output: &[u8]) -> io::Result<()> {
    let len = written(output);
    let left = output.len() - len;
    print!(rt; " output {len} written, {left} as lent")?;
    if 0 < len {
        print!(rt; ": ")?;
    }
    for byte in &output[..len] {
        print!(rt; "{byte:02x}")?;
    }
    println!(rt; "")
}

// Looks at a stream, compares its lock with that of the one before, says what opening will take, and opens it, with what
// is lent.
fn run_lent(rt: &impl Print, case: Case, scratch: &mut [u8], output: &mut [u8]) -> io::Result<()> {
    let mut seen = [0u64; 8];
    let mut foretold = [0u64; 8];
    let mut told = [0u64; 8];
    let verdict = sheet::sheet_look(case.stream, &mut seen);
    let same = u8::from(sheet::sheet_same_lock(case.before, case.stream));
    let forecast = sheet::sheet_forecast(case.stream, &mut foretold);
    let answer = sheet::sheet_open(case.stream, case.password, scratch, output, &mut told);
    rt.write_all(case.name)?;
    tell(rt, "look", verdict, &seen[..5])?;
    print!(rt; " same {same}")?;
    tell(rt, "forecast", forecast, &foretold[..4])?;
    tell(rt, "open", answer, &told[..7])?;
    tell_scratch(rt, scratch)?;
    tell_output(rt, output)
}

// Runs a case, with a scratch and an output of some lengths.
fn run(rt: &impl Print, case: Case, scratch_len: usize, output_len: usize) -> io::Result<()> {
    let mut scratch = [0u8; 8192];
    let mut output = [0u8; 8192];
    samples::lend(&mut scratch);
    samples::lend(&mut output);
    run_lent(
        rt,
        case,
        &mut scratch[..scratch_len.min(8192)],
        &mut output[..output_len.min(8192)],
    )
}

// Runs all cases: name, password and stream, each after its length, and the lengths of scratch and output.
fn run_all(rt: &impl Print, data: &[u8]) -> io::Result<()> {
    let mut cases: u64 = 0;
    let mut before: &[u8] = &[];
    let mut rest = Reader::new(data);
    while !rest.is_empty() {
        let name = rest.sized();
        let password = rest.sized();
        let stream = rest.sized();
        let case = Case {
            name,
            password,
            before,
            stream,
        };
        let scratch_len = rest.number();
        run(rt, case, scratch_len, rest.number())?;
        cases = cases.wrapping_add(1);
        before = stream;
    }
    println!(rt; "{cases} cases")
}

fn main(rt: HostRuntime) -> io::Result<()> {
    let mut data = [0u8; 393216];
    run_all(&rt, samples::read(&rt, b"cases", &mut data))
}
