// Runs a sample of the Rust source's own answers through the functions that the C exports call: Look's verdict, Open's
// answer and every byte of the plain stream, with the scratch and the rest of the output as they must be left; and the
// forecast of each stream. Prints how many cases had each outcome, in how many Look's key size is judged by MS-OFFCRYPTO
// 2.3.5.1 and not by the Rust, in how many the stream is padded and so judged by request T-05, how many forecasts refuse
// nothing, and how many cases differ. oracle/README.md says how the sample is made.
#![tactic(auto)]

use samples::Reader;
use std::io;
use std::rt::Files;

// What is wanted of a case. Numbers are those of the C interface: 0 for what isn't refused, and else the refusal's.
#[derive(Clone, Copy, Debug)]
struct Want<'a> {
    verdict: u32,
    look_facts: &'a [u8],
    // The key size that the standard names in place of the last of the look's facts, where it is not the Rust's.
    key_size: Option<u8>,
    // How many bytes at the end of the stream are padding.
    padding: usize,
    forecast: u32,
    forecast_facts: &'a [u8],
    answer: usize,
    open_facts: &'a [u8],
    // The plain stream, or no bytes where there is none.
    plain: &'a [u8],
}

// The next byte, or 255 where there is none.
fn byte(data: &mut Reader) -> u8 {
    match data.bytes(1) {
        [byte, ..] => *byte,
        [] => 255,
    }
}

// Reads what is wanted: the verdict's number, five facts, the key size in place of the last of them or 0, how many bytes
// are padding, the forecast's number, four facts, the answer's number, seven facts, and the plain stream where there is
// one, as long as the stream.
fn wanted(data: &[u8], stream_len: usize) -> Want {
    let mut data = Reader::new(data);
    let verdict = u32::from(byte(&mut data));
    let look_facts = data.bytes(40);
    let bits = byte(&mut data);
    let padding = usize::from(byte(&mut data));
    let forecast = u32::from(byte(&mut data));
    let forecast_facts = data.bytes(32);
    let answer = data.number();
    let open_facts = data.bytes(56);
    let plain = data.bytes(stream_len);
    Want {
        verdict,
        look_facts,
        key_size: (bits != 0).then_some(bits),
        padding,
        forecast,
        forecast_facts,
        answer,
        open_facts,
        plain,
    }
}

// Whether the first of some facts are those wanted, numbers of eight bytes, and the others 0.
fn facts_same(facts: &[u64; 8], want: &[u8]) -> bool {
    let mut want = Reader::new(want);
    facts.iter().all(|fact| *fact == want.wide_number())
}

// Whether a look is the one wanted: the Rust's or, where another key size is named, the Rust's with that one for none.
fn look_same(stream: &[u8], want: Want) -> bool {
    let mut facts = [0u64; 8];
    let verdict = sheet::sheet_look(stream, &mut facts);
    if let Some(bits) = want.key_size {
        if facts[4] != u64::from(bits) {
            return false;
        }
        facts[4] = 0;
    }
    verdict == want.verdict && facts_same(&facts, want.look_facts)
}

// Whether a stream ends in as many zeros as are said to be padding: three at most.
fn ends_padded(stream: &[u8], padding: usize) -> bool {
    let zeros = [0u8; 3];
    match zeros.get(..padding) {
        Some(zeros) => stream.ends_with(zeros),
        None => false,
    }
}

// How many cases had each outcome, 0 for a stream that opens and else the refusal's number; in how many the key size is
// judged by the standard and not by the Rust; in how many the stream is padded; how many forecasts refuse nothing; and how
// many cases differ.
#[derive(Clone, Copy, Debug, PartialEq, Eq)]
struct Tally {
    outcomes: [u64; 28],
    by_standard: u64,
    padded: u64,
    foretold: u64,
    differ: u64,
}

impl Tally {
    // Looks at a case's stream, and opens and forecasts it, and counts what comes of it.
    fn run(&mut self, password: &[u8], stream: &[u8], want: Want) {
        let opened = self.open(password, stream, want);
        let foretold = self.forecast(stream, want);
        let same = opened
            && foretold
            && look_same(stream, want)
            && ends_padded(stream, want.padding);
        self.by_standard = self
            .by_standard
            .wrapping_add(u64::from(want.key_size.is_some()));
        self.padded = self.padded.wrapping_add(u64::from(want.padding != 0));
        self.differ = self.differ.wrapping_add(u64::from(!same));
    }

    // Opens a stream and counts its outcome. Tells whether the answer, the scratch and the output are as wanted: the output
    // holds the plain stream where it opens, and else nothing.
    fn open(&mut self, password: &[u8], stream: &[u8], want: Want) -> bool {
        let mut facts = [0u64; 8];
        let mut scratch = [0u8; 70];
        let mut output = [0u8; 16384];
        samples::lend(&mut scratch);
        samples::lend(&mut output);
        let answer = sheet::sheet_open(stream, password, &mut scratch, &mut output, &mut facts);
        let answer = answer as usize;
        if let Some(count) = self.outcomes.get_mut(answer) {
            *count = count.wrapping_add(1);
        }
        let plain: &[u8] = if answer == 0 { want.plain } else { &[] };
        answer == want.answer
            && facts_same(&facts, want.open_facts)
            && samples::holds(&scratch, &[0; 64])
            && samples::holds(&output, plain)
    }

    // Forecasts what opening a stream will take and counts whether it is told. Tells whether it is as wanted.
    fn forecast(&mut self, stream: &[u8], want: Want) -> bool {
        let mut facts = [0u64; 8];
        let answer = sheet::sheet_forecast(stream, &mut facts);
        self.foretold = self.foretold.wrapping_add(u64::from(answer == 0));
        answer == want.forecast && facts_same(&facts, want.forecast_facts)
    }
}

// Runs the cases of a file: password, stream and what is wanted, each after its length.
fn run_file<R: Files + Eprint>(rt: &R, path: &[u8], tally: &mut Tally) {
    let mut data = [0u8; 262144];
    let mut cases = Reader::new(samples::read(rt, path, &mut data));
    while !cases.is_empty() {
        let password = cases.sized();
        let stream = cases.sized();
        let want = wanted(cases.sized(), stream.len());
        tally.run(password, stream, want);
    }
}

fn main(rt: HostRuntime) -> io::Result<()> {
    let mut tally = Tally {
        outcomes: [0; 28],
        by_standard: 0,
        padded: 0,
        foretold: 0,
        differ: 0,
    };
    for path in [b"cases_1", b"cases_2", b"cases_3", b"cases_4"] {
        run_file(&rt, path, &mut tally);
    }
    let Tally {
        outcomes,
        by_standard,
        padded,
        foretold,
        differ,
    } = tally;
    for (number, count) in outcomes.iter().enumerate() {
        println!(rt; "{number}\t{count}")?;
    }
    println!(rt; "key size 0 as 40\t{by_standard}")?;
    println!(rt; "padded\t{padded}")?;
    println!(rt; "forecasts that tell\t{foretold}")?;
    println!(rt; "{differ} differ")
}
