// Seals the plain streams in its data and compares the answer, the facts, the output and what is left of the scratch with
// what is expected; opens what was sealed, with the same password and with another. Prints how many cases had each outcome,
// and a line for each difference. tools/make_sealings.py makes the data and what is expected.
#![tactic(auto)]

use excel97::Report;
use file_params::Refusal;
use samples::{Reader, part};
use sealing::Choice;
use std::io;
use std::rt::Files;

// What a case is sealed under: the lock's number, the choice that it names, salt and verifier, and the lengths of scratch
// and output; and what is wanted: the answer's number, 0 for a stream that is sealed and else the refusal's, and the facts.
#[derive(Clone, Copy, Debug)]
struct Terms<'a> {
    lock: usize,
    choice: Choice,
    scratch_len: usize,
    output_len: usize,
    answer: usize,
    facts: &'a [u8],
    salt: [u8; 16],
    verifier: [u8; 16],
}

// A case: its terms and its name, its password and another one, the plain stream, and what the output is to hold.
#[derive(Clone, Copy, Debug)]
struct Case<'a> {
    terms: Terms<'a>,
    name: &'a [u8],
    password: &'a [u8],
    other: &'a [u8],
    plain: &'a [u8],
    want: &'a [u8],
}

// The choice by a lock's number, with a major version and a key size.
fn choice_of(lock: usize, major: usize, bits: usize) -> Choice {
    match lock {
        0 => Choice::Xor,
        1 => Choice::Office97,
        _ => Choice::CryptoApi((major % 65536) as u16, (bits % 4294967296) as u32),
    }
}

// The next sixteen bytes, or zeros where there are fewer.
fn sixteen(data: &mut Reader) -> [u8; 16] {
    *data.bytes(16).first_chunk().unwrap_or(&[0; 16])
}

// Reads terms: the lock, the major version, the key size, the lengths of scratch and output, the answer's number, seven
// facts, and salt and verifier.
fn terms_of(data: &[u8]) -> Terms {
    let mut data = Reader::new(data);
    let lock = data.number();
    let major = data.number();
    let bits = data.number();
    let scratch_len = data.number();
    let output_len = data.number();
    let answer = data.number();
    let facts = data.bytes(28);
    let salt = sixteen(&mut data);
    let verifier = sixteen(&mut data);
    Terms {
        lock,
        choice: choice_of(lock, major, bits),
        scratch_len,
        output_len,
        answer,
        facts,
        salt,
        verifier,
    }
}

// Reads a case: the terms, and then name, password, another password, plain stream and sealed stream, each after its length.
fn case_of(data: &[u8]) -> Case {
    let mut data = Reader::new(data);
    let terms = terms_of(data.bytes(84));
    let name = data.sized();
    let password = data.sized();
    let other = data.sized();
    let plain = data.sized();
    let want = data.sized();
    Case {
        terms,
        name,
        password,
        other,
        plain,
        want,
    }
}

// What sealing or opening answers: 0, or the refusal's number.
fn number_of(answer: Result<Report, Refusal>) -> usize {
    match answer {
        Ok(_) => 0,
        Err(refusal) => file_params::number(refusal) as usize,
    }
}

// The facts of the report, or the refusal's two details.
fn facts_of(answer: Result<Report, Refusal>) -> [u64; 7] {
    match answer {
        Ok(report) => [
            report.records as u64,
            report.lock as u64,
            u64::from(report.key_bits),
            u64::from(report.summary_sealed),
            report.output_bytes as u64,
            report.enciphered_body_bytes as u64,
            report.block_keys as u64,
        ],
        Err(refusal) => {
            let details = file_params::details_of(refusal);
            [details.first, details.second, 0, 0, 0, 0, 0]
        }
    }
}

// Whether the facts are those wanted, numbers of four bytes.
fn facts_same(answer: Result<Report, Refusal>, want: &[u8]) -> bool {
    let mut want = Reader::new(want);
    facts_of(answer)
        .iter()
        .all(|fact| *fact == want.number() as u64)
}

// Whether as much of the scratch is zero as is used, and the rest as it was lent.
fn wiped(scratch: &[u8]) -> bool {
    let zeros = [0u8; 64];
    samples::holds(scratch, &zeros[..scratch.len().min(64)])
}

// Whether the scratch is what an answer of a number leaves of it.
fn scratch_same(scratch: &[u8], answer: usize) -> bool {
    match answer {
        1..=5 => samples::holds(scratch, &[]),
        _ => wiped(scratch),
    }
}

// Writes that something of a case is not as wanted, and what it is by its number and first facts. Tells whether it is as
// wanted.
fn expect(
    rt: &impl Print,
    ok: bool,
    name: &[u8],
    what: &str,
    answer: Result<Report, Refusal>,
) -> io::Result<bool> {
    if !ok {
        let number = number_of(answer);
        let [first, second, ..] = facts_of(answer);
        rt.write_all(name)?;
        println!(rt; ": {what}, after answer {number} with {first} and {second}")?;
    }
    Ok(ok)
}

// Opens a sealed stream with a password. Tells whether the answer passes a test, the output holds some bytes, and the
// scratch is wiped; each of the two texts says what is judged.
fn opens<F: FnOnce(Result<Report, Refusal>) -> bool>(
    rt: &impl Print,
    name: &[u8],
    stream: &[u8],
    password: &[u8],
    test: F,
    held: &[u8],
    what: [&str; 2],
) -> io::Result<bool>
    requires { F.IsAlwaysCallable test }
{
    let mut scratch = [0u8; 70];
    let mut output = [0u8; 8192];
    samples::lend(&mut scratch);
    samples::lend(&mut output);
    let told = excel97::open(stream, password, &mut scratch, &mut output);
    let answer = expect(rt, test(told), name, what[0], told)?;
    let kept = samples::holds(&output, held) && wiped(&scratch);
    let left = expect(rt, kept, name, what[1], told)?;
    Ok(answer && left)
}

// Whether a sealed stream opens with its password, to the plain stream and with the facts wanted.
fn opens_again(rt: &impl Print, case: Case, stream: &[u8]) -> io::Result<bool> {
    opens(
        rt,
        case.name,
        stream,
        case.password,
        |told| told.is_ok() && facts_same(told, case.terms.facts),
        case.plain,
        ["what opening it answers", "what opening it leaves"],
    )
}

// Whether a sealed stream is refused with another password.
fn shuts(rt: &impl Print, case: Case, stream: &[u8]) -> io::Result<bool> {
    opens(
        rt,
        case.name,
        stream,
        case.other,
        |told| matches!(told, Err(Refusal::WrongPassword)),
        &[],
        [
            "what another password answers",
            "what another password leaves",
        ],
    )
}

// Seals a stream with what is lent. Tells whether all is as wanted.
fn seals(rt: &impl Print, case: Case, scratch: &mut [u8], output: &mut [u8]) -> io::Result<bool> {
    let Terms {
        choice,
        answer,
        facts,
        salt,
        verifier,
        ..
    } = case.terms;
    let told = sealing::seal(
        case.plain,
        case.password,
        choice,
        salt,
        verifier,
        scratch,
        output,
    );
    let answered = expect(rt, number_of(told) == answer, case.name, "the answer", told)?;
    let reported = expect(rt, facts_same(told, facts), case.name, "the facts", told)?;
    let fine = samples::holds(output, case.want);
    let written = expect(rt, fine, case.name, "the output", told)?;
    let fine = scratch_same(scratch, answer);
    let left = expect(rt, fine, case.name, "the scratch", told)?;
    Ok(answered && reported && written && left)
}

// How many cases had each outcome, 0 for a stream that is sealed and else the refusal's number; how many were sealed under
// each lock, opened again, and were refused with another password; how many cases there are, and how many of them differ.
#[derive(Clone, Copy, Debug, PartialEq, Eq)]
struct Tally {
    outcomes: [u64; 33],
    xor: u64,
    office97: u64,
    cryptoapi: u64,
    opened: u64,
    shut: u64,
    cases: u64,
    differ: u64,
}

impl Tally {
    // Counts a case that is sealed or refused as it is to be.
    fn count(&mut self, terms: Terms) {
        if let Some(count) = self.outcomes.get_mut(terms.answer) {
            *count = count.wrapping_add(1);
        }
        if terms.answer == 0 {
            match terms.lock % 3 {
                0 => self.xor = self.xor.wrapping_add(1),
                1 => self.office97 = self.office97.wrapping_add(1),
                _ => self.cryptoapi = self.cryptoapi.wrapping_add(1),
            }
        }
    }

    // Seals a case's stream with what is lent, and opens it where it is to be sealed. Counts what comes of it.
    fn run_lent(
        &mut self,
        rt: &impl Print,
        case: Case,
        scratch: &mut [u8],
        output: &mut [u8],
    ) -> io::Result<()> {
        let mut same = seals(rt, case, scratch, output)?;
        if same {
            self.count(case.terms);
        }
        if case.terms.answer == 0 {
            let stream = part(output, 0, case.plain.len());
            let opened = opens_again(rt, case, stream)?;
            let shut = shuts(rt, case, stream)?;
            self.opened = self.opened.wrapping_add(u64::from(opened));
            self.shut = self.shut.wrapping_add(u64::from(shut));
            same = same && opened && shut;
        }
        self.cases = self.cases.wrapping_add(1);
        self.differ = self.differ.wrapping_add(u64::from(!same));
        Ok(())
    }

    // Runs a case, with a scratch and an output of the lengths that its terms name.
    fn run(&mut self, rt: &impl Print, case: Case) -> io::Result<()> {
        let mut scratch = [0u8; 8192];
        let mut output = [0u8; 8192];
        samples::lend(&mut scratch);
        samples::lend(&mut output);
        self.run_lent(
            rt,
            case,
            &mut scratch[..case.terms.scratch_len.min(8192)],
            &mut output[..case.terms.output_len.min(8192)],
        )
    }

    // Writes how many cases had each outcome.
    fn tell(&self, rt: &impl Print) -> io::Result<()> {
        println!(rt; "sealed under XOR\t{}", self.xor)?;
        println!(rt; "sealed under 1.1\t{}", self.office97)?;
        println!(rt; "sealed under CryptoAPI\t{}", self.cryptoapi)?;
        println!(rt; "opened again\t{}", self.opened)?;
        println!(rt; "refused with another password\t{}", self.shut)?;
        for (number, count) in self.outcomes.iter().enumerate().skip(1) {
            if 0 < *count {
                println!(rt; "refused by {number}\t{count}")?;
            }
        }
        println!(rt; "{} cases, {} differ", self.cases, self.differ)
    }
}

// Runs the cases of a file, each after its length.
fn run_file<R: Files + Print + Eprint>(rt: &R, path: &[u8], tally: &mut Tally) -> io::Result<()> {
    let mut data = [0u8; 262144];
    let mut cases = Reader::new(samples::read(rt, path, &mut data));
    while !cases.is_empty() {
        tally.run(rt, case_of(cases.sized()))?;
    }
    Ok(())
}

fn main(rt: HostRuntime) -> io::Result<()> {
    let mut tally = Tally {
        outcomes: [0; 33],
        xor: 0,
        office97: 0,
        cryptoapi: 0,
        opened: 0,
        shut: 0,
        cases: 0,
        differ: 0,
    };
    for path in [b"cases_1", b"cases_2", b"cases_3"] {
        run_file(&rt, path, &mut tally)?;
    }
    tally.tell(&rt)
}
