// What opening a stream will take, without a password: request T-04 of document 02, over the survey that Open asks too.
// Nothing of it is in the Rust source.
#![tactic(auto)]

ghost use Rattle.std.specs.Prelude.{◌≡◌};
ghost use Rattle.forecast.specs.Forecast.{forecast};
ghost use Rattle.forecast.specs.Steps.{keys_of};

use file_params::Refusal;
use survey::Scheme;

// What opening a stream will take: how many bytes of output, for how many records, how many bytes of their bodies to
// decipher, and how many block keys to derive.
#[derive(Clone, Copy, Debug, PartialEq, Eq)]
pub struct Counts {
    pub output_bytes: usize,
    pub records: usize,
    pub enciphered_body_bytes: usize,
    pub block_keys: usize,
}

// How many block keys opening so many bytes derives under a lock: none under XOR, and under RC4 one for the check and
// one for each block that the bytes start.
fn keys_of(scheme: Scheme, bytes: usize) -> usize
    ensures { result ≡ keys_of scheme bytes }
{
    match scheme {
        Scheme::Xor => 0,
        Scheme::Rc4(_) => 1 + bytes.div_ceil(1024),
    }
}

// What opening a stream will take, or the refusal that Open would give by questions 4 and 6 to 26.
pub fn forecast(stream: &[u8]) -> Result<Counts, Refusal>
    ensures { result ≡ forecast stream.now }
{
    let book = survey::survey(stream)?;
    Ok(Counts {
        output_bytes: stream.len(),
        records: book.records,
        enciphered_body_bytes: book.enciphered,
        block_keys: keys_of(book.scheme, stream.len()),
    })
}
