// The listing of a stream's records as text, into a lent buffer: what the programs `listing` and
// `listings` print (document 01, "The walk and its listing").
#![tactic(auto)]

ghost use Rattle.std.specs.Prelude.{◌≡◌, [], ◌∷◌, ◌++◌, ℕ, ◌+◌, ◌*◌, ◌/◌, ◌%◌, ◌^◌, ◌≤◌, ◌<◌, length};
ghost use Rattle.binary_office.specs.Walk.{walk};
ghost use Rattle.listing_text.specs.Text.{decimal, placed, hex_digit, hex4, line, unreadable, of_walk, text, Puts};

use binary_office::BiffRecord;

// Writes a byte at an offset, if there is room, and returns the next offset.
fn put(out: &mut [u8], n: usize, b: u8) -> usize
    requires { n < 2 ^ 63 }
    ensures { Puts (b ∷ []) n out.old result out.new }
{
    if n < out.len() {
        out[n] = b;
        return n + 1;
    }
    n + 1
}

// Writes some bytes.
fn put_bytes(out: &mut [u8], n: usize, bytes: &[u8]) -> usize
    requires { (n < 2 ^ 60) × (length bytes.now < 2 ^ 60) }
    ensures { Puts bytes.now n out.old result out.new }
{
    let mut at = n;
    let mut i = 0;
    while i < bytes.len() {
        at = put(out, at, bytes[i]);
        i += 1;
    }
    at
}

fn digit(d: usize) -> u8
    requires { d < 10 }
    ensures { result ≡ 48 + d }
{
    48 + (d as u8)
}

// Writes the digit of a place, if the number reaches it.
fn put_placed(out: &mut [u8], n: usize, x: usize, unit: usize) -> usize
    requires { (n < 2 ^ 63) × (0 < unit) }
    ensures { Puts (placed x unit) n out.old result out.new × (result ≤ n + 1) }
{
    if unit <= x {
        return put(out, n, digit(x / unit % 10));
    }
    n
}

// Writes a number of at most five digits.
fn put_decimal(out: &mut [u8], n: usize, x: usize) -> usize
    requires { (n < 2 ^ 62) × (x < 100000) }
    ensures { Puts (decimal x) n out.old result out.new × (result ≤ n + 5) }
{
    let n = put_placed(out, n, x, 10000);
    let n = put_placed(out, n, x, 1000);
    let n = put_placed(out, n, x, 100);
    let n = put_placed(out, n, x, 10);
    put(out, n, digit(x % 10))
}

fn hex_digit(d: u16) -> u8
    requires { d < 16 }
    ensures { result ≡ hex_digit d }
{
    if d < 10 {
        48 + (d as u8)
    } else {
        87 + (d as u8)
    }
}

// Writes an id in four hexadecimal digits.
fn put_hex(out: &mut [u8], n: usize, id: u16) -> usize
    requires { n < 2 ^ 62 }
    ensures { Puts (hex4 id) n out.old result out.new × (result ≡ n + 4) }
{
    let n = put(out, n, hex_digit(id / 4096 % 16));
    let n = put(out, n, hex_digit(id / 256 % 16));
    let n = put(out, n, hex_digit(id / 16 % 16));
    put(out, n, hex_digit(id % 16))
}

// Writes a record's line.
fn put_line(out: &mut [u8], n: usize, r: BiffRecord) -> usize
    requires { (n < 2 ^ 60) × (r.at < 100000) }
    ensures { Puts (line r) n out.old result out.new × (result ≤ n + 23) }
{
    let n = put_decimal(out, n, r.at);
    let n = put(out, n, 9);
    let n = put_hex(out, n, r.id);
    let n = put(out, n, 9);
    let n = put_decimal(out, n, r.len as usize);
    let n = put(out, n, 9);
    let n = put_decimal(out, n, binary_office::clear_len(r.id, r.len) as usize);
    put(out, n, 10)
}

// Writes a fault's line.
fn put_fault(out: &mut [u8], n: usize, place: usize) -> usize
    requires { (n < 2 ^ 59) × (place < 100000) }
    ensures { Puts (unreadable ++ decimal place ++ (10 ∷ [])) n out.old result out.new }
{
    let n = put_bytes(out, n, b"unreadable\t");
    let n = put_decimal(out, n, place);
    put(out, n, 10)
}

// Writes the lines of a stream of at most 32,768 bytes, after the header.
fn put_walk(out: &mut [u8], n: usize, stream: &[u8]) -> usize
    requires { (n ≤ 32) × (length stream.now ≤ 32768) }
    ensures { Puts (of_walk (walk stream.now)) n out.old result out.new }
{
    let mut n = n;
    for record in binary_office::biff_records(stream, 0) {
        n = match record {
            Ok(next) => put_line(out, n, next),
            Err(place) => put_fault(out, n, place),
        };
    }
    n
}

// Writes the listing of a stream to the start of a buffer, as far as there is room, and returns how long it is.
pub fn listing(stream: &[u8], out: &mut [u8]) -> usize
    ensures { Puts (text stream.now) 0 out.old result out.new }
{
    if stream.len() <= 32768 {
        let n = put_bytes(out, 0, b"at\tid\tlength\tclear\n");
        return put_walk(out, n, stream);
    }
    put_bytes(out, 0, b"too long\n")
}
