// C exports of the hashes, of RC4, of XOR obfuscation and of the walk for the benchmark in bench/.
#![tactic(auto)]

ghost use Rattle.std.specs.Prelude.{◌≡◌, ◌&&◌, length};
ghost use Rattle.laws.specs.Choice.{pick, within};
ghost use Rattle.rc4.specs.Rc4.{keyed, enciphered, enciphered_halves};
ghost use Rattle.sha_1.specs.Sha1.{sha1};
ghost use Rattle.md_5.specs.Md5.{md5};
ghost use Rattle.xor_obfuscation.specs.Xor.{Transforms};
ghost use Rattle.xor_obfuscation.specs.declared.Way.TheVariants.{Decrypt};
ghost use Rattle.binary_office.specs.Walk.{walk};

use rc4::Keystream;

// The SHA-1 digest of a message.
#[unsafe(no_mangle)]
pub extern "C" fn bench_sha1(m: &[u8], out: &mut [u8; 20])
    ensures { out.new ≡ sha1 m.now }
{
    *out = sha_1::digest(m);
}

// The MD5 digest of a message.
#[unsafe(no_mangle)]
pub extern "C" fn bench_md5(m: &[u8], out: &mut [u8; 16])
    ensures { out.new ≡ md5 m.now }
{
    *out = md_5::digest(m);
}

// The bytes of src under the keystream of a key, into dst; false for a key of no such length, and dst stays as it is.
#[unsafe(no_mangle)]
pub extern "C" fn bench_rc4(key: &[u8], src: &[u8], dst: &mut [u8]) -> bool
    ensures value { result ≡ within 5 16 (length key.now) }
    ensures dst_after { dst.new ≡ pick result (enciphered (keyed key.now) src.now dst.old) dst.old }
{
    let Some(keystream) = Keystream::new(key) else {
        return false;
    };
    keystream.apply(src, dst);
    true
}

// The halves of src under the keystreams of two keys, into dst; false for a key of no such length, and dst stays as it is.
#[unsafe(no_mangle)]
pub extern "C" fn bench_rc4_halves(key: &[u8], other: &[u8], src: &[u8], dst: &mut [u8]) -> bool
    ensures value { result ≡ within 5 16 (length key.now) && within 5 16 (length other.now) }
    ensures dst_after { dst.new ≡ pick result (enciphered_halves (keyed key.now) (keyed other.now) src.now dst.old) dst.old }
{
    rc4::apply_halves(key, other, src, dst)
}

// The bytes of src, deciphered from an index of the array on, into dst.
#[unsafe(no_mangle)]
pub extern "C" fn bench_xor(array: &[u8; 16], index: usize, src: &[u8], dst: &mut [u8])
    ensures { Transforms Decrypt array.now index src.now dst.old dst.new }
{
    xor_obfuscation::transform(xor_obfuscation::Way::Decrypt, array, index, src, dst);
}

// How many records a stream has, by the walk alone.
#[unsafe(no_mangle)]
pub extern "C" fn bench_walk(stream: &[u8]) -> usize
    ensures { result ≡ length (walk stream.now).records }
{
    let walked = binary_office::walk(stream);
    walked.records
}
