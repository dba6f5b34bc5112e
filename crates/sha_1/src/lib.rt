// SHA-1, by FIPS 180-4. The source takes it from a library, so this is written from the standard.
#![tactic(auto)]

ghost use Rattle.std.specs.Prelude.{◌≡◌, ◌+◌, ◌≤◌, ◌<◌, ℕ, List, length, take};
ghost use Rattle.sha_1.specs.declared.State.{State};
ghost use Rattle.padding.specs.Padding.{hash_end, be64};
ghost use Rattle.padding.proofs.Size.{length_be64, be64_mod};
ghost use Rattle.sha_1.specs.Sha1.{f, k, ch, parity, maj, start, schedule, turned, rounds, added, compressed, output, sha1};

use padding::BlockHash;

// A hash value: FIPS 180-4's five words H0 to H4. In the rounds, its working variables a to e.
#[derive(Clone, Copy, Debug, PartialEq, Eq)]
pub struct State {
    pub h0: u32,
    pub h1: u32,
    pub h2: u32,
    pub h3: u32,
    pub h4: u32,
}

// FIPS 180-4's functions Ch, Parity and Maj.
fn ch(x: u32, y: u32, z: u32) -> u32
    ensures { result ≡ ch x y z }
{
    (x & y) ^ (!x & z)
}

fn parity(x: u32, y: u32, z: u32) -> u32
    ensures { result ≡ parity x y z }
{
    x ^ y ^ z
}

fn maj(x: u32, y: u32, z: u32) -> u32
    ensures { result ≡ maj x y z }
{
    (x & y) ^ (x & z) ^ (y & z)
}

// One round, from the function's value, its constant and the schedule's word.
fn turn(v: State, f: u32, k: u32, w: u32) -> State
    ensures { result ≡ turned v f k w }
{
    let a = word::rotate_left(v.h0, 5);
    let b = word::rotate_left(v.h1, 30);
    State {
        h0: word::sum5(a, f, v.h4, k, w),
        h1: v.h0,
        h2: b,
        h3: v.h2,
        h4: v.h3,
    }
}

// Twenty rounds from one on, which have one function and one constant.
#[inline(always)]
fn twenty<F: Fn(u32, u32, u32) -> u32>(
    v: State,
    w: &[u32; 80],
    from: usize,
    constant: u32,
    mix: F,
) -> State
    requires callable { F.IsAlwaysCallable mix }
    requires room { from ≤ 60 }
    requires function { (t x y z r : ℕ) → from ≤ t → t < from + 20 → F.post mix x y z r → r ≡ f t x y z }
    requires told { (t : ℕ) → from ≤ t → t < from + 20 → constant ≡ k t }
    ensures { (u : State) → v ≡ rounds w.now u from → result ≡ rounds w.now u (from + 20) }
{
    let mut v = v;
    for t in from..from + 20 {
        v = turn(v, mix(v.h1, v.h2, v.h3), constant, w[t]);
    }
    v
}

// The words of a block, in the first 16 of 80.
fn load(block: &[u8; 64]) -> [u32; 80]
    ensures { (length result ≡ 80) × (take 16 result ≡ schedule block.now 16) }
{
    let mut w = [0u32; 80];
    for t in 0..16 {
        let p = t * 4;
        w[t] = word::from_be_bytes(block[p], block[p + 1], block[p + 2], block[p + 3]);
    }
    w
}

// Sixteen more words of the schedule.
fn extend(w: &mut [u32; 80], from: usize)
    requires { (16 ≤ from) × (from ≤ 64) }
    ensures { (m : List ℕ) → take from w.old ≡ schedule m from → take (from + 16) w.new ≡ schedule m (from + 16) }
{
    for t in from..from + 16 {
        let x = w[t - 3] ^ w[t - 8] ^ w[t - 14] ^ w[t - 16];
        w[t] = word::rotate_left(x, 1);
    }
}

// The sum of two hash values, word by word.
fn add(h: State, v: State) -> State
    ensures { result ≡ added h v }
{
    State {
        h0: word::add(v.h0, h.h0),
        h1: word::add(v.h1, h.h1),
        h2: word::add(v.h2, h.h2),
        h3: word::add(v.h3, h.h3),
        h4: word::add(v.h4, h.h4),
    }
}

impl BlockHash for State {
    type Digest = [u8; 20];

    ghost initial = { start };

    ghost after_block = { compressed };

    ghost size_bytes = { be64 };

    ghost digest_of = { output };

    ghost eight = { length_be64 };

    ghost low_bits = { be64_mod };

    // The initial hash value.
    fn init() -> State {
        State {
            h0: 0x6745_2301,
            h1: 0xefcd_ab89,
            h2: 0x98ba_dcfe,
            h3: 0x1032_5476,
            h4: 0xc3d2_e1f0,
        }
    }

    fn compress(self, block: &[u8; 64]) -> State {
        let mut w = load(block);
        // Kept as four calls: one loop over words 16 to 79 keeps them in memory, and is slower (321 against 464 MB/s).
        extend(&mut w, 16);
        extend(&mut w, 32);
        extend(&mut w, 48);
        extend(&mut w, 64);
        let v = twenty(self, &w, 0, 0x5a82_7999, ch);
        let v = twenty(v, &w, 20, 0x6ed9_eba1, parity);
        let v = twenty(v, &w, 40, 0x8f1b_bcdc, maj);
        let v = twenty(v, &w, 60, 0xca62_c1d6, parity);
        add(self, v)
    }

    fn size(total: u64) -> [u8; 8] {
        padding::size_be(total)
    }

    // A hash value as bytes.
    fn to_digest(self) -> [u8; 20] {
        let a = word::to_be_bytes(self.h0);
        let b = word::to_be_bytes(self.h1);
        let c = word::to_be_bytes(self.h2);
        let d = word::to_be_bytes(self.h3);
        let e = word::to_be_bytes(self.h4);
        [
            a[0], a[1], a[2], a[3], b[0], b[1], b[2], b[3], c[0], c[1], c[2], c[3], d[0], d[1],
            d[2], d[3], e[0], e[1], e[2], e[3],
        ]
    }
}

// The hash value after one block.
pub fn compress(h: State, block: &[u8; 64]) -> State
    ensures { result ≡ compressed h block.now }
{
    h.compress(block)
}

// The digest of a message of `total` bytes that ends in m, from the hash value that the blocks before m gave.
pub fn finish(h: State, m: &[u8], total: u64) -> [u8; 20]
    ensures { result ≡ output (hash_end compressed be64 h m.now total) }
{
    padding::finish(h, m, total)
}

// The digest of a message.
pub fn digest(m: &[u8]) -> [u8; 20]
    ensures { result ≡ sha1 m.now }
{
    padding::digest::<State>(m)
}
