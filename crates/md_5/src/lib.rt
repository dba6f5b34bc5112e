// MD5, by RFC 1321. The source takes it from a library, so this is written from the document.
#![tactic(auto)]

ghost use Rattle.std.specs.Prelude.{◌≡◌, ◌+◌, ◌%◌, ◌≤◌, ◌<◌, ℕ};
ghost use Rattle.padding.specs.Padding.{hash_end, le64};
ghost use Rattle.padding.proofs.Size.{length_le64, le64_mod};
ghost use Rattle.md_5.specs.declared.State.{State};
ghost use Rattle.md_5.specs.Round.{Mixes};
ghost use Rattle.md_5.specs.Md5.{aux_F, aux_G, aux_H, aux_I, start, stepped, steps, words, added, compressed, output, md5};

use padding::BlockHash;

// Which word of the block each operation adds.
const ORDER: [usize; 64] = [
    0, 1, 2, 3, 4, 5, 6, 7, 8, 9, 10, 11, 12, 13, 14, 15, 1, 6, 11, 0, 5, 10, 15, 4, 9, 14, 3, 8,
    13, 2, 7, 12, 5, 8, 11, 14, 1, 4, 7, 10, 13, 0, 3, 6, 9, 12, 15, 2, 0, 7, 14, 5, 12, 3, 10, 1,
    8, 15, 6, 13, 4, 11, 2, 9,
];

// By how much it rotates: four counts in turn, for each round.
const SHIFTS: [u32; 16] = [7, 12, 17, 22, 5, 9, 14, 20, 4, 11, 16, 23, 6, 10, 15, 21];

// The table T, of the sine.
const TABLE: [u32; 64] = [
    0xd76a_a478,
    0xe8c7_b756,
    0x2420_70db,
    0xc1bd_ceee,
    0xf57c_0faf,
    0x4787_c62a,
    0xa830_4613,
    0xfd46_9501,
    0x6980_98d8,
    0x8b44_f7af,
    0xffff_5bb1,
    0x895c_d7be,
    0x6b90_1122,
    0xfd98_7193,
    0xa679_438e,
    0x49b4_0821,
    0xf61e_2562,
    0xc040_b340,
    0x265e_5a51,
    0xe9b6_c7aa,
    0xd62f_105d,
    0x0244_1453,
    0xd8a1_e681,
    0xe7d3_fbc8,
    0x21e1_cde6,
    0xc337_07d6,
    0xf4d5_0d87,
    0x455a_14ed,
    0xa9e3_e905,
    0xfcef_a3f8,
    0x676f_02d9,
    0x8d2a_4c8a,
    0xfffa_3942,
    0x8771_f681,
    0x6d9d_6122,
    0xfde5_380c,
    0xa4be_ea44,
    0x4bde_cfa9,
    0xf6bb_4b60,
    0xbebf_bc70,
    0x289b_7ec6,
    0xeaa1_27fa,
    0xd4ef_3085,
    0x0488_1d05,
    0xd9d4_d039,
    0xe6db_99e5,
    0x1fa2_7cf8,
    0xc4ac_5665,
    0xf429_2244,
    0x432a_ff97,
    0xab94_23a7,
    0xfc93_a039,
    0x655b_59c3,
    0x8f0c_cc92,
    0xffef_f47d,
    0x8584_5dd1,
    0x6fa8_7e4f,
    0xfe2c_e6e0,
    0xa301_4314,
    0x4e08_11a1,
    0xf753_7e82,
    0xbd3a_f235,
    0x2ad7_d2bb,
    0xeb86_d391,
];

// The four words A, B, C and D.
#[derive(Clone, Copy, Debug, PartialEq, Eq)]
pub struct State {
    pub a: u32,
    pub b: u32,
    pub c: u32,
    pub d: u32,
}

// The functions F, G, H and I of the rounds.
fn f(x: u32, y: u32, z: u32) -> u32
    ensures { result ≡ aux_F x y z }
{
    (x & y) | (!x & z)
}

fn g(x: u32, y: u32, z: u32) -> u32
    ensures { result ≡ aux_G x y z }
{
    (x & z) | (y & !z)
}

fn h(x: u32, y: u32, z: u32) -> u32
    ensures { result ≡ aux_H x y z }
{
    x ^ y ^ z
}

fn i(x: u32, y: u32, z: u32) -> u32
    ensures { result ≡ aux_I x y z }
{
    y ^ (x | !z)
}

// One operation, from the function's value, a word of the block, a count and an entry of the table.
fn step(v: State, f: u32, x: u32, s: u32, t: u32) -> State
    ensures { result ≡ stepped v f x (s % 32) t }
{
    let sum = word::sum4(v.a, f, x, t);
    let b = word::add(v.b, word::rotate_left(sum, s));
    State {
        a: v.d,
        b,
        c: v.b,
        d: v.c,
    }
}

// The operation numbered t, with its round's function.
#[inline(always)]
fn operation<F: Fn(u32, u32, u32) -> u32 + Copy>(v: State, x: &[u32; 16], t: usize, mix: F) -> State
    requires callable { F.IsAlwaysCallable mix }
    requires room { t < 64 }
    requires function { Mixes (λ x y z r. F.post mix x y z r) t 1 }
    ensures { (u : State) → v ≡ steps x.now u t → result ≡ steps x.now u (t + 1) }
{
    let value = mix(v.b, v.c, v.d);
    step(v, value, x[ORDER[t]], SHIFTS[t / 16 * 4 + t % 4], TABLE[t])
}

// Four operations from the one numbered t on.
#[inline(always)]
fn four<F: Fn(u32, u32, u32) -> u32 + Copy>(v: State, x: &[u32; 16], t: usize, mix: F) -> State
    requires callable { F.IsAlwaysCallable mix }
    requires room { t + 4 ≤ 64 }
    requires function { Mixes (λ x y z r. F.post mix x y z r) t 4 }
    ensures { (u : State) → v ≡ steps x.now u t → result ≡ steps x.now u (t + 4) }
{
    let v = operation(v, x, t, mix);
    let v = operation(v, x, t + 1, mix);
    let v = operation(v, x, t + 2, mix);
    operation(v, x, t + 3, mix)
}

// The sixteen operations of a round, from the one numbered t on.
// Kept written out: in a loop LLVM adds the function's value early in the sum, and MD5 is slower (421 against 533 MB/s).
#[inline(always)]
fn round<F: Fn(u32, u32, u32) -> u32 + Copy>(v: State, x: &[u32; 16], t: usize, mix: F) -> State
    requires callable { F.IsAlwaysCallable mix }
    requires room { t + 16 ≤ 64 }
    requires function { Mixes (λ x y z r. F.post mix x y z r) t 16 }
    ensures { (u : State) → v ≡ steps x.now u t → result ≡ steps x.now u (t + 16) }
{
    let v = four(v, x, t, mix);
    let v = four(v, x, t + 4, mix);
    let v = four(v, x, t + 8, mix);
    four(v, x, t + 12, mix)
}

// The words of a block.
fn load(block: &[u8; 64]) -> [u32; 16]
    ensures { result ≡ words block.now }
{
    let mut x = [0u32; 16];
    for i in 0..16 {
        let p = i * 4;
        x[i] = word::from_le_bytes(block[p], block[p + 1], block[p + 2], block[p + 3]);
    }
    x
}

// The sum of two values, word by word.
fn add(h: State, v: State) -> State
    ensures { result ≡ added h v }
{
    State {
        a: word::add(v.a, h.a),
        b: word::add(v.b, h.b),
        c: word::add(v.c, h.c),
        d: word::add(v.d, h.d),
    }
}

impl BlockHash for State {
    type Digest = [u8; 16];

    ghost initial = { start };

    ghost after_block = { compressed };

    ghost size_bytes = { le64 };

    ghost digest_of = { output };

    ghost eight = { length_le64 };

    ghost low_bits = { le64_mod };

    // The words at the start.
    fn init() -> State {
        State {
            a: 0x6745_2301,
            b: 0xefcd_ab89,
            c: 0x98ba_dcfe,
            d: 0x1032_5476,
        }
    }

    fn compress(self, block: &[u8; 64]) -> State {
        let x = load(block);
        let v = round(self, &x, 0, f);
        let v = round(v, &x, 16, g);
        let v = round(v, &x, 32, h);
        let v = round(v, &x, 48, i);
        add(self, v)
    }

    fn size(total: u64) -> [u8; 8] {
        padding::size_le(total)
    }

    // A value as bytes.
    fn to_digest(self) -> [u8; 16] {
        let a = word::to_le_bytes(self.a);
        let b = word::to_le_bytes(self.b);
        let c = word::to_le_bytes(self.c);
        let d = word::to_le_bytes(self.d);
        [
            a[0], a[1], a[2], a[3], b[0], b[1], b[2], b[3], c[0], c[1], c[2], c[3], d[0], d[1],
            d[2], d[3],
        ]
    }
}

// The value after one block.
pub fn compress(h: State, block: &[u8; 64]) -> State
    ensures { result ≡ compressed h block.now }
{
    h.compress(block)
}

// The digest of a message of `total` bytes that ends in m, from the value that the blocks before m gave.
pub fn finish(h: State, m: &[u8], total: u64) -> [u8; 16]
    ensures { result ≡ output (hash_end compressed le64 h m.now total) }
{
    padding::finish(h, m, total)
}

// The digest of a message.
pub fn digest(m: &[u8]) -> [u8; 16]
    ensures { result ≡ md5 m.now }
{
    padding::digest::<State>(m)
}
