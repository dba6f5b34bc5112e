// The RC4 keystream: from the Rust source's rc4.rs, its `Keystream`. The source takes the cipher from a
// library; this is written from document 01, and `Keystream` is tested against RFC 6229. Beside it `apply_key` and
// `apply_halves`, which take keys and hand no table over.
#![tactic(auto)]

ghost use Rattle.std.specs.Prelude.{◌≡◌, ◌&&◌, ℕ, ◌+◌, ◌%◌, ◌≤◌, ◌<◌, eqb, length, get_or};
ghost use Rattle.std.specs.Int.Bits.{bit_xor};
ghost use Rattle.laws.specs.Choice.{pick, within};
ghost use Rattle.laws.proofs.Written.{Written};
ghost use Rattle.rc4.specs.Rc4.{identity, mixing, keyed, made, byte_from, enciphered, Applies, AppliesHalves, enciphered_halves, Rearranged, Rearranged-prop};
ghost use Rattle.rc4.specs.KeyIndex.{following_index};
ghost use Rattle.rc4.specs.Steps.{MixedTo, StepsTo, given_halves};

// A keystream under one key: the table, and the two indices into it. It has no Debug, which would print a secret.
#[derive(Clone, Copy)]
pub struct Keystream {
    pub table: [u8; 256],
    pub i: u8,
    pub j: u8,
}

// A table while it is worked with: every byte value stands in it once. Its entries have 32 bits, which are faster than
// bytes where two keystreams run side by side.
#[derive(Drop)]
struct Permutation {
    entries: [u32; 256],
    ghost rearranged: { Rearranged entries } by { Rearranged-prop entries },
}

// What a step of the key mixing carries to the next one: j, the index of the key byte that is next, and the entry at
// the next i.
#[derive(Clone, Copy)]
struct Mixed {
    j: usize,
    index: usize,
    entry: u32,
}

// What a step of the keystream leaves: j, the entry at the next i, and the byte that the step gives.
#[derive(Clone, Copy)]
struct Stepped {
    j: usize,
    entry: u32,
    byte: u8,
}

// The entry at another index than i after the entries i and j swapped: what was loaded there before, unless it is j.
fn after_swap(index: usize, j: usize, stored: u32, loaded: u32) -> u32
    ensures { result ≡ pick (eqb index j) stored loaded }
{
    if index == j { stored } else { loaded }
}

// The index that follows an index of a key: one more, and 0 at the key's end.
fn following_index(index: usize, len: usize) -> usize
    requires { index < len }
    ensures { result ≡ following_index len index }
{
    if index == len - 1 { 0 } else { index + 1 }
}

// What the first step of a key's mixing is given: j and the key index at 0, and entry 0, which is 0.
fn unstarted() -> Mixed
    ensures { result ≡ record { j = 0; index = 0; entry = 0 } }
{
    Mixed {
        j: 0,
        index: 0,
        entry: 0,
    }
}

impl Permutation {
    // The entries 0 to 255 in order, before a key is mixed in.
    fn unmixed() -> Permutation
        ensures { result.entries ≡ identity }
    {
        let mut entries = [0; 256];
        for (i, entry) in entries.iter_mut().enumerate() {
            *entry = i as u32;
        }
        Permutation { entries }
    }

    // A step of the key mixing: j gains entry i and the key byte at the carried index, and the entries i and j swap.
    // The entry at the next i is loaded before the two stores, so that it need not wait for them.
    fn mix(&mut self, key: &[u8], i: usize, at: Mixed) -> Mixed
        requires { (i < 256) × MixedTo key.now i at self.old.entries }
        ensures { MixedTo key.now (i + 1) result self.new.entries }
    {
        let index = at.index;
        let a = at.entry;
        let next = (i + 1) % 256;
        let j = (at.j + a as usize + key[index] as usize) % 256;
        let loaded = self.entries[next];
        self.entries[i] = self.entries[j];
        self.entries[j] = a;
        Mixed {
            j,
            index: following_index(index, key.len()),
            entry: after_swap(next, j, a, loaded),
        }
    }

    // Mixes a key into the entries. Kept beside mix_both, which mixes two keys side by side.
    fn mix_all(&mut self, key: &[u8])
        requires { (self.old.entries ≡ identity) × (0 < length key.now) }
        ensures { self.new.entries ≡ (mixing key.now 256).table }
    {
        let mut at = unstarted();
        for i in 0..256 {
            at = self.mix(key, i, at);
        }
    }

    // A step of a keystream: j gains entry i, the entries i and j swap, and the entry at the sum of the two is the byte.
    // The entry at the next i is loaded before the two stores, so that it need not wait for them.
    fn step(&mut self, i: usize, at: Stepped) -> Stepped
        requires { (i < 256) × (at.j < 256) × (at.entry ≡ get_or self.old.entries i 0) }
        ensures { StepsTo self.old.entries i at result self.new.entries }
    {
        let a = at.entry;
        let next = (i + 1) % 256;
        let j = (at.j + a as usize) % 256;
        let loaded = self.entries[next];
        let b = self.entries[j];
        self.entries[i] = b;
        self.entries[j] = a;
        let sum = (a as usize + b as usize) % 256;
        let byte = (self.entries[sum] % 256) as u8;
        let entry = after_swap(next, j, a, loaded);
        Stepped { j, entry, byte }
    }

    // What a keystream's first step is given: j at 0, and entry 1.
    fn ready(&self) -> Stepped
        ensures { result ≡ record { j = 0; entry = get_or self.now.entries 1 0; byte = 0 } }
    {
        Stepped {
            j: 0,
            entry: self.entries[1],
            byte: 0,
        }
    }

    // Writes the first n bytes of the entries' keystream to dst. Kept beside give_both.
    fn give(&mut self, n: usize, dst: &mut [u8])
        requires { n ≤ length dst.old }
        ensures { Written (byte_from (record { table = self.old.entries; i = 0; j = 0 })) 0 n dst.old dst.new }
    {
        let mut at = self.ready();
        let mut i = 1;
        for k in 0..n {
            at = self.step(i, at);
            dst[k] = at.byte;
            i = (i + 1) % 256;
        }
    }
}

// Mixes one of two keys into each of two tables. Two steps in each turn of the loop are faster than one.
// Kept beside table_of: two keys side by side, with the early load, are what Open's speed rests on (docs/PERFORMANCE.md).
fn mix_both(s: &mut Permutation, t: &mut Permutation, key: &[u8], other: &[u8])
    requires { (s.old.entries ≡ identity) × (t.old.entries ≡ identity) × (0 < length key.now) × (0 < length other.now) }
    ensures { (s.new.entries ≡ (mixing key.now 256).table) × (t.new.entries ≡ (mixing other.now 256).table) }
{
    let mut first = unstarted();
    let mut second = unstarted();
    for k in 0..128 {
        let i = 2 * k;
        first = s.mix(key, i, first);
        second = t.mix(other, i, second);
        first = s.mix(key, i + 1, first);
        second = t.mix(other, i + 1, second);
    }
}

// Whether a keystream is made from keys of a length.
fn fits(len: usize) -> bool
    ensures { result ≡ within 5 16 len }
{
    (Keystream::MIN_KEY_LEN..=Keystream::MAX_KEY_LEN).contains(&len)
}

// The table of a key: for each i rising, j gains entry i and the key byte at the carried index, and the entries i and j
// swap. As a call of its own it leaves the loop of apply the registers in which that is fastest.
// Kept without slice::swap, here and in apply, mix and step: it branches on which index is less, and apply is 0.4 as fast.
#[inline(never)]
fn table_of(key: &[u8]) -> [u8; 256]
    requires { 0 < length key.now }
    ensures { result ≡ (mixing key.now 256).table }
{
    let mut table = [0; 256];
    for (i, entry) in table.iter_mut().enumerate() {
        *entry = i as u8;
    }
    let mut j = 0u8;
    let mut index = 0;
    for i in 0..256 {
        let a = table[i];
        j = j.wrapping_add(a).wrapping_add(key[index]);
        table[i] = table[j as usize];
        table[j as usize] = a;
        index = following_index(index, key.len());
    }
    table
}

impl Keystream {
    // The least and the greatest length of a key.
    pub const MIN_KEY_LEN: usize = 5;

    pub const MAX_KEY_LEN: usize = 16;

    // The keystream of a key of 5 to 16 bytes, from its first byte on.
    pub fn new(key: &[u8]) -> Option<Keystream>
        ensures { result ≡ made key.now }
    {
        if !fits(key.len()) {
            return None;
        }
        Some(Keystream {
            table: table_of(key),
            i: 0,
            j: 0,
        })
    }

    // The bytes of src, exclusive-or the keystream, into dst, as many as both have room for. Gives
    // back the keystream that continues after them. For an i of u8 LLVM makes one instruction more in each turn.
    pub fn apply(mut self, src: &[u8], dst: &mut [u8]) -> Keystream
        ensures { Applies self src.now dst.old result dst.new }
    {
        let mut i = self.i as usize;
        let mut j = self.j as usize;
        for k in 0..src.len().min(dst.len()) {
            i = (i + 1) % 256;
            let a = self.table[i];
            j = (j + a as usize) % 256;
            let b = self.table[j];
            self.table[i] = b;
            self.table[j] = a;
            dst[k] = src[k] ^ self.table[a.wrapping_add(b) as usize];
        }
        self.i = i as u8;
        self.j = j as u8;
        self
    }
}

// Writes the first h bytes of the keystreams of two tables to dst, those of the second after those of the first. The
// two run side by side. i is carried along: worked out from k it takes three instructions more in each turn.
fn give_both(s: &mut Permutation, t: &mut Permutation, h: usize, dst: &mut [u8])
    requires { h + h ≤ length dst.old }
    ensures { Written (given_halves (record { table = s.old.entries; i = 0; j = 0 }) (record { table = t.old.entries; i = 0; j = 0 }) h) 0 (h + h) dst.old dst.new }
{
    let mut first = s.ready();
    let mut second = t.ready();
    let mut i = 1;
    for k in 0..h {
        first = s.step(i, first);
        second = t.step(i, second);
        dst[k] = first.byte;
        dst[h + k] = second.byte;
        i = (i + 1) % 256;
    }
}

// The first n bytes of dst, exclusive-or those of src.
fn exclusive_or(src: &[u8], n: usize, dst: &mut [u8])
    requires { (n ≤ length src.now) × (n ≤ length dst.old) }
    ensures { Written (λ (o : ℕ). bit_xor (get_or src.now o 0) (get_or dst.old o 0)) 0 n dst.old dst.new }
{
    for k in 0..n {
        dst[k] = src[k] ^ dst[k];
    }
}

// The first half of src under the keystream of one table and the second half under that of another, into dst. The
// keystreams go to dst first, so that the loop over them touches nothing else that the caller lends.
fn apply_both(s: &mut Permutation, t: &mut Permutation, src: &[u8], dst: &mut [u8])
    ensures { AppliesHalves (record { table = s.old.entries; i = 0; j = 0 }) (record { table = t.old.entries; i = 0; j = 0 }) src.now dst.old dst.new }
{
    let h = src.len().min(dst.len()) / 2;
    give_both(s, t, h, dst);
    exclusive_or(src, h + h, dst);
}

// The bytes of src under the keystream of a key, into dst, as many as both have room for. Tells whether the key has 5
// to 16 bytes; dst stays as it is if not.
pub fn apply_key(key: &[u8], src: &[u8], dst: &mut [u8]) -> bool
    ensures value { result ≡ within 5 16 (length key.now) }
    ensures dst_after { dst.new ≡ pick result (enciphered (keyed key.now) src.now dst.old) dst.old }
{
    if !fits(key.len()) {
        return false;
    }
    let n = src.len().min(dst.len());
    let mut t = Permutation::unmixed();
    t.mix_all(key);
    t.give(n, dst);
    exclusive_or(src, n, dst);
    true
}

// The first half of src under the keystream of one key and the second half under that of another, into dst: as many
// bytes as both have room for, less one if that is odd. Tells whether both keys have 5 to 16 bytes; dst stays as it is
// if not. The two run side by side, mixing and all, over tables that stay its locals.
pub fn apply_halves(key: &[u8], other: &[u8], src: &[u8], dst: &mut [u8]) -> bool
    ensures value { result ≡ within 5 16 (length key.now) && within 5 16 (length other.now) }
    ensures dst_after { dst.new ≡ pick result (enciphered_halves (keyed key.now) (keyed other.now) src.now dst.old) dst.old }
{
    if !fits(key.len()) || !fits(other.len()) {
        return false;
    }
    let mut s = Permutation::unmixed();
    let mut t = Permutation::unmixed();
    mix_both(&mut s, &mut t, key, other);
    apply_both(&mut s, &mut t, src, dst);
    true
}
