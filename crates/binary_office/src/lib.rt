// The record walk and Look: from the Rust source's binary_office.rs, its Excel part, with its names.
// `BiffRecords` is its iterator: a struct that holds the stream and the position, over a core on plain
// slices.
#![tactic(auto)]

ghost use Rattle.std.specs.Prelude.{◌≡◌, ◌+◌, ◌*◌, ◌^◌, ◌≤◌, ◌<◌, false, min, length, take, drop};
ghost use Rattle.binary_office.specs.Fields.{le16_at, le32_at};
ghost use Rattle.binary_office.specs.Walk.{step_at, next_of, next_at, walk, walked_of, never_encrypted, clear_len};
ghost use Rattle.binary_office.specs.Look.{version_of, bits_of, bits_in, size_of, facts_of, scan_at, found, capped, look};
ghost use Rattle.binary_office.specs.SameLock.{same_bytes, same_lock};

// What is at an offset of a stream: a record, by its id and length; a fault, by its place; the end.
#[derive(Clone, Copy, Debug, PartialEq, Eq)]
pub enum Step {
    Record(u16, u16),
    Fault(usize),
    End,
}

// A record of the walk: the offset of its header, its id and its length.
#[derive(Clone, Copy, Debug, PartialEq, Eq)]
pub struct BiffRecord {
    pub at: usize,
    pub id: u16,
    pub len: u16,
}

// A whole walk: how many records there are, and the place of the fault at which it ends, if it doesn't end cleanly, at
// the end of the stream or at its padding.
#[derive(Clone, Copy, Debug, PartialEq, Eq)]
pub struct Walked {
    pub records: usize,
    pub fault: Option<usize>,
}

// The version pair of a lock.
#[derive(Clone, Copy, Debug, PartialEq, Eq)]
pub struct Version {
    pub major: u16,
    pub minor: u16,
}

// What a FILEPASS body says about the lock.
#[derive(Clone, Copy, Debug, PartialEq, Eq)]
pub struct Facts {
    pub xor: bool,
    pub version: Option<Version>,
    pub key_size: Option<u32>,
}

// Where the scan of a book stops: at a FILEPASS, by where its body starts and the length that its header states; at an
// id outside the seven; at what can't be read.
#[derive(Clone, Copy, Debug, PartialEq, Eq)]
pub enum Finding {
    Filepass(usize, u16),
    Other,
    Unreadable,
}

// Whether a book is locked.
#[derive(Clone, Copy, Debug, PartialEq, Eq)]
pub enum Verdict {
    Yes(Facts),
    No,
    Unknown,
}

// The number of two bytes, the lower first.
fn two_bytes(a: u8, b: u8) -> u16
    ensures { result ≡ a + b * 2 ^ 8 }
{
    (a as u16) + (b as u16) * 256
}

// The field of two bytes at an offset.
pub fn le16(s: &[u8], at: usize) -> Option<u16>
    ensures { result ≡ le16_at s.now at }
{
    if s.len() < 2 {
        return None;
    }
    if s.len() - 2 < at {
        return None;
    }
    Some(two_bytes(s[at], s[at + 1]))
}

// The field of four bytes at an offset.
pub fn le32(s: &[u8], at: usize) -> Option<u32>
    ensures { result ≡ le32_at s.now at }
{
    if s.len() < 4 {
        return None;
    }
    if s.len() - 4 < at {
        return None;
    }
    Some(word::from_le_bytes(s[at], s[at + 1], s[at + 2], s[at + 3]))
}

// What is at an offset with fewer than four bytes left: the end where all of them are zero, else a fault.
fn rest_at(s: &[u8], at: usize) -> Step
    requires { length s.now < at + 4 }
    ensures { result ≡ step_at s.now at }
{
    // Kept by index: with `s.iter().skip(at).all(..)` the survey of records without bodies takes 1.84 times the walk, with this 1.35.
    let mut i = at;
    while i < s.len() {
        if s[i] != 0 {
            return Step::Fault(at);
        }
        i += 1;
    }
    Step::End
}

// What is at an offset: a header cut short, or a body past the end, is a fault at the header's offset; padding is
// the end.
pub fn step_at(s: &[u8], at: usize) -> Step
    ensures { result ≡ step_at s.now at }
{
    let Some(id) = le16(s, at) else {
        return rest_at(s, at);
    };
    let Some(len) = le16(s, at + 2) else {
        return rest_at(s, at);
    };
    if at + 4 + (len as usize) <= s.len() {
        Step::Record(id, len)
    } else {
        Step::Fault(at)
    }
}

// Where the next header is, by what was found at an offset; where there is no record, the offset itself.
fn next_of(at: usize, found: Step) -> usize
    requires { next_of at found < 2 ^ 64 }
    ensures { result ≡ next_of at found }
{
    match found {
        Step::End => at,
        Step::Fault(_) => at,
        Step::Record(_, len) => at + 4 + (len as usize),
    }
}

// Whether a record's body is never enciphered: the source's BIFF_NEVER_ENCRYPTED.
pub fn never_encrypted(id: u16) -> bool
    ensures { result ≡ never_encrypted id }
{
    (id == 0x0809)
        | (id == 0x002F)
        | (id == 0x00E1)
        | (id == 0x0138)
        | (id == 0x0194)
        | (id == 0x0195)
        | (id == 0x0196)
}

// How many bytes of a body are clear.
pub fn clear_len(id: u16, len: u16) -> u16
    ensures { result ≡ clear_len id len }
{
    if never_encrypted(id) {
        return len;
    }
    if id == 0x0085 {
        return len.min(4);
    }
    0
}

// The whole walk: how many records there are, and how it ends.
pub fn walk(s: &[u8]) -> Walked
    ensures { result ≡ walked_of (walk s.now) }
{
    let mut records = 0;
    let mut fault = None;
    for record in biff_records(s, 0) {
        match record {
            Ok(_) => records += 1,
            Err(place) => fault = Some(place),
        }
    }
    Walked { records, fault }
}

// The version pair of a FILEPASS body.
#[tactic(auto, unfolding(crate::specs::Look::version_of))]
fn version_of(body: &[u8]) -> Option<Version>
    ensures { result ≡ version_of body.now }
{
    let major = le16(body, 2)?;
    let minor = le16(body, 4)?;
    Some(Version { major, minor })
}

// The key size in bits, as a header states it: 0 means 40, and above 4,096 there is none.
fn bits_of(stated: u32) -> Option<u32>
    ensures { result ≡ bits_of stated }
{
    if stated == 0 {
        return Some(limits::RC4_KEY_BITS_DEFAULT);
    }
    if stated <= 4096 { Some(stated) } else { None }
}

// The key size of a FILEPASS body, if its four bytes are there.
fn bits_in(body: &[u8]) -> Option<u32>
    ensures { result ≡ bits_in (le32_at body.now 30) }
{
    bits_of(le32(body, 30)?)
}

// The key size of a FILEPASS body with a version, of which not all have one.
fn size_of(body: &[u8], version: Option<Version>) -> Option<u32>
    ensures { result ≡ size_of body.now version }
{
    let version = version?;
    let sized = (2 <= version.major) & (version.major <= 4) & (version.minor == 2);
    if sized { bits_in(body) } else { None }
}

// What a FILEPASS body says about the lock.
fn facts_of(body: &[u8]) -> Facts
    ensures { result ≡ facts_of body.now }
{
    let Some(kind) = le16(body, 0) else {
        return Facts {
            xor: false,
            version: None,
            key_size: None,
        };
    };
    if kind == 0 {
        return Facts {
            xor: true,
            version: None,
            key_size: None,
        };
    }
    let version = version_of(body);
    let key_size = size_of(body, version);
    Facts {
        xor: false,
        version,
        key_size,
    }
}

// A FILEPASS body that starts at an offset, cut at the end of the book.
fn body_at(book: &[u8], start: usize, len: u16) -> &[u8]
    requires { start ≤ length book.now }
    ensures { result.now ≡ take len (drop start book.now) }
{
    let rest = &book[start..];
    &rest[..rest.len().min(len as usize)]
}

// The scan of the headers up to the first of three findings.
// Kept as a loop over offsets: it tells a FILEPASS whose body is cut, where the walker tells a fault (`judged` in Look.antt).
fn scan(book: &[u8]) -> Finding
    ensures { result ≡ scan_at book.now 0 }
{
    let mut at: usize = 0;
    let finding = loop {
        let Some(id) = le16(book, at) else {
            break Finding::Unreadable;
        };
        let Some(len) = le16(book, at + 2) else {
            break Finding::Unreadable;
        };
        if id == 0x002F {
            break Finding::Filepass(at + 4, len);
        }
        if !never_encrypted(id) {
            break Finding::Other;
        }
        let end = at + 4 + (len as usize);
        if book.len() < end {
            break Finding::Unreadable;
        }
        at = end;
    };
    finding
}

// What a look at a book finds, which must start with BOF.
fn find(book: &[u8]) -> Finding
    ensures { result ≡ found book.now }
{
    let Some(id) = le16(book, 0) else {
        return Finding::Unreadable;
    };
    if id == 0x0809 {
        scan(book)
    } else {
        Finding::Unreadable
    }
}

// The part of a stream that a look reads: its first bytes up to the cap.
fn capped(stream: &[u8]) -> &[u8]
    ensures { result.now ≡ capped stream.now }
{
    &stream[..stream.len().min(limits::BIFF_SCAN_CAP)]
}

// Whether a book is locked, by its first bytes up to the cap, and the facts of its lock.
pub fn look(stream: &[u8]) -> Verdict
    ensures { result ≡ look stream.now }
{
    let book = capped(stream);
    match find(book) {
        Finding::Unreadable => Verdict::Unknown,
        Finding::Other => Verdict::No,
        Finding::Filepass(start, len) => Verdict::Yes(facts_of(body_at(book, start, len))),
    }
}

// Whether two slices have the same bytes. Of slices of different lengths none is read, and of others none behind the
// first that differs: `==` of slices reads several bytes at a time.
fn same_bytes(a: &[u8], b: &[u8]) -> bool
    ensures { result ≡ same_bytes a.now b.now }
{
    if a.len() != b.len() {
        return false;
    }
    for (i, x) in a.iter().enumerate() {
        if *x != b[i] {
            return false;
        }
    }
    true
}

// Whether two books have the same lock: both are locked, and their FILEPASS bodies are the same up to the cap. The facts
// that Look reports are then the same.
pub fn same_lock(a: &[u8], b: &[u8]) -> bool
    ensures { result ≡ same_lock a.now b.now }
{
    let book = capped(a);
    let Finding::Filepass(start, len) = find(book) else {
        return false;
    };
    let other = capped(b);
    let Finding::Filepass(place, size) = find(other) else {
        return false;
    };
    same_bytes(body_at(book, start, len), body_at(other, place, size))
}

// The records of a stream, one after the other: the source's iterator, which keeps the borrowed stream, its position in
// it, and whether it has met a fault.
#[derive(Clone, Copy)]
pub struct BiffRecords<'a> {
    pub book: &'a [u8],
    pub pos: usize,
    pub failed: bool,
}

// What is at an offset, and where the next header is; where there is no record, the offset itself.
#[derive(Clone, Copy, Debug, PartialEq, Eq)]
pub struct Reached {
    pub found: Step,
    pub next: usize,
}

// The records of a stream from an offset on.
pub fn biff_records<'a>(book: &'a [u8], pos: usize) -> BiffRecords<'a>
    ensures { (result.book ≡ book.entry) × (result.pos ≡ pos) × (result.failed ≡ false) }
{
    BiffRecords {
        book,
        pos,
        failed: false,
    }
}

// A record, or the place of the fault at which the walk ends. At the end and behind a fault there is none.
impl<'a> Iterator for BiffRecords<'a> {
    ghost use Rattle.std.specs.Iterator.{at_most};
    ghost use Rattle.binary_office.specs.Records.{items_left, Gives};

    type Item = Result<BiffRecord, usize>;

    ghost next_gives = { Gives };

    ghost remaining = { λ r. at_most (items_left r) };

    #[inline(always)]
    fn next(&mut self) -> Option<Result<BiffRecord, usize>> {
        if self.failed {
            return None;
        }
        let at = self.pos;
        match step_at(self.book, at) {
            Step::Record(id, len) => {
                self.pos = at + 4 + (len as usize);
                Some(Ok(BiffRecord { at, id, len }))
            }
            Step::Fault(place) => {
                self.failed = true;
                Some(Err(place))
            }
            Step::End => None,
        }
    }
}

// The record at an offset.
pub fn record_at(book: &[u8], at: usize) -> Reached
    ensures { (result.found ≡ step_at book.now at) × (result.next ≡ next_at book.now at) }
{
    let found = step_at(book, at);
    Reached {
        found,
        next: next_of(at, found),
    }
}
