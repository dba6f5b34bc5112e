// The refusals: from the Rust source's file_params.rs, whose field and problem together name one, and from its
// error's own cases. Document 01's questions 1 to 27, in its order; 1 to 3 and 5 are of what the caller lends, which
// the source takes by type. 28 and 29 are of document 02's request T-01, 30 to 32 of T-07.
#![tactic(auto)]

ghost use Rattle.std.specs.Prelude.{◌≡◌};
ghost use Rattle.file_params.specs.Refusal.{number, first, second};

// Why a workbook stream is refused, with the details that go with the number.
#[derive(Clone, Copy, Debug, PartialEq, Eq)]
pub enum Refusal {
    PasswordTooLong,
    PasswordMalformed,
    ScratchShort,
    StreamTooLarge,
    OutputShort,
    BiffRecordUnreadable(usize),
    WorkbookBofMissing,
    NotEncrypted,
    FilepassOutOfOrder(u16),
    FilepassTruncated(usize, usize),
    FilepassEncryptionType(u16),
    EncryptionVersionInfoTruncated(usize),
    UnsupportedEncryptionVersion(u16, u16),
    Rc4Office97HeaderTruncated(usize),
    EncryptionInfoTruncated(usize),
    EncryptionHeaderSizeOutOfRange(u32),
    EncryptionHeaderSizeOutOfBounds(u32, usize),
    FlagExternal(u32),
    FlagAes(u32),
    FlagCryptoApiClear(u32),
    UnsupportedAlgId(u32),
    UnsupportedAlgIdHash(u32),
    EncryptionHeaderKeySize(u32),
    EncryptionVerifierTruncated(usize),
    VerifierSaltSize(u32),
    VerifierHashSize(u32),
    WrongPassword,
    BoundSheetStart(usize),
    BofEofUnpaired(usize),
    ZeroRecordMissing,
    ZeroRecordLength(u16),
    XorPasswordUnfit,
}

// The two details of a refusal.
#[derive(Clone, Copy, Debug, PartialEq, Eq)]
pub struct Details {
    pub first: u64,
    pub second: u64,
}

// The number of a refusal.
pub fn number(refusal: Refusal) -> u32
    ensures { result ≡ number refusal }
{
    match refusal {
        Refusal::PasswordTooLong => 1,
        Refusal::PasswordMalformed => 2,
        Refusal::ScratchShort => 3,
        Refusal::StreamTooLarge => 4,
        Refusal::OutputShort => 5,
        Refusal::BiffRecordUnreadable(_) => 6,
        Refusal::WorkbookBofMissing => 7,
        Refusal::NotEncrypted => 8,
        Refusal::FilepassOutOfOrder(_) => 9,
        Refusal::FilepassTruncated(_, _) => 10,
        Refusal::FilepassEncryptionType(_) => 11,
        Refusal::EncryptionVersionInfoTruncated(_) => 12,
        Refusal::UnsupportedEncryptionVersion(_, _) => 13,
        Refusal::Rc4Office97HeaderTruncated(_) => 14,
        Refusal::EncryptionInfoTruncated(_) => 15,
        Refusal::EncryptionHeaderSizeOutOfRange(_) => 16,
        Refusal::EncryptionHeaderSizeOutOfBounds(_, _) => 17,
        Refusal::FlagExternal(_) => 18,
        Refusal::FlagAes(_) => 19,
        Refusal::FlagCryptoApiClear(_) => 20,
        Refusal::UnsupportedAlgId(_) => 21,
        Refusal::UnsupportedAlgIdHash(_) => 22,
        Refusal::EncryptionHeaderKeySize(_) => 23,
        Refusal::EncryptionVerifierTruncated(_) => 24,
        Refusal::VerifierSaltSize(_) => 25,
        Refusal::VerifierHashSize(_) => 26,
        Refusal::WrongPassword => 27,
        Refusal::BoundSheetStart(_) => 28,
        Refusal::BofEofUnpaired(_) => 29,
        Refusal::ZeroRecordMissing => 30,
        Refusal::ZeroRecordLength(_) => 31,
        Refusal::XorPasswordUnfit => 32,
    }
}

// Two details as one value.
fn both(first: u64, second: u64) -> Details
    ensures { result ≡ record { first = first; second = second } }
{
    Details { first, second }
}

// The two details of a refusal, 0 where none is named.
pub fn details_of(refusal: Refusal) -> Details
    ensures { result ≡ record { first = first refusal; second = second refusal } }
{
    match refusal {
        Refusal::PasswordTooLong => both(0, 0),
        Refusal::PasswordMalformed => both(0, 0),
        Refusal::ScratchShort => both(0, 0),
        Refusal::StreamTooLarge => both(0, 0),
        Refusal::OutputShort => both(0, 0),
        Refusal::BiffRecordUnreadable(offset) => both(offset as u64, 0),
        Refusal::WorkbookBofMissing => both(0, 0),
        Refusal::NotEncrypted => both(0, 0),
        Refusal::FilepassOutOfOrder(id) => both(id as u64, 0),
        Refusal::FilepassTruncated(have, need) => both(have as u64, need as u64),
        Refusal::FilepassEncryptionType(got) => both(got as u64, 0),
        Refusal::EncryptionVersionInfoTruncated(have) => both(have as u64, 4),
        Refusal::UnsupportedEncryptionVersion(major, minor) => both(major as u64, minor as u64),
        Refusal::Rc4Office97HeaderTruncated(have) => both(have as u64, 52),
        Refusal::EncryptionInfoTruncated(have) => both(have as u64, 12),
        Refusal::EncryptionHeaderSizeOutOfRange(got) => both(got as u64, 0),
        Refusal::EncryptionHeaderSizeOutOfBounds(size, have) => both(size as u64, have as u64),
        Refusal::FlagExternal(flags) => both(flags as u64, 0),
        Refusal::FlagAes(flags) => both(flags as u64, 0),
        Refusal::FlagCryptoApiClear(flags) => both(flags as u64, 0),
        Refusal::UnsupportedAlgId(got) => both(got as u64, 0),
        Refusal::UnsupportedAlgIdHash(got) => both(got as u64, 0),
        Refusal::EncryptionHeaderKeySize(got) => both(got as u64, 0),
        Refusal::EncryptionVerifierTruncated(have) => both(have as u64, 60),
        Refusal::VerifierSaltSize(got) => both(got as u64, 0),
        Refusal::VerifierHashSize(got) => both(got as u64, 0),
        Refusal::WrongPassword => both(0, 0),
        Refusal::BoundSheetStart(offset) => both(offset as u64, 0),
        Refusal::BofEofUnpaired(offset) => both(offset as u64, 0),
        Refusal::ZeroRecordMissing => both(0, 0),
        Refusal::ZeroRecordLength(len) => both(len as u64, 0),
        Refusal::XorPasswordUnfit => both(0, 0),
    }
}
