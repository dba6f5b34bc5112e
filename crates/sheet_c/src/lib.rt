// The C exports of libsheet.a, documented in include/sheet.h: each calls the function of the crate sheet that has its name, and has its clauses.
#![tactic(auto)]

ghost use Rattle.std.specs.Prelude.{◌≡◌, replicate};
ghost use Rattle.binary_office.specs.Walk.{step_at};
ghost use Rattle.binary_office.specs.Look.{look};
ghost use Rattle.binary_office.specs.SameLock.{same_lock};
ghost use Rattle.directory.specs.Directory.{directory};
ghost use Rattle.forecast.specs.Forecast.{forecast};
ghost use Rattle.sheet.specs.Facts.{look_number, look_facts, record_number, record_facts, number_of, directory_facts, forecast_facts, OpensInC, SealsInC};
ghost use Rattle.sealing.specs.declared.Choice.TheVariants as choice;

// Look.
#[unsafe(no_mangle)]
pub extern "C" fn sheet_look(stream: &[u8], told: &mut [u64; 8]) -> u32
    ensures { (result ≡ look_number (look stream.now)) × (told.new ≡ look_facts (look stream.now)) }
{
    sheet::sheet_look(stream, told)
}

// Same lock.
#[unsafe(no_mangle)]
pub extern "C" fn sheet_same_lock(a: &[u8], b: &[u8]) -> bool
    ensures { result ≡ same_lock a.now b.now }
{
    sheet::sheet_same_lock(a, b)
}

// A step of the walk: what is at an offset.
#[unsafe(no_mangle)]
pub extern "C" fn sheet_record(stream: &[u8], at: usize, told: &mut [u64; 8]) -> u32
    ensures { (result ≡ record_number (step_at stream.now at)) × (told.new ≡ record_facts (step_at stream.now at)) }
{
    sheet::sheet_record(stream, at, told)
}

// The directory of sheets.
#[unsafe(no_mangle)]
pub extern "C" fn sheet_directory(stream: &[u8], place: usize, told: &mut [u64; 8]) -> u32
    ensures { (result ≡ number_of (directory stream.now place)) × (told.new ≡ directory_facts (directory stream.now place)) }
{
    sheet::sheet_directory(stream, place, told)
}

// What opening will take.
#[unsafe(no_mangle)]
pub extern "C" fn sheet_forecast(stream: &[u8], told: &mut [u64; 8]) -> u32
    ensures { (result ≡ number_of (forecast stream.now)) × (told.new ≡ forecast_facts (forecast stream.now)) }
{
    sheet::sheet_forecast(stream, told)
}

// Open.
#[unsafe(no_mangle)]
pub extern "C" fn sheet_open(
    stream: &[u8],
    password: &[u8],
    scratch: &mut [u8],
    output: &mut [u8],
    told: &mut [u64; 8],
) -> u32
    ensures { OpensInC stream.now password.now scratch.old output.old result scratch.new output.new told.new }
{
    sheet::sheet_open(stream, password, scratch, output, told)
}

// Sealing under XOR, which has neither salt nor verifier.
#[unsafe(no_mangle)]
pub extern "C" fn sheet_seal_xor(
    plain: &[u8],
    password: &[u8],
    scratch: &mut [u8],
    output: &mut [u8],
    told: &mut [u64; 8],
) -> u32
    ensures { SealsInC plain.now password.now choice.Xor (replicate 16 0) (replicate 16 0) scratch.old output.old result scratch.new output.new told.new }
{
    sheet::sheet_seal_xor(plain, password, scratch, output, told)
}

// Sealing under 1.1.
#[unsafe(no_mangle)]
pub extern "C" fn sheet_seal_office97(
    plain: &[u8],
    password: &[u8],
    salt: &[u8; 16],
    verifier: &[u8; 16],
    scratch: &mut [u8],
    output: &mut [u8],
    told: &mut [u64; 8],
) -> u32
    ensures { SealsInC plain.now password.now choice.Office97 salt.now verifier.now scratch.old output.old result scratch.new output.new told.new }
{
    sheet::sheet_seal_office97(plain, password, salt, verifier, scratch, output, told)
}

// Sealing under CryptoAPI.
#[unsafe(no_mangle)]
pub extern "C" fn sheet_seal_cryptoapi(
    plain: &[u8],
    password: &[u8],
    salt: &[u8; 16],
    verifier: &[u8; 16],
    major: u16,
    key_size: u32,
    scratch: &mut [u8],
    output: &mut [u8],
    told: &mut [u64; 8],
) -> u32
    ensures { SealsInC plain.now password.now (choice.CryptoApi major key_size) salt.now verifier.now scratch.old output.old result scratch.new output.new told.new }
{
    sheet::sheet_seal_cryptoapi(
        plain, password, salt, verifier, major, key_size, scratch, output, told,
    )
}
