// The ten bytes at the start of a file (01, "File header").
#![tactic(auto)]

ghost use Rattle.std.specs.Prelude.{◌≡◌, ◌≤◌, length, take, drop};
ghost use Rattle.layout.specs.Number.{value_of};
ghost use Rattle.reading.specs.File.{is_platform};
ghost use Rattle.header.specs.Header.{header_of};

use answers::{Number, Read, Rule};

// Whether a byte is `w`, `m` or `x`.
fn is_platform(b: u8) -> bool
    ensures { result ≡ is_platform b }
{
    b"wmx".contains(&b)
}

// The length that the file's bytes 6 to 9 say.
fn said_length(file: &[u8]) -> u64
    requires { 10 ≤ length file.now }
    ensures { result ≡ value_of (take 4 (drop 6 file.now)) }
{
    match numbers::little::little::<u32>(file, 6) {
        Ok(length) => length.value,
        Err(_) => 0,
    }
}

// The header: 0 and the place behind it, or a refusal's number and place.
pub fn header(file: &[u8]) -> Number
    ensures { result ≡ header_of file.now }
{
    if 16777216 < file.len() {
        return Err(Rule::TooLarge.at(0));
    }
    if file.len() < 10 {
        return Err(Rule::PastEnd.at(0));
    }
    if !file.starts_with(b"XNB") {
        return Err(Rule::NotXnb.at(0));
    }
    if !is_platform(file[3]) {
        return Err(Rule::Platform.at(3));
    }
    if file[4] != 5 {
        return Err(Rule::FormatVersion.at(4));
    }
    if 0x80 <= file[5] {
        return Err(Rule::Compressed.at(5));
    }
    if 1 < file[5] {
        return Err(Rule::Flags.at(5));
    }
    if said_length(file) != file.len() as u64 {
        return Err(Rule::FileLength.at(6));
    }
    Ok(Read { value: 0, next: 10 })
}
