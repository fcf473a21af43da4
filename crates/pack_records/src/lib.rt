// A file record of a pack: its mark where the form has one, its path, its size and its data.
#![tactic(auto)]

ghost use Rattle.std.specs.Prelude.{◌≡◌, ◌+◌, ◌≤◌, length};
ghost use Rattle.pack_layout.specs.Pack.{mark_of};
ghost use Rattle.pack_reading.specs.Pack.{mark_at, path_at, content_at, record_at};
ghost use Rattle.pack_records.specs.Records.{started, pathed, contented, recorded};

use answers::{Refusal, Rule};
use numbers::little::{has_bytes, little};
use numbers::seven::seven_at;

// Where a record's path starts: behind the mark, where the form has one.
fn start_at(pack: &[u8], at: usize, marked: bool) -> Result<usize, Refusal>
    ensures { result ≡ started (mark_at (mark_of marked) pack.now at) }
{
    if !marked {
        return Ok(at);
    }
    if !has_bytes(pack, at, 2) {
        return Err(Rule::PastEnd.at(at));
    }
    if pack[at] != 0xFD || pack[at + 1] != 0xFE {
        return Err(Rule::MissingMark.at(at));
    }
    Ok(at + 2)
}

// Where a path's bytes start, and how many they are.
#[derive(Clone, Copy, Debug, PartialEq, Eq)]
pub struct Path {
    pub start: usize,
    pub size: usize,
}

// The path whose length stands at a place.
fn path_at(pack: &[u8], at: usize) -> Result<Path, Refusal>
    ensures { result ≡ pathed at (path_at pack.now at) }
{
    let length = seven_at(pack, at)?;
    if length.value == 0 || 260 < length.value {
        return Err(Rule::TooLarge.at(at));
    }
    let start = length.next;
    let size = length.value as usize;
    if !has_bytes(pack, start, size) {
        return Err(Rule::PastEnd.at(at));
    }
    let end = start + size;
    if !text::is_short_utf8(&pack[start..end]) {
        return Err(Rule::BadValue.at(at));
    }
    Ok(Path { start, size })
}

// An entry of the table: a path of `size` bytes from `start` on, and data of `count` bytes from `first` on.
#[derive(Clone, Copy, Debug, PartialEq, Eq)]
pub struct Record {
    pub start: usize,
    pub size: usize,
    pub first: usize,
    pub count: usize,
}

// The size and the data of the file whose path has `size` bytes from `start` on.
fn content_at(pack: &[u8], path: Path) -> Result<Record, Refusal>
    requires { path.start + path.size ≤ length pack.now }
    ensures { result ≡ contented path.start path.size (content_at pack.now (path.start + path.size)) }
{
    let behind = path.start + path.size;
    let size = little::<u32>(pack, behind)?;
    let first = size.next;
    let count = size.value as usize;
    if !has_bytes(pack, first, count) {
        return Err(Rule::PastEnd.at(behind));
    }
    Ok(Record {
        start: path.start,
        size: path.size,
        first,
        count,
    })
}

// The file record at a place.
#[inline(always)]
pub fn record_at(pack: &[u8], at: usize, marked: bool) -> Result<Record, Refusal>
    ensures { result ≡ recorded (mark_of marked) at (record_at (mark_of marked) pack.now at) }
{
    let start = start_at(pack, at, marked)?;
    let path = path_at(pack, start)?;
    content_at(pack, path)
}
