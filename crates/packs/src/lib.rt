// Reading a pack of files into a lent table (Req 01).
#![tactic(auto)]

ghost use Rattle.std.specs.Prelude.{◌≡◌, true, [], ◌∷◌, ◌++◌, ◌+◌, ◌-◌, ◌≤◌, length, take, IfSome};
ghost use Rattle.text.specs.Passed.{Ascii};
ghost use Rattle.pack_layout.specs.Table.{entry, flat};
ghost use Rattle.pack_layout.specs.Pack.{mark_of};
ghost use Rattle.pack_reading.specs.Pack.{record_at, pack_of, table_for};
ghost use Rattle.pack_records.specs.Records.{recorded};
ghost use Rattle.packs.specs.Files.{FilesRead, PackRead, answer_of};
ghost use Rattle.packs.specs.Short.{Short, ShortPath};

use answers::{Refusal, Rule};
use numbers::little::{has_bytes, little};
use pack_records::{Record, record_at};

// Puts an entry into the table.
fn put_entry(table: &mut [u64], at: usize, file: Record)
    requires { at + 4 ≤ length table.old }
    ensures { take (at + 4) table.new ≡ take at table.old ++ flat (entry file.start file.size file.first file.count ∷ []) }
{
    table[at] = file.start as u64;
    table[at + 1] = file.size as u64;
    table[at + 2] = file.first as u64;
    table[at + 3] = file.count as u64;
}

// Whether the 16 bytes from i on and those from k on are ASCII.
fn ascii_blocks(s: &[u8], i: usize, k: usize) -> bool
    requires { (i + 16 ≤ length s.now) × (k + 16 ≤ length s.now) }
    ensures { result ≡ true → Ascii s.now i 16 × Ascii s.now k 16 }
{
    let mut other = false;
    for j in 0..16 {
        other |= (0x80 <= s[i + j]) | (0x80 <= s[k + j]);
    }
    !other
}

// Whether 16 to 32 bytes stand from `start` to `behind`, and all are ASCII.
fn is_ascii(pack: &[u8], start: usize, behind: usize) -> bool
    requires { (start ≤ behind) × (behind ≤ length pack.now) }
    ensures { result ≡ true → (16 ≤ behind - start) × (behind - start ≤ 32) × Ascii pack.now start (behind - start) }
{
    let size = behind - start;
    if size < 16 || 32 < size {
        return false;
    }
    ascii_blocks(pack, start, behind - 16)
}

// Whether the bytes from `start` to `behind` are a path of up to 127 bytes: 16 to 32 ASCII bytes at once, and others as any short text.
fn is_path(pack: &[u8], start: usize, behind: usize) -> bool
    requires { (start ≤ behind) × (behind ≤ length pack.now) }
    ensures { result ≡ true → ShortPath pack.now start behind }
{
    if is_ascii(pack, start, behind) {
        return true;
    }
    let size = behind - start;
    if size == 0 || 127 < size {
        return false;
    }
    text::is_short_utf8(&pack[start..behind])
}

// The record at `at`, where it has no mark, its path is short, and nothing is wrong with it.
fn short_record(pack: &[u8], at: usize, marked: bool) -> Option<Record>
    ensures { IfSome result (λ r. Short marked pack.now at r) }
{
    if marked || pack.len() <= at {
        return None;
    }
    let size = pack[at] as usize;
    if pack.len() - at <= size {
        return None;
    }
    let start = at + 1;
    let behind = start + size;
    if !is_path(pack, start, behind) {
        return None;
    }
    let length = little::<u32>(pack, behind).ok()?;
    let first = length.next;
    let count = length.value as usize;
    if !has_bytes(pack, first, count) {
        return None;
    }
    Some(Record {
        start,
        size,
        first,
        count,
    })
}

// The record at a place: a short one at once, and others as any record.
fn record(pack: &[u8], at: usize, marked: bool) -> Result<Record, Refusal>
    ensures { result ≡ recorded (mark_of marked) at (record_at (mark_of marked) pack.now at) }
{
    match short_record(pack, at, marked) {
        Some(file) => Ok(file),
        None => record_at(pack, at, marked),
    }
}

// So many files, the first of which stands behind the file count, and the end of the pack.
fn read_files(pack: &[u8], table: &mut [u64], marked: bool, n: usize) -> Result<usize, Refusal>
    ensures { FilesRead marked pack.now n (length table.old) table.new result }
{
    let room = table.len() / 4;
    let mut at = 4;
    for i in 0..n {
        if room <= i {
            return Err(Rule::NoTableRoom.at(at));
        }
        let file = record(pack, at, marked)?;
        put_entry(table, 4 * i, file);
        at = file.first + file.count;
    }
    if at != pack.len() {
        return Err(Rule::LeftOver.at(at));
    }
    Ok(n)
}

// The file count, and the files.
fn read_counted(pack: &[u8], table: &mut [u64], marked: bool) -> Result<usize, Refusal>
    ensures { PackRead marked pack.now (length table.old) table.new result }
{
    let count = little::<u32>(pack, 0)?;
    if 4096 < count.value {
        return Err(Rule::TooLarge.at(0));
    }
    read_files(pack, table, marked, count.value as usize)
}

// Kept: the table is words, four for each file, as C lends it; `marked` is one of two forms, which an enum would tell no plainer.
// Reads a pack into the table, and answers the number of files: four words for each file, then zeros; only zeros after a refusal.
pub fn read(pack: &[u8], table: &mut [u64], marked: bool) -> Result<usize, Refusal>
    ensures value { result ≡ answer_of (pack_of (mark_of marked) pack.now (length table.old)) }
    ensures table_after { table.new ≡ table_for (mark_of marked) pack.now (length table.old) }
{
    let read = read_counted(pack, table, marked);
    let files = read.unwrap_or(0);
    fill::clear(table, 4 * files);
    read
}
