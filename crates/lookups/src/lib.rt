// Looking up the values of rows (01, "Looking up").
#![tactic(auto)]

ghost use Rattle.std.specs.Prelude.{◌≡◌, ◌+◌, ◌-◌, ◌≤◌, ◌<◌, ◌^◌, length};
ghost use Rattle.answers.specs.Told.{told};
ghost use Rattle.lookups.specs.Parts.{part_of, Lies, spanned};
ghost use Rattle.lookups.specs.Texts.{count_at, text_in, text_of};
ghost use Rattle.lookups.specs.Signs.{twos, Within, signed_from, last_bytes, signed_in, signed_of};
ghost use Rattle.lookups.specs.Times.{time_of};

use answers::{Number, Read, Refusal, Rule};
use ids::RowNumber;
use names::kinds;
use numbers::little::{Width, little};
use numbers::seven::seven_at;
use table::Table;

// A part of the file: its first byte, and its length.
#[derive(Clone, Copy, Debug, PartialEq, Eq)]
pub struct Span {
    pub first: usize,
    pub length: usize,
}

// The part of the file that a row names; a refusal's place is the row number.
pub fn part(file: &[u8], table: Table, row: RowNumber) -> Result<Span, Refusal>
    ensures { result ≡ part_of table.entry.grid file.now table.entry.words.now row.0 }
{
    let number = row.0 as usize;
    if table.grid.room <= row.0 {
        return Err(Rule::NoSuchRow.at(number));
    }
    let first = table.word(row, table::FIRST) as usize;
    let length = table.word(row, table::LENGTH) as usize;
    if length == 0 {
        return Err(Rule::NoSuchRow.at(number));
    }
    let end = first + length;
    if file.len() < end {
        return Err(Rule::NoSuchRow.at(number));
    }
    Ok(Span { first, length })
}

// The bytes of a span, none where it is a refusal.
fn bytes_of(file: &[u8], span: Result<Span, Refusal>) -> &[u8]
    requires { Lies (length file.now) span }
    ensures { result.now ≡ spanned file.now span }
{
    match span {
        Err(_) => &file[0..0],
        Ok(found) => {
            let end = found.first + found.length;
            &file[found.first..end]
        }
    }
}

// The bytes of the part that a row names, none on a refusal.
pub fn part_bytes<'a>(file: &'a [u8], table: Table, row: RowNumber) -> &'a [u8]
    ensures { result.now ≡ spanned file.now (part_of table.entry.grid file.now table.entry.words.now row.0) }
{
    bytes_of(file, part(file, table, row))
}

// The count of a text in its part, behind the type id.
fn count_at(bytes: &[u8]) -> Number
    ensures { told result ≡ count_at bytes.now }
{
    let id = seven_at(bytes, 0)?;
    seven_at(bytes, id.next)
}

// The text in a part whose first byte is `first`, and whose row has a kind and a number.
fn text_in(bytes: &[u8], first: usize, kind: u32, row: u32) -> Result<Span, Refusal>
    requires { first + length bytes.now < 2 ^ 64 }
    ensures { result ≡ text_in bytes.now first kind row }
{
    let number = row as usize;
    if kind != kinds::STRING {
        return Err(Rule::OtherKind.at(number));
    }
    let Ok(Read { value, next: start }) = count_at(bytes) else {
        return Err(Rule::OtherKind.at(number));
    };
    let n = value as usize;
    let left = bytes.len() - start;
    if n != left {
        return Err(Rule::OtherKind.at(number));
    }
    Ok(Span {
        first: first + start,
        length: n,
    })
}

// The bytes of a text behind its type id and count. In its callers no answer goes through memory.
#[inline(always)]
pub fn text(file: &[u8], table: Table, row: RowNumber) -> Result<Span, Refusal>
    ensures { result ≡ text_of table.entry.grid file.now table.entry.words.now row.0 }
{
    let Span { first, length } = part(file, table, row)?;
    let end = first + length;
    let kind = table.word(row, table::KIND);
    text_in(&file[first..end], first, kind, row.0)
}

// The bytes of a text, none on a refusal.
pub fn text_bytes<'a>(file: &'a [u8], table: Table, row: RowNumber) -> &'a [u8]
    ensures { result.now ≡ spanned file.now (text_of table.entry.grid file.now table.entry.words.now row.0) }
{
    bytes_of(file, text(file, table, row))
}

// A number in two's complement, where `top` is the largest number of as many bytes.
fn twos_complement(value: u64, top: u64) -> i64
    requires { value ≤ top }
    ensures { result ≡ twos top value }
{
    if value <= top / 2 {
        return value as i64;
    }
    let back = top - value;
    -1 - back as i64
}

// The signed number that was read, or 24.
fn signed_from(read: Number, top: u64, row: u32) -> Result<i64, Refusal>
    requires { Within top (told read) }
    ensures { result ≡ signed_from top row (told read) }
{
    match read {
        Err(_) => Err(Rule::OtherKind.at(row as usize)),
        Ok(number) => Ok(twos_complement(number.value, top)),
    }
}

// Where the last `size` bytes start, or 0 where there are fewer.
fn back(bytes: &[u8], size: usize) -> usize
    ensures { result ≡ length bytes.now - size }
{
    bytes.len().saturating_sub(size)
}

// The signed number in the last bytes of a part, as many as the width has, where `top` is the largest number of as many bytes.
fn last_bytes<W: Width>(bytes: &[u8], top: u64, row: u32) -> Result<i64, Refusal>
    requires { top ≡ 256 ^ W.BYTES - 1 }
    ensures { result ≡ last_bytes bytes.now W.BYTES row }
{
    let read = little::<W>(bytes, back(bytes, W::BYTES));
    signed_from(read, top, row)
}

// The signed number in the last bytes of a part, whose row has a kind and a number.
fn signed_in(bytes: &[u8], kind: u32, row: u32) -> Result<i64, Refusal>
    ensures { result ≡ signed_in bytes.now kind row }
{
    match kind {
        kinds::SBYTE => last_bytes::<u8>(bytes, 0xFF, row),
        kinds::INT_16 => last_bytes::<u16>(bytes, 0xFFFF, row),
        kinds::INT_32 => last_bytes::<u32>(bytes, 0xFFFF_FFFF, row),
        kinds::INT_64 | kinds::TIME_SPAN => last_bytes::<u64>(bytes, 0xFFFF_FFFF_FFFF_FFFF, row),
        _ => Err(Rule::OtherKind.at(row as usize)),
    }
}

// The signed number in the last bytes of a row's part.
pub fn signed(file: &[u8], table: Table, row: RowNumber) -> Result<i64, Refusal>
    ensures { result ≡ signed_of table.entry.grid file.now table.entry.words.now row.0 }
{
    let Span { first, length } = part(file, table, row)?;
    let end = first + length;
    let kind = table.word(row, table::KIND);
    signed_in(&file[first..end], kind, row.0)
}

// The time in a row's part, whose kind is TimeSpan.
pub fn time(file: &[u8], table: Table, row: RowNumber) -> Result<ticks::Time, Refusal>
    ensures { result ≡ time_of table.entry.grid file.now table.entry.words.now row.0 }
{
    let count = signed(file, table, row)?;
    if table.word(row, table::KIND) != kinds::TIME_SPAN {
        return Err(Rule::OtherKind.at(row.0 as usize));
    }
    Ok(ticks::split_ticks(count))
}
