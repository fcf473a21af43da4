// 42 over a loaded file (02, Req 07): a seven-bit number that is not shortest, at the number; and where the readers of a file stand.
#![tactic(auto)]

ghost use Rattle.std.specs.Prelude.{◌≡◌, [], ◌∷◌, ◌<◌};
ghost use Rattle.reading.specs.Seven.{seven_at};
ghost use Rattle.numbers.specs.Padded.{past};
ghost use Rattle.places.specs.Places.{count_places};
ghost use Rattle.number_rules.specs.Entries.{EntryIs};
ghost use Rattle.number_rules.specs.Numbers.{row_numbers, NumbersFound, RowFound, RowsFound, EntriesFound, ListsFound, PaddedNumber};

use names::kinds;
use numbers::seven::{seven_at, seven_padded};
use used_rows::UsedRows;

// A reader: the first byte of its name, and where it ends.
#[derive(Clone, Copy, Debug, PartialEq, Eq)]
pub struct Entry {
    pub name: usize,
    pub next: usize,
}

// The reader at a place of a file of at most 16,777,216 bytes.
pub fn entry_at(file: &[u8], at: usize) -> Entry
    ensures { EntryIs file.now at result }
{
    if 16777216 < file.len() {
        return Entry { name: at, next: at };
    }
    if 1099511627776 < at {
        return Entry { name: at, next: at };
    }
    match seven_at(file, at) {
        Err(_) => Entry {
            name: at,
            next: at + 4,
        },
        Ok(length) => Entry {
            name: length.next,
            next: length.next + length.value as usize + 4,
        },
    }
}

// Where the number at a place ends.
pub fn behind(file: &[u8], at: usize) -> usize
    ensures { result ≡ past (seven_at file.now at) at }
{
    match seven_at(file, at) {
        Err(_) => at,
        Ok(number) => number.next,
    }
}

// A number at a place that is not shortest.
fn number_at(file: &[u8], at: usize) -> Option<usize>
    ensures { NumbersFound file.now (at ∷ []) result }
{
    match seven_padded(file, at) {
        Ok(number) => {
            if number.padding == 0 {
                return None;
            }
            Some(at)
        }
        Err(_) => None,
    }
}

// The same for a text's count, which stands at a place; other kinds have none.
fn count_at(file: &[u8], kind: u32, at: usize) -> Option<usize>
    ensures { NumbersFound file.now (count_places file.now kind at) result }
{
    if kind != kinds::STRING {
        return None;
    }
    number_at(file, at)
}

// The first of a value's numbers that is not shortest.
fn value_numbers(file: &[u8], kind: u32, first: usize, detail: u32) -> Option<usize>
    ensures { NumbersFound file.now (row_numbers file.now kind first detail) result }
{
    if !places::numbered(kind, detail) {
        return count_at(file, kind, first);
    }
    number_at(file, first).or_else(|| count_at(file, kind, behind(file, first)))
}

// The first of a row's numbers that is not shortest.
fn row_numbers(file: &[u8], rows: UsedRows, row: u32) -> Option<usize>
    requires { row < rows.used }
    ensures { RowFound file.now rows.entry.table.grid rows.entry.table.words.now rows.entry.used row result }
{
    let kind = rows.word(row, table::KIND);
    let first = rows.word(row, table::FIRST);
    let detail = rows.word(row, table::DETAIL);
    value_numbers(file, kind, first as usize, detail)
}

// The first number of the rows that is not shortest.
fn rows_numbers(file: &[u8], rows: UsedRows) -> Option<usize>
    ensures { RowsFound file.now rows.entry.table.grid rows.entry.table.words.now rows.entry.used result }
{
    for row in 0..rows.used {
        if let Some(place) = row_numbers(file, rows, row) {
            return Some(place);
        }
    }
    None
}

// Where so many readers end, the first of which stands at a place; or the first length of a name that is not shortest.
fn entries_numbers(file: &[u8], readers: u32, from: usize) -> Result<usize, usize>
    ensures { EntriesFound file.now readers from result }
{
    let mut at = from;
    for _ in 0..readers {
        if let Some(place) = number_at(file, at) {
            return Err(place);
        }
        at = entry_at(file, at).next;
    }
    Ok(at)
}

// The first number of the reader list that is not shortest, or of the shared count.
fn lists_numbers(file: &[u8], readers: u32) -> Option<usize>
    ensures { ListsFound file.now readers result }
{
    match number_at(file, 10) {
        Some(place) => Some(place),
        None => match entries_numbers(file, readers, behind(file, 10)) {
            Err(place) => Some(place),
            Ok(end) => number_at(file, end),
        },
    }
}

// The first number of a loaded file that is not shortest.
pub fn padded_number(file: &[u8], rows: UsedRows, readers: u32) -> Option<usize>
    ensures { PaddedNumber file.now rows.entry.table.grid rows.entry.table.words.now rows.entry.used readers result }
{
    // Kept: with `or_else` the proof did not close, since what is inferred for a closure over `rows` says nothing of its result.
    match lists_numbers(file, readers) {
        Some(place) => Some(place),
        None => rows_numbers(file, rows),
    }
}
