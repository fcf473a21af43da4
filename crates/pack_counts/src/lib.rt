// Counting a file of a pack into the words of a report (02, Req 14).
#![tactic(auto)]

ghost use Rattle.std.specs.Prelude.{◌≡◌, ◌-◌};
ghost use Rattle.reading.specs.Seven.{seven_at};
ghost use Rattle.numbers.specs.Padded.{number_of, past};
ghost use Rattle.places.specs.Places.{raw_place};
ghost use Rattle.pack_figures.specs.Figures.{of_other, of_refusal};
ghost use Rattle.pack_figures.specs.Digest.{mark_of, marks, of_mark, of_marks};
ghost use Rattle.pack_figures.specs.Counted.{by_rows};
ghost use Rattle.pack_counts.specs.Raise.{up_to, raised, only, counted};
ghost use Rattle.pack_counts.specs.Count.{row_at, rows_at};

use ids::RowNumber;
use names::kinds;
use numbers::seven::seven_at;
use table::Table;

// The words of a report: the files, those accepted, the bytes of texts and of image levels,
// and the first words of the refusals by their numbers and of the rows by their kinds.
const FILES: usize = 0;

const ACCEPTED: usize = 1;

const TEXT_BYTES: usize = 2;

const IMAGE_BYTES: usize = 3;

const REFUSALS: usize = 4;

const ROWS: usize = 68;

// A word raised by a number, to the largest that it can hold at most.
fn up_to(word: u64, by: u64) -> u64
    ensures { result ≡ up_to word by }
{
    word.saturating_add(by)
}

// Raises a word by a number; past the last word nothing is raised.
fn raise(figures: &mut [u64], at: usize, by: u64)
    ensures { figures.new ≡ raised 0 (only at by) figures.old }
{
    if at < figures.len() {
        figures[at] = up_to(figures[at], by);
    }
}

// The seven-bit number at a place, 0 where there is none.
fn number_at(file: &[u8], at: usize) -> u64
    ensures { result ≡ number_of (seven_at file.now at) }
{
    match seven_at(file, at) {
        Err(_) => 0,
        Ok(number) => number.value,
    }
}

// Where the number at a place ends.
fn behind(file: &[u8], at: usize) -> usize
    ensures { result ≡ past (seven_at file.now at) at }
{
    match seven_at(file, at) {
        Err(_) => at,
        Ok(number) => number.next,
    }
}

// How many bytes a text has that starts at a place: its count stands behind its type id, if it has one.
fn text_bytes(file: &[u8], first: usize, id: u32) -> u64
    ensures { result ≡ number_of (seven_at file.now (raw_place file.now 13 first id)) }
{
    if id == 0 {
        return number_at(file, first);
    }
    number_at(file, behind(file, first))
}

// How many bytes an image level has whose row is so long: four bytes of size stand before them.
fn level_bytes(length: u32) -> u64
    ensures { result ≡ length - 4 }
{
    length.saturating_sub(4) as u64
}

// Counts a row: its kind, and the bytes of a text or of an image level.
fn count_row(file: &[u8], table: Table, row: u32, figures: &mut [u64])
    ensures { figures.new ≡ counted (of_mark (mark_of file.now (row_at table.entry.grid table.entry.words.now row))) figures.old }
{
    let row = RowNumber(row);
    let kind = table.word(row, table::KIND);
    raise(figures, ROWS + kind as usize, 1);
    if kind == kinds::STRING {
        let first = table.word(row, table::FIRST);
        let id = table.word(row, table::DETAIL);
        raise(figures, TEXT_BYTES, text_bytes(file, first as usize, id));
    } else if kind == kinds::IMAGE_LEVEL {
        let length = table.word(row, table::LENGTH);
        raise(figures, IMAGE_BYTES, level_bytes(length));
    }
}

// Counts the rows of a table one after the other.
fn count_rows(file: &[u8], table: Table, used: u32, figures: &mut [u64])
    ensures { figures.new
        ≡ counted (of_marks (marks file.now (rows_at table.entry.grid table.entry.words.now 0 used))) figures.old }
{
    for row in 0..used {
        count_row(file, table, row, figures);
    }
}

// Counts an XNB file that was loaded into a table, by its rows.
pub fn count_loaded(file: &[u8], table: Table, used: u32, figures: &mut [u64])
    ensures { figures.new ≡ counted (by_rows file.now (rows_at table.entry.grid table.entry.words.now 0 used)) figures.old }
{
    raise(figures, FILES, 1);
    raise(figures, ACCEPTED, 1);
    count_rows(file, table, used, figures);
}

// Counts an XNB file that is refused with a number; a report has words for numbers below 64.
pub fn count_refused(number: u32, figures: &mut [u64])
    ensures { figures.new ≡ counted (of_refusal number) figures.old }
{
    raise(figures, FILES, 1);
    if number < 64 {
        raise(figures, REFUSALS + number as usize, 1);
    }
}

// Counts a file that is no XNB file.
pub fn count_other(figures: &mut [u64])
    ensures { figures.new ≡ counted of_other figures.old }
{
    raise(figures, FILES, 1);
}
