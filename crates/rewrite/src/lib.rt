// Rewriting a file with each seven-bit number in its shortest form (01, "Seven-bit numbers").
#![tactic(auto)]

ghost use Rattle.std.specs.Prelude.{◌≡◌, ◌+◌, ◌≤◌, ◌<◌, ◌^◌, leb, length};
ghost use Rattle.reading.specs.Seven.{seven_at};
ghost use Rattle.places.specs.Places.{count_places};
ghost use Rattle.rewrite.specs.Table.{places_in, table_places};
ghost use Rattle.rewrite.specs.Measured.{measure_of};
ghost use Rattle.rewrite.specs.Contract.{answer_of, Ready, Fits};
ghost use Rattle.rewrite.specs.Writes.{Writes, WritesNumber, PassesNumber, WritesLast, WritesEntries, WritesLists, WritesRest, WritesFile};
ghost use Rattle.rewrite.specs.Whole.{rewritten, output_left, words_left};

use answers::{Refusal, Rule};
use ids::RowNumber;
use names::kinds;
use numbers::seven::Padded;
use table::Table;

// How far the file is taken, and how far the output is written.
#[derive(Clone, Copy, Debug, PartialEq, Eq)]
struct Cursor {
    from: usize,
    to: usize,
}

impl Cursor {
    // Whether so many bytes are saved so far.
    fn has_saved(self, padding: usize) -> bool
        ensures { result ≡ leb (self.to + padding) self.from }
    {
        self.to <= self.from && padding <= self.from - self.to
    }
}

// The number at a place; where there is none, 0 that ends where it starts.
fn measure(file: &[u8], at: usize) -> Padded
    ensures value { result ≡ measure_of (seven_at file.now at) at }
    ensures small { result.value < 2 ^ 32 }
{
    match numbers::seven::seven_padded(file, at) {
        Ok(number) => number,
        Err(_) => Padded {
            value: 0,
            next: at,
            padding: 0,
        },
    }
}

// Copies the file up to the number at a place, and writes the number in its shortest form.
fn write_number(file: &[u8], out: &mut [u8], c: Cursor, at: usize, number: Padded) -> Cursor
    requires { number.value < 2 ^ 32 }
    ensures { WritesNumber file.now out.old out.new c at number.value number.next result }
{
    if at < c.from {
        return c;
    }
    let gap = at - c.from;
    if !fill::copy(out, c.to, file, c.from, gap) {
        return c;
    }
    match numbers::shortest::write_shortest(out, c.to + gap, number.value as u32) {
        Some(to) => Cursor {
            from: number.next,
            to,
        },
        None => c,
    }
}

// The number at a place, as it was measured: written anew if it is padded, else left to be copied with what stands around it.
fn pass(file: &[u8], out: &mut [u8], c: Cursor, at: usize, number: Padded) -> Cursor
    requires { number.value < 2 ^ 32 }
    ensures { PassesNumber file.now out.old out.new c at number result }
{
    if number.padding == 0 {
        return c;
    }
    write_number(file, out, c, at, number)
}

// The same for a text's count, which stands at a place; other kinds have none.
fn pass_count(file: &[u8], out: &mut [u8], c: Cursor, kind: u32, at: usize) -> Cursor
    ensures { Writes file.now out.old out.new c (count_places file.now kind at) result }
{
    if kind == kinds::STRING {
        return pass(file, out, c, at, measure(file, at));
    }
    c
}

// The same for a row's numbers.
fn pass_row(file: &[u8], words: &[u32], out: &mut [u8], c: Cursor, row: u32) -> Cursor
    ensures { Writes file.now out.old out.new c (places_in file.now words.now row) result }
{
    let table = Table::by_rows(words);
    let kind = table.word(RowNumber(row), table::KIND);
    let first = table.word(RowNumber(row), table::FIRST) as usize;
    let detail = table.word(RowNumber(row), table::DETAIL);
    if places::numbered(kind, detail) {
        let id = measure(file, first);
        let behind = pass(file, out, c, first, id);
        return pass_count(file, out, behind, kind, id.next);
    }
    pass_count(file, out, c, kind, first)
}

// The same for the numbers of the first rows, until as many bytes are saved as the file's padding has.
fn pass_rows(
    file: &[u8],
    words: &[u32],
    out: &mut [u8],
    c: Cursor,
    rows: u32,
    padding: usize,
) -> Cursor
    ensures { WritesLast file.now out.old out.new
        c (table_places file.now words.now rows 0) padding result }
{
    let mut done = c;
    for row in 0..rows {
        if done.has_saved(padding) {
            return done;
        }
        done = pass_row(file, words, out, done, row);
    }
    done
}

// The same for the lengths of so many names, the first of which stands at a place; and where the readers end.
fn pass_entries(file: &[u8], out: &mut [u8], c: Cursor, readers: u32, at: usize) -> (Cursor, usize)
    requires { (length file.now ≤ 16777216) × (at ≤ 2 ^ 33) }
    ensures { WritesEntries file.now out.old out.new c readers at result.0 result.1 }
{
    let mut done = c;
    let mut place = at;
    for i in 0..readers {
        let number = measure(file, place);
        done = pass(file, out, done, place, number);
        place = number.next + number.value as usize + 4;
    }
    (done, place)
}

// The same for the reader count, the lengths of so many names and the shared count.
fn pass_lists(file: &[u8], out: &mut [u8], readers: u32) -> Cursor
    requires { length file.now ≤ 16777216 }
    ensures { WritesLists file.now out.old out.new readers result }
{
    let count = measure(file, 10);
    let start = pass(file, out, Cursor { from: 0, to: 0 }, 10, count);
    let (behind, place) = pass_entries(file, out, start, readers, count.next);
    pass(file, out, behind, place, measure(file, place))
}

// Copies what is left of the file.
fn write_rest(file: &[u8], out: &mut [u8], c: Cursor)
    ensures { WritesRest file.now out.old out.new c }
{
    if c.from <= file.len() {
        fill::copy(out, c.to, file, c.from, file.len() - c.from);
    }
}

// Writes the whole file, which has this padding.
fn write(file: &[u8], words: &[u32], out: &mut [u8], rows: u32, readers: u32, padding: usize)
    requires { (length file.now ≤ 16777216) × (padding ≤ length file.now) }
    ensures { WritesFile file.now words.now out.old out.new readers rows padding }
{
    let lists = pass_lists(file, out, readers);
    let objects = pass_rows(file, words, out, lists, rows, padding);
    write_rest(file, out, objects);
    numbers::little::put4(out, 6, file.len() - padding);
}

// A file of this padding that was loaded: writes it if there is room.
fn fit(
    file: &[u8],
    words: &mut [u32],
    out: &mut [u8],
    rows: u32,
    readers: u32,
    padding: usize,
) -> Result<usize, Refusal>
    requires { Ready file.now words.old readers rows padding }
    ensures { Fits file.now words.old words.new out.old out.new readers rows padding result }
{
    let needed = file.len() - padding;
    if out.len() < needed {
        fill::clear(words, 0);
        return Err(Rule::OutputTooSmall.at(needed));
    }
    write(file, words, out, rows, readers, padding);
    Ok(needed)
}

// Loads a file into the words, under a list of enum types, and writes it with its numbers in their shortest forms into the output.
pub fn rewrite(
    file: &[u8],
    enums: &[u8],
    words: &mut [u32],
    out: &mut [u8],
) -> Result<usize, Refusal>
    ensures value { result ≡ answer_of (rewritten enums.now file.now words.old out.old) }
    ensures out_after { out.new ≡ output_left enums.now file.now words.old out.old }
    ensures words_after { words.new ≡ words_left enums.now file.now words.old out.old }
{
    let loaded = load::load(file, enums, words)?;
    fit(
        file,
        words,
        out,
        loaded.rows,
        loaded.readers,
        loaded.padding as usize,
    )
}
