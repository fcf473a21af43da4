// The entries for an asset builder in another language: each takes slices and numbers, and answers one number.
#![tactic(auto)]

mod bare;
pub mod by_columns;
pub mod driver_entry;
pub mod pack;
pub mod report;
pub mod version;
pub mod xml;

ghost use Rattle.std.specs.Prelude.{◌≡◌, List, [], ℕ, ◌*◌, length};
ghost use Rattle.layout.specs.Rows.{width};
ghost use Rattle.layout.specs.Table.{shape_of};
ghost use Rattle.reading.specs.File.{Load, table_of, table_in};
ghost use Rattle.load.specs.Loads.{answer_of};
ghost use Rattle.load.specs.Under.{load_under};
ghost use Rattle.branches.specs.Next.{rows_next};
ghost use Rattle.lookups.specs.Parts.{rows_part};
ghost use Rattle.lookups.specs.Texts.{rows_text};
ghost use Rattle.lookups.specs.Signs.{rows_signed};
ghost use Rattle.lookups.specs.Times.{rows_time};
ghost use Rattle.rewrite.specs.Whole.{rewritten, output_left, words_left};
ghost use Rattle.builder.specs.Packed.{code, packed, rewrite_packed};
ghost use Rattle.builder.specs.Told.{load_told, span_told, signed_told, time_told};

use answers::Refusal;
use ids::RowNumber;
use load::Loading;
use lookups::Span;
use table::Table;
use ticks::Time;

// A refusal's number and place as one number; of a place that 32 bits do not hold, the remainder.
fn packed(refusal: Refusal) -> u64
    ensures { result ≡ code refusal.number refusal.place }
{
    refusal.number as u64 * 4294967296 + (refusal.place % 4294967296) as u64
}

// Loads a file with room for 1,024 rows and no enum types listed: the refusal's number times 2 to the 32 plus its place, or the number of rows.
pub fn xnb_load(file: &[u8]) -> u64
    ensures { result ≡ packed (load_under [] file.now (1024 * width)) }
{
    let few = bare::load_few(file);
    if few / 4294967296 == 19 {
        return bare::load_many(file);
    }
    few
}

// Tells what a load answered: the packed answer, and the number of readers, the shared count and the padding of the file's seven-bit numbers, 0 on a refusal.
pub(crate) fn tell_load(
    loading: Loading,
    readers: &mut u32,
    shared: &mut u32,
    padding: &mut u32,
) -> u64
    ensures { (file : List ℕ) (x : Load) → loading ≡ answer_of file x
        → (result, readers.new, shared.new, padding.new) ≡ load_told file x }
{
    match loading {
        Err(refusal) => {
            *readers = 0;
            *shared = 0;
            *padding = 0;
            packed(refusal)
        }
        Ok(loaded) => {
            *readers = loaded.readers;
            *shared = loaded.shared;
            *padding = loaded.padding;
            loaded.rows as u64
        }
    }
}

// Loads a file into the words, by rows or in columns, under a list of enum types.
pub(crate) fn load_told(
    file: &[u8],
    enums: &[u8],
    words: &mut [u32],
    columns: bool,
    readers: &mut u32,
    shared: &mut u32,
    padding: &mut u32,
) -> u64
    ensures padding_after { (result, readers.new, shared.new, padding.new)
        ≡ load_told file.now (load_under enums.now file.now (length words.old)) }
    ensures words_after { words.new
        ≡ table_in (shape_of columns) (load_under enums.now file.now (length words.old)) (length words.old) }
{
    let loading = load::load_in(file, enums, words, columns);
    tell_load(loading, readers, shared, padding)
}

// Loads a file into the words, under a list of enum types.
pub fn xnb_load_rows(
    file: &[u8],
    enums: &[u8],
    words: &mut [u32],
    readers: &mut u32,
    shared: &mut u32,
    padding: &mut u32,
) -> u64
    ensures padding_after { (result, readers.new, shared.new, padding.new)
        ≡ load_told file.now (load_under enums.now file.now (length words.old)) }
    ensures words_after { words.new
        ≡ table_of (load_under enums.now file.now (length words.old)) (length words.old) }
{
    load_told(file, enums, words, false, readers, shared, padding)
}

// Rewrites a file into the output, under a list of enum types: a refusal is packed as above, else the answer is the length of the rewritten file.
pub fn xnb_rewrite(file: &[u8], enums: &[u8], words: &mut [u32], out: &mut [u8]) -> u64
    ensures value { result ≡ rewrite_packed (rewritten enums.now file.now words.old out.old) }
    ensures out_after { out.new ≡ output_left enums.now file.now words.old out.old }
    ensures words_after { words.new ≡ words_left enums.now file.now words.old out.old }
{
    match rewrite::rewrite(file, enums, words, out) {
        Err(refusal) => packed(refusal),
        Ok(length) => length as u64,
    }
}

// Writes a span's first byte and length, 0 on a refusal: the answer is the refusal's number, or 0.
pub(crate) fn tell_span(looked: Result<Span, Refusal>, first: &mut usize, len: &mut usize) -> u32
    ensures { (result, first.new, len.new) ≡ span_told looked }
{
    match looked {
        Err(refusal) => {
            *first = 0;
            *len = 0;
            refusal.number
        }
        Ok(span) => {
            *first = span.first;
            *len = span.length;
            0
        }
    }
}

// The part of the file that a row names.
pub fn xnb_part(file: &[u8], words: &[u32], row: u32, first: &mut usize, len: &mut usize) -> u32
    ensures { (result, first.new, len.new) ≡ span_told (rows_part file.now words.now row) }
{
    tell_span(
        lookups::part(file, Table::by_rows(words), RowNumber(row)),
        first,
        len,
    )
}

// The number of the row behind a row and all below it, 0 where there is none in the room.
pub fn xnb_next(words: &[u32], row: u32) -> u32
    ensures { result ≡ rows_next words.now row }
{
    branches::next(Table::by_rows(words), RowNumber(row))
}

// The bytes of a text.
pub fn xnb_text(file: &[u8], words: &[u32], row: u32, first: &mut usize, len: &mut usize) -> u32
    ensures { (result, first.new, len.new) ≡ span_told (rows_text file.now words.now row) }
{
    tell_span(
        lookups::text(file, Table::by_rows(words), RowNumber(row)),
        first,
        len,
    )
}

// A signed number, 0 on a refusal: the answer is the refusal's number, or 0.
pub(crate) fn tell_signed(looked: Result<i64, Refusal>, value: &mut i64) -> u32
    ensures { (result, value.new) ≡ signed_told looked }
{
    match looked {
        Err(refusal) => {
            *value = 0;
            refusal.number
        }
        Ok(found) => {
            *value = found;
            0
        }
    }
}

// A time in seconds and ticks, 0 on a refusal: the answer is the refusal's number, or 0.
pub(crate) fn tell_time(looked: Result<Time, Refusal>, seconds: &mut i64, ticks: &mut u32) -> u32
    ensures { (result, seconds.new, ticks.new) ≡ time_told looked }
{
    match looked {
        Err(refusal) => {
            *seconds = 0;
            *ticks = 0;
            refusal.number
        }
        Ok(time) => {
            *seconds = time.seconds;
            *ticks = time.ticks;
            0
        }
    }
}

// The signed number of a row.
pub fn xnb_signed(file: &[u8], words: &[u32], row: u32, value: &mut i64) -> u32
    ensures { (result, value.new) ≡ signed_told (rows_signed file.now words.now row) }
{
    tell_signed(
        lookups::signed(file, Table::by_rows(words), RowNumber(row)),
        value,
    )
}

// The time of a row in seconds and ticks.
pub fn xnb_time(file: &[u8], words: &[u32], row: u32, seconds: &mut i64, ticks: &mut u32) -> u32
    ensures { (result, seconds.new, ticks.new) ≡ time_told (rows_time file.now words.now row) }
{
    tell_time(
        lookups::time(file, Table::by_rows(words), RowNumber(row)),
        seconds,
        ticks,
    )
}
