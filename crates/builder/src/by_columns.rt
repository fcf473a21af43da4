// The entries over a table in columns.
ghost use Rattle.std.specs.Prelude.{◌≡◌, length};
ghost use Rattle.layout.specs.Table.{by_columns};
ghost use Rattle.reading.specs.File.{table_in};
ghost use Rattle.load.specs.Under.{load_under};
ghost use Rattle.branches.specs.Next.{columns_next};
ghost use Rattle.lookups.specs.Parts.{columns_part};
ghost use Rattle.lookups.specs.Texts.{columns_text};
ghost use Rattle.lookups.specs.Signs.{columns_signed};
ghost use Rattle.lookups.specs.Times.{columns_time};
ghost use Rattle.builder.specs.Told.{load_told, span_told, signed_told, time_told};

use ids::RowNumber;
use table::Table;

// Loads a file into the words in columns, under a list of enum types.
pub fn xnb_load_columns(
    file: &[u8],
    enums: &[u8],
    words: &mut [u32],
    readers: &mut u32,
    shared: &mut u32,
    padding: &mut u32,
) -> u64
    ensures padding_after { (result, readers.new, shared.new, padding.new)
        ≡ load_told file.now (load_under enums.now file.now (length words.old)) }
    ensures words_after { words.new
        ≡ table_in by_columns (load_under enums.now file.now (length words.old)) (length words.old) }
{
    crate::load_told(file, enums, words, true, readers, shared, padding)
}

// The number of the row behind a row and all below it, 0 where there is none in the room.
pub fn xnb_columns_next(words: &[u32], row: u32) -> u32
    ensures { result ≡ columns_next words.now row }
{
    branches::next(Table::in_columns(words), RowNumber(row))
}

// The part of the file that a row names.
pub fn xnb_columns_part(
    file: &[u8],
    words: &[u32],
    row: u32,
    first: &mut usize,
    len: &mut usize,
) -> u32
    ensures { (result, first.new, len.new) ≡ span_told (columns_part file.now words.now row) }
{
    crate::tell_span(
        lookups::part(file, Table::in_columns(words), RowNumber(row)),
        first,
        len,
    )
}

// The bytes of a text.
pub fn xnb_columns_text(
    file: &[u8],
    words: &[u32],
    row: u32,
    first: &mut usize,
    len: &mut usize,
) -> u32
    ensures { (result, first.new, len.new) ≡ span_told (columns_text file.now words.now row) }
{
    crate::tell_span(
        lookups::text(file, Table::in_columns(words), RowNumber(row)),
        first,
        len,
    )
}

// The signed number of a row.
pub fn xnb_columns_signed(file: &[u8], words: &[u32], row: u32, value: &mut i64) -> u32
    ensures { (result, value.new) ≡ signed_told (columns_signed file.now words.now row) }
{
    crate::tell_signed(
        lookups::signed(file, Table::in_columns(words), RowNumber(row)),
        value,
    )
}

// The time of a row in seconds and ticks.
pub fn xnb_columns_time(
    file: &[u8],
    words: &[u32],
    row: u32,
    seconds: &mut i64,
    ticks: &mut u32,
) -> u32
    ensures { (result, seconds.new, ticks.new) ≡ time_told (columns_time file.now words.now row) }
{
    crate::tell_time(
        lookups::time(file, Table::in_columns(words), RowNumber(row)),
        seconds,
        ticks,
    )
}
