// What is demanded of the bytes of parts and texts over a table in columns beside one by rows, as contracts of functions
// that call the code (specs/Bytes.antt).
ghost use Rattle.std.specs.Prelude.{◌≡◌, cond, length};
ghost use Rattle.table.specs.Grids.{rows_grid, columns_grid};
ghost use Rattle.lookups.specs.Parts.{part_of};
ghost use Rattle.lookups.specs.Texts.{text_of};
ghost use Rattle.theorems.specs.Bytes.{SameBytes};

use ids::RowNumber;
use table::Table;

// The table by rows, or the one in columns.
fn either<'a>(words: &'a [u32], columns: &'a [u32], in_columns: bool) -> Table<'a>
    ensures grid { result.grid ≡ cond in_columns (columns_grid (length columns.now)) (rows_grid (length words.now)) }
    ensures words { result.words.now ≡ cond in_columns columns.now words.now }
{
    if in_columns {
        return Table::in_columns(columns);
    }
    Table::by_rows(words)
}

// The bytes of the part that a row names, by rows or in columns.
fn part_bytes_either<'a>(
    file: &'a [u8],
    words: &[u32],
    columns: &[u32],
    row: RowNumber,
    in_columns: bool,
) -> &'a [u8]
    ensures { SameBytes part_of file.now words.now columns.now row.0 result.now }
{
    lookups::part_bytes(file, either(words, columns, in_columns), row)
}

// The bytes of the text that a row names, by rows or in columns.
fn text_bytes_either<'a>(
    file: &'a [u8],
    words: &[u32],
    columns: &[u32],
    row: RowNumber,
    in_columns: bool,
) -> &'a [u8]
    ensures { SameBytes text_of file.now words.now columns.now row.0 result.now }
{
    lookups::text_bytes(file, either(words, columns, in_columns), row)
}
