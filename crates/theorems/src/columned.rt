// What is demanded of a table in columns beside one by rows, as contracts of functions that call the code.
ghost use Rattle.std.specs.Prelude.{◌≡◌, length};
ghost use Rattle.table.specs.Grids.{rows_grid, columns_grid};
ghost use Rattle.load.specs.Under.{load_under};
ghost use Rattle.load.specs.Loads.{answer_of};
ghost use Rattle.theorems.specs.Columns.{LoadsBoth, LooksUp, looked_up};

use crate::Two;
use answers::Refusal;
use ids::RowNumber;
use load::Loading;
use lookups::Span;
use table::Table;
use ticks::Time;

// The answers of all lookups of a row.
#[derive(Clone, Copy, Debug, PartialEq, Eq)]
pub struct Lookups {
    pub part: Result<Span, Refusal>,
    pub text: Result<Span, Refusal>,
    pub signed: Result<i64, Refusal>,
    pub time: Result<Time, Refusal>,
    pub next: u32,
}

// A file that is loaded by rows and in columns, under one list of enum types.
fn load_both(file: &[u8], enums: &[u8], words: &mut [u32], columns: &mut [u32]) -> Two<Loading>
    ensures loads_both { LoadsBoth enums.now file.now (length words.old) (length columns.old)
        words.new columns.new result }
    ensures rows_value { result.first ≡ answer_of file.now (load_under enums.now file.now (length words.old)) }
    ensures columns_value { result.second ≡ answer_of file.now (load_under enums.now file.now (length columns.old)) }
{
    Two {
        first: load::load(file, enums, words),
        second: load::load_columns(file, enums, columns),
    }
}

// A row that is looked up in a table.
pub fn look_up(file: &[u8], table: Table, row: RowNumber) -> Lookups
    ensures { result ≡ looked_up table.entry.grid file.now table.entry.words.now row.0 }
{
    Lookups {
        part: lookups::part(file, table, row),
        text: lookups::text(file, table, row),
        signed: lookups::signed(file, table, row),
        time: lookups::time(file, table, row),
        next: branches::next(table, row),
    }
}

// A row that is looked up by rows and in columns.
fn look_up_both(file: &[u8], words: &[u32], columns: &[u32], row: RowNumber) -> Two<Lookups>
    ensures looks_up { LooksUp words.now columns.now result }
    ensures rows_value { result.first ≡ looked_up (rows_grid (length words.now)) file.now words.now row.0 }
    ensures columns_value { result.second ≡ looked_up (columns_grid (length columns.now)) file.now columns.now row.0 }
{
    Two {
        first: look_up(file, Table::by_rows(words), row),
        second: look_up(file, Table::in_columns(columns), row),
    }
}
