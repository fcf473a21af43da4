// What is demanded of skipping a row and all below it, as the contract of a function that calls the code.
ghost use Rattle.std.specs.Prelude.{length};
ghost use Rattle.theorems.specs.Branches.{SkipsRow};

use ids::RowNumber;
use load::Loading;
use table::Table;

// The answer of a load, and the row behind a row and all below it.
#[derive(Clone, Copy, Debug, PartialEq, Eq)]
pub struct Skipped {
    pub loading: Loading,
    pub next: u32,
}

// A file that is loaded, and a row that is skipped with all below it.
fn load_and_skip(file: &[u8], enums: &[u8], words: &mut [u32], row: RowNumber) -> Skipped
    ensures { SkipsRow enums.now file.now (length words.old) words.new row.0 result }
{
    let loading = crate::load_exact(file, enums, words);
    let next = branches::next(Table::by_rows(words), row);
    Skipped { loading, next }
}
