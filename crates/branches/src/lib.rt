// Skipping a row and all below it (02, Req 09).
#![tactic(auto)]

ghost use Rattle.std.specs.Prelude.{◌≡◌};
ghost use Rattle.branches.specs.Next.{next_of};

use ids::RowNumber;
use table::Table;

// The number of the row behind a row and all below it, 0 where there is none in the room.
// Kept: 0 and no None, as the C functions xnb_next and xnb_columns_next answer it as it is, and `next_of` of the theorems.
pub fn next(table: Table, row: RowNumber) -> u32
    ensures { result ≡ next_of table.entry.grid table.entry.words.now row.0 }
{
    let number = row.0;
    if table.grid.room <= number {
        return 0;
    }
    let branch = table.word(row, table::BRANCH);
    if branch == 0 {
        return 0;
    }
    if table.grid.room - number < branch {
        return 0;
    }
    number + branch
}
