// The rules of pages over the rows of a loaded file (02, Req 07): 46, a first object that is no Page, and 47, a page whose next has resource id 0.
#![tactic(auto)]

ghost use Rattle.std.specs.Prelude.{suc, ◌<◌, drop};
ghost use Rattle.profile.specs.Offences.{no_page, nextless};
ghost use Rattle.used_rows.specs.Held.{Skips, Finds};
ghost use Rattle.page_rules.specs.Pages.{page_fault};

use names::kinds;
use used_rows::UsedRows;

// The first object is a Page.
pub fn no_page(rows: UsedRows) -> Option<usize>
    ensures { Finds rows.entry.table.grid rows.entry.table.words.now rows.entry.used no_page result }
{
    let kind = rows.word(0, table::KIND);
    if kind == kinds::PAGE {
        return None;
    }
    let first = rows.word(0, table::FIRST);
    Some(first as usize)
}

// The row of a page's fourth child.
fn next_of_page(rows: UsedRows, page: u32) -> u32
    requires { page < rows.used }
    ensures { Skips rows.entry.table.grid rows.entry.table.words.now rows.entry.used 3 (suc page) result }
{
    let title = page + 1;
    let area = rows.next(title);
    let image = rows.next(area);
    rows.next(image)
}

// A page's next has resource id 0.
fn nextless_at(rows: UsedRows, row: u32) -> Option<usize>
    requires { row < rows.used }
    ensures { Finds rows.entry.table.grid rows.entry.table.words.now rows.entry.used (λ held. page_fault (drop row held)) result }
{
    let kind = rows.word(row, table::KIND);
    if kind != kinds::PAGE {
        return None;
    }
    let next = next_of_page(rows, row);
    let detail = rows.word(next, table::DETAIL);
    if detail != 0 {
        return None;
    }
    let first = rows.word(next, table::FIRST);
    Some(first as usize)
}

// The first page whose next has resource id 0.
pub fn nextless(rows: UsedRows) -> Option<usize>
    ensures { Finds rows.entry.table.grid rows.entry.table.words.now rows.entry.used nextless result }
{
    for row in 0..rows.used {
        if let Some(place) = nextless_at(rows, row) {
            return Some(place);
        }
    }
    None
}
