// The last pass over the rows (01, "17 last, in row order"): it judges whether each shared reference names a resource
// of the type that it wants, and clears the kind that the reference's row has in the place of its number of children.
#![tactic(auto)]

ghost use Rattle.std.specs.Prelude.{◌≡◌, false, ◌+◌, ◌*◌, ◌-◌, ◌≤◌, length, get_or, drop, set};
ghost use Rattle.layout.specs.Rows.{width};
ghost use Rattle.reading.specs.Drafts.{resource};
ghost use Rattle.reading.specs.Resource.{suit, suits};
ghost use Rattle.resources.specs.Roots.{NotesRow};
ghost use Rattle.resources.specs.Total.{NoneAmong, any_reference, null_cleared, roots_of, row_settled, rows_settled, settle_from, settle_of};

use arrayvec::ArrayVec;
use ids::{ResourceId, RowNumber};
use names::kinds;
use table::{Grid, Table, WIDTH};

// Stores a word at a place, where there is one.
fn put_word(words: &mut [u32], at: usize, value: u32)
    ensures { words.new ≡ set words.old at value }
{
    if at < words.len() {
        words[at] = value;
    }
}

// Puts the kind of a row, if it has no parent, behind the kinds before it, where there is room.
fn note(kinds: &mut ArrayVec<u32, 257>, table: Table, row: RowNumber)
    ensures { NotesRow table.entry.grid table.entry.words.now row.0 kinds.old.items kinds.new.items }
{
    if kinds.is_full() {
        return;
    }
    if table.word(row, table::PARENT) != 0 {
        return;
    }
    kinds.push(table.word(row, table::KIND));
}

// The kinds of the first 257 rows that have no parent: the primary's, then those of the shared objects.
fn root_kinds(table: Table, used: u32) -> ArrayVec<u32, 257>
    ensures { result.items ≡ roots_of table.entry.grid table.entry.words.now used }
{
    let mut kinds = ArrayVec::new();
    for i in 0..used {
        note(&mut kinds, table, RowNumber(i));
    }
    kinds
}

// A resource of a kind suits a reference that wants a kind, and null suits every reference.
fn suits_kind(wanted: u32, kind: u32) -> bool
    ensures { result ≡ suit wanted kind }
{
    kind == 0 || kind == wanted
}

// The kind at a place, 0 where there is none.
fn kind_at(kinds: &[u32], at: usize) -> u32
    ensures { result ≡ get_or kinds.now at 0 }
{
    kinds.get(at).copied().unwrap_or(0)
}

// A resource suits by its id, where `kinds` has the primary's kind and then those of the shared objects.
fn suits_id(kinds: &[u32], id: ResourceId, wanted: u32) -> bool
    ensures { result ≡ suits (drop 1 kinds.now) (resource wanted) id.0 }
{
    match id.position() {
        None => true,
        Some(i) => {
            let at = i as usize + 1;
            suits_kind(wanted, kind_at(kinds, at))
        }
    }
}

// Judges one row and clears its mark.
fn judge_row(words: &mut [u32], grid: Grid, row: RowNumber, kinds: &[u32]) -> Option<u32>
    ensures value { result ≡ (row_settled grid (drop 1 kinds.now) words.old row.0).0 }
    ensures words_after { words.new ≡ (row_settled grid (drop 1 kinds.now) words.old row.0).1 }
{
    let table = Table {
        words: &*words,
        grid,
    };
    if table.word(row, table::KIND) != kinds::SHARED_REFERENCE {
        return None;
    }
    let wanted = table.word(row, table::CHILDREN);
    let id = table.word(row, table::DETAIL);
    if !suits_id(kinds, ResourceId(id), wanted) {
        return Some(table.word(row, table::FIRST));
    }
    put_word(words, grid.cell(row, table::CHILDREN), 0);
    None
}

// Judges the rows in order, from one on.
fn judge_rows(words: &mut [u32], grid: Grid, from: u32, used: u32, kinds: &[u32]) -> Option<u32>
    ensures value { result ≡ (rows_settled grid (drop 1 kinds.now) (used - from) from words.old).0 }
    ensures words_after { words.new ≡ (rows_settled grid (drop 1 kinds.now) (used - from) from words.old).1 }
{
    for i in from..used {
        if let Some(first) = judge_row(words, grid, RowNumber(i), kinds) {
            return Some(first);
        }
    }
    None
}

// Looks up the kinds of the resources, and judges the rows from one on.
fn judge_from(words: &mut [u32], grid: Grid, from: u32, used: u32) -> Option<u32>
    ensures value { result ≡ (settle_from grid words.old used from).0 }
    ensures words_after { words.new ≡ (settle_from grid words.old used from).1 }
{
    let table = Table {
        words: &*words,
        grid,
    };
    let kinds = root_kinds(table, used);
    judge_rows(words, grid, from, used, kinds.as_slice())
}

// Clears the mark of a row that is a null reference; whether the row is a reference that names a resource.
fn clear_null(words: &mut [u32], grid: Grid, row: RowNumber) -> bool
    ensures value { result ≡ (null_cleared grid words.old row.0).0 }
    ensures words_after { words.new ≡ (null_cleared grid words.old row.0).1 }
{
    let table = Table {
        words: &*words,
        grid,
    };
    if table.word(row, table::KIND) != kinds::SHARED_REFERENCE {
        return false;
    }
    if table.word(row, table::DETAIL) != 0 {
        return true;
    }
    let mark = grid.cell(row, table::CHILDREN);
    put_word(words, mark, 0);
    false
}

// Judges rows that there is room for: null suits every reference, so kinds are looked up only at the first that names a resource.
fn judge_all(words: &mut [u32], grid: Grid, used: u32) -> Option<u32>
    requires { used ≤ grid.room }
    ensures value { result ≡ (settle_of grid words.old used).0 }
    ensures words_after { words.new ≡ (settle_of grid words.old used).1 }
{
    for i in 0..used {
        if clear_null(words, grid, RowNumber(i)) {
            return judge_from(words, grid, i, used);
        }
    }
    None
}

// Whether a reference is seen among eight rows.
fn any_of_eight(table: Table, from: u32) -> bool
    requires { (from + 8 ≤ table.grid.room) × (width * table.grid.room ≤ length table.words.now) }
    ensures { result ≡ false → NoneAmong table.entry.grid table.entry.words.now from 8 }
{
    let mut found = false;
    for j in 0..8 {
        let row = from + j;
        let at = table.grid.cell(RowNumber(row), table::KIND);
        found = found | (table.words[at] == kinds::SHARED_REFERENCE);
    }
    found
}

// Past the rows that eight at a time have no reference.
fn past_eights(table: Table, used: u32) -> u32
    requires { (used ≤ table.grid.room) × (width * table.grid.room ≤ length table.words.now) }
    ensures { any_reference table.entry.grid table.entry.words.now (used - result) result ≡ any_reference table.entry.grid table.entry.words.now used 0 }
{
    for k in 0..used / 8 {
        if any_of_eight(table, 8 * k) {
            return 8 * k;
        }
    }
    used / 8 * 8
}

// Past rows without a reference, as far as they are seen at once.
// In a table by rows the kinds are seven words apart, which the compiler sees where the shape is known.
fn past_many(table: Table, used: u32) -> u32
    ensures { any_reference table.entry.grid table.entry.words.now (used - result) result ≡ any_reference table.entry.grid table.entry.words.now used 0 }
{
    let Table { words, grid } = table;
    if used > grid.room {
        return 0;
    }
    let all = WIDTH as usize * grid.room as usize;
    if words.len() < all {
        return 0;
    }
    if grid.columns {
        return past_eights(table, used);
    }
    let grid = Grid {
        columns: false,
        ..grid
    };
    past_eights(Table { words, grid }, used)
}

// Whether a reference is among the first `used` rows.
fn any_reference(table: Table, used: u32) -> bool
    ensures { result ≡ any_reference table.entry.grid table.entry.words.now used 0 }
{
    for i in past_many(table, used)..used {
        if table.word(RowNumber(i), table::KIND) == kinds::SHARED_REFERENCE {
            return true;
        }
    }
    false
}

// Judges the references of the first `used` rows, and clears their marks: drafts that stand in the words become the rows of 01.
// Rows that there is no room for may share words, so the kinds are looked up before a mark among them is cleared.
pub fn settle(words: &mut [u32], grid: Grid, used: u32) -> Option<u32>
    ensures value { result ≡ (settle_of grid words.old used).0 }
    ensures words_after { words.new ≡ (settle_of grid words.old used).1 }
{
    let table = Table {
        words: &*words,
        grid,
    };
    if !any_reference(table, used) {
        return None;
    }
    if grid.room < used {
        return judge_from(words, grid, 0, used);
    }
    judge_all(words, grid, used)
}
