// The words of a row table (01, "The row table"; 02, Req 08): where a word of a row is, reading it, putting rows, and zeros behind them.
#![tactic(auto)]

ghost use Rattle.std.specs.Prelude.{◌≡◌, ◌+◌, ◌-◌, ◌*◌, ◌<◌, ◌≤◌, length, if◌then◌else◌, slice_index};
ghost use Rattle.layout.specs.Rows.{width};
ghost use Rattle.layout.specs.Table.{room_of};
ghost use Rattle.table.specs.Word.{in_word};
ghost use Rattle.table.specs.Grids.{cell_of, grid_of, rows_grid, columns_grid};
ghost use Rattle.table.specs.Put.{row_of, put_row};
ghost use Rattle.table.specs.Runs.{put_run, has_rows};
ghost use Rattle.table.specs.Cleared.{columns_cleared, cleared_behind};

use ids::RowNumber;

// How many words make a row.
pub const WIDTH: u32 = 7;

// The words of a row, by their places in it.
// Kept: they are numbers and no enum, as a cell is also asked for the words 0 to WIDTH one after the other.
pub const KIND: u32 = 0;

pub const FIRST: u32 = 1;

pub const LENGTH: u32 = 2;

pub const CHILDREN: u32 = 3;

pub const PARENT: u32 = 4;

pub const DETAIL: u32 = 5;

pub const BRANCH: u32 = 6;

// The shape of a table: how many rows it has room for, and whether it is in columns.
#[derive(Clone, Copy, Debug, PartialEq, Eq)]
pub struct Grid {
    pub room: u32,
    pub columns: bool,
}

// The words of a row.
#[derive(Clone, Copy, Debug, PartialEq, Eq)]
pub struct RowWords {
    pub kind: u32,
    pub first: u32,
    pub bytes: u32,
    pub children: u32,
    pub parent: u32,
    pub detail: u32,
    pub branch: u32,
}

// The number of whole rows in so many words, at most 65,536.
pub fn room(words: usize) -> u32
    ensures { result ≡ room_of words }
{
    (words / WIDTH as usize).min(65536) as u32
}

// A table by rows or in columns, with the room of so many words.
pub fn shaped(words: usize, columns: bool) -> Grid
    ensures { result ≡ grid_of words columns }
{
    Grid {
        room: room(words),
        columns,
    }
}

// The product of two words, which has no more than 64 bits.
fn product(a: u32, b: u32) -> usize
    ensures { (result ≡ a * b) × (result ≤ 18446744065119617025) }
{
    let x = a as usize;
    let y = b as usize;
    x * y
}

impl Grid {
    // The place of a word of a row.
    pub fn cell(self, row: RowNumber, word: u32) -> usize
        ensures { result ≡ cell_of self row.0 word }
    {
        if self.columns {
            let column = product(self.room, word);
            return row.0 as usize + column;
        }
        WIDTH as usize * row.0 as usize + word as usize
    }
}

// The words of a table that is read, and their shape.
#[derive(Clone, Copy, Debug)]
pub struct Table<'a> {
    pub words: &'a [u32],
    pub grid: Grid,
}

impl<'a> Table<'a> {
    // The words as a table by rows or in columns, with the room of so many words.
    pub fn shaped(words: &'a [u32], columns: bool) -> Table<'a>
        ensures { (result.words.now ≡ words.now) × (result.grid ≡ grid_of (length words.now) columns) }
    {
        let grid = shaped(words.len(), columns);
        Table { words, grid }
    }

    // The words as a table by rows.
    pub fn by_rows(words: &'a [u32]) -> Table<'a>
        ensures { (result.words.now ≡ words.now) × (result.grid ≡ rows_grid (length words.now)) }
    {
        Table::shaped(words, false)
    }

    // The words as a table in columns.
    pub fn in_columns(words: &'a [u32]) -> Table<'a>
        ensures { (result.words.now ≡ words.now) × (result.grid ≡ columns_grid (length words.now)) }
    {
        Table::shaped(words, true)
    }

    // A word of a row, 0 where there is none.
    pub fn word(self, row: RowNumber, word: u32) -> u32
        ensures { result ≡ slice_index self.entry.words.now (cell_of self.entry.grid row.0 word) }
    {
        let at = self.grid.cell(row, word);
        self.words.get(at).copied().unwrap_or(0)
    }
}

// Puts a row into its cells.
fn store_cells(words: &mut [u32], grid: Grid, row: RowNumber, r: RowWords)
    requires { cell_of grid row.0 6 < length words.old }
    ensures { words.new ≡ put_row grid words.old row.0 (row_of r) }
{
    words[grid.cell(row, KIND)] = r.kind;
    words[grid.cell(row, FIRST)] = r.first;
    words[grid.cell(row, LENGTH)] = r.bytes;
    words[grid.cell(row, CHILDREN)] = r.children;
    words[grid.cell(row, PARENT)] = r.parent;
    words[grid.cell(row, DETAIL)] = r.detail;
    words[grid.cell(row, BRANCH)] = r.branch;
}

// Puts a row into its cells, if the words have them.
fn put_cells(words: &mut [u32], grid: Grid, row: RowNumber, r: RowWords)
    ensures { words.new ≡ put_row grid words.old row.0 (row_of r) }
{
    if grid.cell(row, BRANCH) < words.len() {
        store_cells(words, grid, row, r);
    }
}

// Puts a row into the words, if they have it. In a table by rows the cells are neighbours, which the compiler sees where the shape is known.
pub fn put_row(words: &mut [u32], grid: Grid, row: RowNumber, r: RowWords)
    ensures { words.new ≡ put_row grid words.old row.0 (row_of r) }
{
    if grid.columns {
        put_cells(words, grid, row, r);
        return;
    }
    let by_rows = Grid {
        columns: false,
        ..grid
    };
    put_cells(words, by_rows, row, r);
}

// Zeros in each column from row `used` on, and behind the columns.
fn clear_columns(words: &mut [u32], grid: Grid, used: RowNumber)
    ensures { words.new ≡ columns_cleared grid words.old used.0 }
{
    for j in 0..WIDTH {
        let from = grid.cell(used, j);
        let to = grid.cell(RowNumber(grid.room), j);
        fill::clear_range(words, from, to);
    }
    fill::clear(words, grid.cell(RowNumber(0), WIDTH));
}

// Zeros in every word that is in no row before row `used`.
pub fn clear_behind(words: &mut [u32], grid: Grid, used: RowNumber)
    ensures { words.new ≡ cleared_behind grid words.old used.0 }
{
    if grid.columns {
        clear_columns(words, grid, used);
        return;
    }
    fill::clear(words, grid.cell(used, KIND));
}

// The sum of two words, as a word holds it.
pub fn sum(a: u32, b: u32) -> u32
    ensures { result ≡ in_word (a + b) }
{
    a.wrapping_add(b)
}

// A number as a word holds it: its remainder by 2 to the 32.
pub fn word(n: usize) -> u32
    ensures { result ≡ in_word n }
{
    (n % 4294967296) as u32
}

// How many rows stand from a row on and before row `used`, 0 where there are none.
pub fn rows_from(row: RowNumber, used: u32) -> u32
    ensures { result ≡ used - row.0 }
{
    used.saturating_sub(row.0)
}

// Values without children, of one kind and size, that follow each other: how many, the first one's first byte, and their parent's row number plus 1.
#[derive(Clone, Copy, Debug, PartialEq, Eq)]
pub struct Series {
    pub count: u32,
    pub kind: u32,
    pub size: usize,
    pub first: usize,
    pub parent: u32,
}

// Puts the rows of a series, where the table has them.
fn store_run(words: &mut [u32], grid: Grid, used: u32, s: Series)
    requires { (used + s.count ≤ grid.room) × (width * grid.room ≤ length words.old) }
    ensures { words.new ≡ put_run grid used s.kind s.first s.size s.parent words.old s.count }
{
    let bytes = word(s.size);
    let mut at = word(s.first);
    for i in 0..s.count {
        let r = RowWords {
            kind: s.kind,
            first: at,
            bytes,
            children: 0,
            parent: s.parent,
            detail: 0,
            branch: 1,
        };
        store_cells(words, grid, RowNumber(used + i), r);
        at = sum(at, bytes);
    }
}

// Puts the rows of a series, if the table has them; whether it has.
pub fn put_run(words: &mut [u32], grid: Grid, used: u32, s: Series) -> bool
    ensures value { result ≡ has_rows grid (length words.old) used s.count }
    ensures words_after { words.new
        ≡ (if result then put_run grid used s.kind s.first s.size s.parent words.old s.count else words.old) }
{
    if grid.room < used {
        return false;
    }
    if grid.room - used < s.count {
        return false;
    }
    let all = WIDTH as usize * grid.room as usize;
    if words.len() < all {
        return false;
    }
    if grid.columns {
        store_run(words, grid, used, s);
        return true;
    }
    let by_rows = Grid {
        columns: false,
        ..grid
    };
    store_run(words, by_rows, used, s);
    true
}
