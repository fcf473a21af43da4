// Lists of nullables whose values are of one kind and size, all at once.
#![tactic(auto)]

ghost use Rattle.std.specs.Prelude.{◌≡◌, ◌+◌, ◌*◌, ◌≤◌, ◌<◌};
ghost use Rattle.table.specs.Runs.{put_run};
ghost use Rattle.nullables.specs.Placed.{AllFit, EndsAre, ListedAre, Ruled, kind_in, size_in, put_all, row_of};
ghost use Rattle.nullables.specs.Walked.{ListWalks};

use heads::slot::Slot;
use ids::RowNumber;
use leaves::plain::Plain;
use names::kinds;
use table::{Grid, RowWords, Series};
use walked::Reached;

// Where nullables end, and the number of the row behind theirs.
#[derive(Clone, Copy, Debug, PartialEq, Eq)]
pub struct Ends {
    pub next: usize,
    pub last: u64,
}

// How many bytes the value of a nullable has.
fn value_bytes(flag: u32, size: usize) -> usize
    requires { (flag ≤ 1) × (0 < size) }
    ensures { (result ≡ flag * size) × (flag ≤ result) }
{
    if flag == 0 {
        return 0;
    }
    size
}

// Where the nullables of a series end, if they are seen to be there: the values have its kind and size, and where the kind has a rule,
// they keep it by a first byte of at most `most`. Their rows begin behind their parent's.
fn ends_of(file: &[u8], s: Series, most: u8) -> Option<Ends>
    requires { (0 < s.size) × Ruled s.kind s.size most }
    ensures { EndsAre file.now s.kind s.size s.count s.first s.parent result }
{
    let mut next = s.first;
    let mut last = s.parent as u64;
    for _i in 0..s.count {
        if file.len() <= next {
            return None;
        }
        let flag = widen::wide(file[next]) as u32;
        if 1 < flag {
            return None;
        }
        let bytes = value_bytes(flag, s.size);
        if file.len() - next <= bytes {
            return None;
        }
        let first = next + flag as usize;
        if most < file[first] {
            return None;
        }
        next = next + 1 + bytes;
        last = last + 1 + flag as u64;
    }
    Some(Ends { next, last })
}

// Puts the row of a nullable's value, if it has one.
fn put_value(
    words: &mut [u32],
    grid: Grid,
    number: u32,
    flag: u32,
    kind: u32,
    at: usize,
    size: usize,
)
    requires { flag ≤ 1 }
    ensures { words.new ≡ put_run grid number kind at size number words.old flag }
{
    if flag == 0 {
        return;
    }
    let r = RowWords {
        kind,
        first: table::word(at),
        bytes: table::word(size),
        children: 0,
        parent: number,
        detail: 0,
        branch: 1,
    };
    table::put_row(words, grid, RowNumber(number), r);
}

// Puts the rows of a series of nullables that fit.
fn put_all(file: &[u8], words: &mut [u32], grid: Grid, s: Series)
    requires { (0 < s.size) × AllFit file.now s.kind s.size s.first s.count × (row_of file.now s.size s.first s.parent s.count ≤ grid.room) }
    ensures { words.new ≡ put_all grid file.now s.kind s.size s.parent s.first s.parent words.old s.count }
{
    let mut next = s.first;
    let mut number = s.parent;
    for _i in 0..s.count {
        let flag = widen::wide(file[next]) as u32;
        let bytes = value_bytes(flag, s.size);
        let value = next + 1;
        let below = number + 1;
        put_value(words, grid, below, flag, s.kind, value, s.size);
        let whole = 1 + bytes;
        let branch = 1 + flag;
        let r = RowWords {
            kind: kinds::NULLABLE_KIND,
            first: table::word(next),
            bytes: table::word(whole),
            children: flag,
            parent: s.parent,
            detail: 0,
            branch,
        };
        table::put_row(words, grid, RowNumber(number), r);
        next = value + bytes;
        number = below + flag;
    }
}

// A series of nullables. The shape of the table is told apart here, so that each has a loop of its own.
fn list_of(file: &[u8], words: &mut [u32], grid: Grid, s: Series, most: u8) -> Option<Reached>
    requires { (0 < s.size) × Ruled s.kind s.size most }
    ensures { ListedAre grid file.now s.kind s.size s.count s.first s.parent words.old words.new result }
{
    let ends = ends_of(file, s, most)?;
    if (grid.room as u64) < ends.last {
        return None;
    }
    let reached = Reached {
        padding: 0,
        next: ends.next,
        used: ends.last as u32,
    };
    if grid.columns {
        put_all(file, words, grid, s);
        return Some(reached);
    }
    let by_rows = Grid {
        columns: false,
        ..grid
    };
    put_all(file, words, by_rows, s);
    Some(reached)
}

// A series of nullables, of values of a kind with a rule only where the first byte shows that they keep it.
fn of_kind(file: &[u8], words: &mut [u32], grid: Grid, s: Series) -> Option<Reached>
    ensures { ListedAre grid file.now s.kind s.size s.count s.first s.parent words.old words.new result }
{
    if s.size == 0 || s.kind == kinds::DATE_TIME || s.kind == kinds::DECIMAL {
        return None;
    }
    match s.kind {
        kinds::BOOLEAN if s.size == 1 => list_of(file, words, grid, s, 1),
        kinds::CHAR if s.size == 1 => list_of(file, words, grid, s, 127),
        kinds::BOOLEAN | kinds::CHAR => None,
        _ => list_of(file, words, grid, s, 255),
    }
}

// n nullables whose values stand so.
fn of_plain(
    file: &[u8],
    words: &mut [u32],
    grid: Grid,
    slot: Plain,
    n: u32,
    at: usize,
    used: u32,
) -> Option<Reached>
    ensures { ListedAre grid file.now (kind_in slot) (size_in slot) n at used words.old words.new result }
{
    let (kind, size) = match slot {
        Plain::Fixed(kind, size) => (kind, size),
        Plain::Enum(size) => (kinds::ENUM_KIND, size),
        Plain::Char => (kinds::CHAR, 1),
        _ => {
            return None;
        }
    };
    let s = Series {
        count: n,
        kind,
        size,
        first: at,
        parent: used,
    };
    of_kind(file, words, grid, s)
}

// n values of the type at `a`, if they are nullables of one size, all there and with room for their rows.
// These begin at row `used` and have the row before it as parent.
pub fn read(
    file: &[u8],
    codes: &[u32],
    words: &mut [u32],
    grid: Grid,
    a: usize,
    n: u32,
    at: usize,
    used: u32,
    depth: u32,
) -> Option<Reached>
    ensures { ListWalks grid file.now codes.now a n at used depth words.old words.new result }
{
    if depth < 2 || codes.len() <= a || targets::kind_at(codes, a) != kinds::NULLABLE_KIND {
        return None;
    }
    match heads::slot::raw_of(codes, a + 1) {
        Slot::Simple(slot) => of_plain(file, words, grid, slot, n, at, used),
        _ => None,
    }
}
