// Loading a file into a lent row table.
#![tactic(auto)]

mod walk;

ghost use Rattle.std.specs.Prelude.{◌≡◌, true, ◌*◌, ◌≤◌, length, take};
ghost use Rattle.layout.specs.Rows.{width};
ghost use Rattle.layout.specs.Table.{shape_of, by_columns};
ghost use Rattle.reading.specs.File.{table_of, table_in};
ghost use Rattle.names.specs.Entries.{enums_of};
ghost use Rattle.targets.specs.Code.{prelude_size};
ghost use Rattle.readers.specs.Left.{enough};
ghost use Rattle.leaves.specs.Plain.{Begin};
ghost use Rattle.heads.specs.Plans.{prelude};
ghost use Rattle.steps.specs.Known.{Known};
ghost use Rattle.load.specs.Under.{load_under};
ghost use Rattle.load.specs.Loads.{answer_of};
ghost use Rattle.load.specs.Promises.{Finishes, ObjectsLoad, Behind, ListsLoad, FileLoads, UnderLoads};

use answers::{Refusal, Rule};
use heads::nest::Nest;
use heads::prelude;
use heads::slot::Slot;
use ids::RowNumber;
use names::kinds;
use readers::{Readers, Unlisted};
use table::Grid;

// The number of rows used, the number of readers, the shared count,
// and how many bytes the seven-bit numbers of the file have beyond their shortest forms.
#[derive(Clone, Copy, Debug, PartialEq, Eq)]
pub struct Loaded {
    pub rows: u32,
    pub readers: u32,
    pub shared: u32,
    pub padding: u32,
}

// What loading a file answers.
pub type Loading = Result<Loaded, Refusal>;

// 20 after the last object, 17 last; then zeros behind the rows.
fn finish(
    file: &[u8],
    words: &mut [u32],
    grid: Grid,
    readers: u32,
    shared: u32,
    padding: u32,
    next: usize,
    used: u32,
) -> Loading
    ensures { Finishes grid file.now readers shared padding next used words.old words.new result }
{
    if next != file.len() {
        return Err(Rule::LeftOver.at(next));
    }
    if let Some(first) = resources::settle(words, grid, used) {
        return Err(Rule::ResourceType.at(first as usize));
    }
    table::clear_behind(words, grid, RowNumber(used));
    Ok(Loaded {
        rows: used,
        readers,
        shared,
        padding,
    })
}

// The primary and the shared objects, and the end of the file; the numbers before them have this padding.
fn objects(
    file: &[u8],
    codes: &[u32],
    rd: Readers,
    words: &mut [u32],
    grid: Grid,
    shared: u32,
    padding: u32,
    at: usize,
) -> Loading
    requires { Begin file.now words.old grid at 0 × Known file.now codes.now rd × (shared ≤ 256) }
    ensures { ObjectsLoad grid file.now codes.now rd shared padding at words.old words.new result }
{
    let nest = Nest::Each(Slot::Object(prelude::OBJECT), shared + 1);
    let children = walk::below(file, codes, rd, words, grid, shared, nest, at, 0, 32)?;
    let reached = children.reached;
    finish(
        file,
        words,
        grid,
        rd.count,
        shared,
        table::sum(padding, reached.padding),
        reached.next,
        reached.used,
    )
}

// The types that fonts, pages and meshes declare, at the start of the codes.
fn put_prelude(codes: &mut [u32])
    requires { prelude_size ≤ length codes.old }
    ensures { take prelude_size codes.new ≡ prelude }
{
    codes[prelude::TEXTURE_2D] = kinds::TEXTURE_2D;
    codes[prelude::RECTANGLES] = kinds::LIST;
    codes[prelude::LISTED_RECTANGLE] = kinds::RECTANGLE;
    codes[prelude::CHARS] = kinds::LIST;
    codes[prelude::LISTED_CHAR] = kinds::CHAR;
    codes[prelude::VECTORS] = kinds::LIST;
    codes[prelude::LISTED_VECTOR] = kinds::VECTOR_3;
    codes[prelude::STRING] = kinds::STRING;
    codes[prelude::NULLABLE_CHAR] = kinds::NULLABLE;
    codes[prelude::WRAPPED_CHAR] = kinds::CHAR;
    codes[prelude::OBJECT] = kinds::OBJECT;
    codes[prelude::VERTEX_DECLARATION] = kinds::VERTEX_DECLARATION;
}

// What stands behind the header, where the codes suffice for the file's readers.
fn listed(
    file: &[u8],
    enums: &[u8],
    codes: &mut [u32],
    words: &mut [u32],
    grid: Grid,
    at: usize,
) -> Loading
    requires { Behind file.now words.old grid at × (prelude_size ≤ length codes.old) × (enough file.now at (length codes.old) ≡ true) }
    ensures { ListsLoad grid (enums_of enums.now) file.now at words.old words.new result }
{
    let mut targets = [0u16; 64];
    let mut starts = [0u16; 64];
    put_prelude(codes);
    match readers::read_lists(file, enums, codes, &mut targets, &mut starts) {
        Err(unlisted) => match unlisted {
            Unlisted::NoRoom => Err(Rule::PastEnd.at(at)),
            Unlisted::Refused(refusal) => Err(refusal),
        },
        Ok(lists) => {
            let rd = Readers {
                targets,
                starts,
                count: lists.readers,
            };
            objects(
                file,
                codes,
                rd,
                words,
                grid,
                lists.shared,
                lists.padding,
                lists.next,
            )
        }
    }
}

// The same with N codes: no more are cleared than the readers need.
fn listed_with<const N: usize>(
    file: &[u8],
    enums: &[u8],
    words: &mut [u32],
    grid: Grid,
    at: usize,
) -> Loading
    requires { Behind file.now words.old grid at × (prelude_size ≤ N) × (N ≤ 6058) × (enough file.now at N ≡ true) }
    ensures { ListsLoad grid (enums_of enums.now) file.now at words.old words.new result }
{
    let mut codes = [0u32; N];
    listed(file, enums, &mut codes, words, grid, at)
}

// What stands behind the header, with codes for no readers, for one, for at most 8, or for at most 64.
fn lists(file: &[u8], enums: &[u8], words: &mut [u32], grid: Grid, at: usize) -> Loading
    requires { Behind file.now words.old grid at }
    ensures { ListsLoad grid (enums_of enums.now) file.now at words.old words.new result }
{
    match readers::reader_count(file, at) {
        Err(_) => listed_with::<12>(file, enums, words, grid, at),
        Ok(count) => match count.value {
            0 => listed_with::<12>(file, enums, words, grid, at),
            1 => listed_with::<199>(file, enums, words, grid, at),
            2..=8 => listed_with::<850>(file, enums, words, grid, at),
            _ => listed_with::<6058>(file, enums, words, grid, at),
        },
    }
}

// The file, where the words have room for so many rows; of the list of enum types nothing is judged.
fn load_rows(file: &[u8], enums: &[u8], words: &mut [u32], grid: Grid) -> Loading
    requires { width * grid.room ≤ length words.old }
    ensures { FileLoads grid (enums_of enums.now) file.now words.old words.new result }
{
    let header = header::header(file)?;
    lists(file, enums, words, grid, header.next)
}

// The list of enum types, and the file under it.
fn load_under(file: &[u8], enums: &[u8], words: &mut [u32], grid: Grid) -> Loading
    requires { width * grid.room ≤ length words.old }
    ensures { UnderLoads grid enums.now file.now words.old words.new result }
{
    enums::judge(enums)?;
    load_rows(file, enums, words, grid)
}

// Loads a file into the words, by rows or in columns, under a list of enum types: its rows, and zeros elsewhere; only zeros after a refusal.
pub fn load_in(file: &[u8], enums: &[u8], words: &mut [u32], columns: bool) -> Loading
    ensures value { result ≡ answer_of file.now (load_under enums.now file.now (length words.old)) }
    ensures words_after { words.new
        ≡ table_in (shape_of columns) (load_under enums.now file.now (length words.old)) (length words.old) }
{
    let grid = table::shaped(words.len(), columns);
    let loaded = load_under(file, enums, words, grid);
    if loaded.is_err() {
        fill::clear(words, 0);
    }
    loaded
}

// Loads a file into the words, under a list of enum types: its rows, then zeros; only zeros after a refusal.
pub fn load(file: &[u8], enums: &[u8], words: &mut [u32]) -> Loading
    ensures value { result ≡ answer_of file.now (load_under enums.now file.now (length words.old)) }
    ensures words_after { words.new
        ≡ table_of (load_under enums.now file.now (length words.old)) (length words.old) }
{
    load_in(file, enums, words, false)
}

// Loads a file into the words in columns: all kinds, then all first bytes, and so on; only zeros after a refusal.
pub fn load_columns(file: &[u8], enums: &[u8], words: &mut [u32]) -> Loading
    ensures value { result ≡ answer_of file.now (load_under enums.now file.now (length words.old)) }
    ensures words_after { words.new
        ≡ table_in by_columns (load_under enums.now file.now (length words.old)) (length words.old) }
{
    load_in(file, enums, words, true)
}
