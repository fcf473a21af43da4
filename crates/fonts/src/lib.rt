// The font rule (01, refusal 22), judged by the file and the rows of the font's children in the words.
#![tactic(auto)]

ghost use Rattle.std.specs.Prelude.{◌≡◌};
ghost use Rattle.fonts.specs.FontWords.{beyond, row_after, some, equal, code_at, rising_rows, all_there, all_equal, font_words};

use ids::RowNumber;
use table::Table;
use text::char_at;

// The rows of a font's objects that its rule speaks of.
#[derive(Clone, Copy, Debug, PartialEq, Eq)]
struct Parts {
    texture: RowNumber,
    glyphs: RowNumber,
    cropping: RowNumber,
    characters: RowNumber,
    kerning: RowNumber,
}

// Whether the font of a row, whose children's rows are in the words, keeps its rule.
pub fn font_rule(file: &[u8], table: Table, row: RowNumber) -> bool
    ensures { result ≡ font_words table.entry.grid file.now table.entry.words.now row.0 }
{
    let texture = row_beyond(row, 1);
    let glyphs = row_after(table, texture);
    let cropping = row_after(table, glyphs);
    let characters = row_after(table, cropping);
    let kerning = row_beyond(row_after(table, characters), 2);
    let parts = Parts {
        texture,
        glyphs,
        cropping,
        characters,
        kerning,
    };
    let count = table.word(characters, table::CHILDREN);
    if !all_there(table, parts) {
        return false;
    }
    if !all_equal(table, parts) {
        return false;
    }
    rising(file, table, row_beyond(characters, 1), count)
}

// No object is null.
fn all_there(table: Table, parts: Parts) -> bool
    ensures { result ≡ all_there table.entry.grid table.entry.words.now
        parts.texture.0 parts.glyphs.0 parts.cropping.0 parts.characters.0 parts.kerning.0 }
{
    if !filled(table, parts.texture) {
        return false;
    }
    if !filled(table, parts.glyphs) {
        return false;
    }
    if !filled(table, parts.cropping) {
        return false;
    }
    if !filled(table, parts.characters) {
        return false;
    }
    filled(table, parts.kerning)
}

// The four lists have equal counts.
fn all_equal(table: Table, parts: Parts) -> bool
    ensures { result ≡ all_equal table.entry.grid table.entry.words.now
        parts.glyphs.0 parts.cropping.0 parts.characters.0 parts.kerning.0 }
{
    if !equal_counts(table, parts.glyphs, parts.characters) {
        return false;
    }
    if !equal_counts(table, parts.cropping, parts.characters) {
        return false;
    }
    equal_counts(table, parts.kerning, parts.characters)
}

// A row's value is not null.
fn filled(table: Table, row: RowNumber) -> bool
    ensures { result ≡ some table.entry.grid table.entry.words.now row.0 }
{
    0 < table.word(row, table::KIND)
}

// Two rows' values have equal numbers of children.
fn equal_counts(table: Table, a: RowNumber, b: RowNumber) -> bool
    ensures { result ≡ equal table.entry.grid table.entry.words.now a.0 b.0 }
{
    table.word(a, table::CHILDREN) == table.word(b, table::CHILDREN)
}

// The characters of `n` rows from `first` on rise strictly.
fn rising(file: &[u8], table: Table, first: RowNumber, n: u32) -> bool
    ensures { result ≡ rising_rows table.entry.grid file.now table.entry.words.now n first.0 }
{
    let mut row = first;
    let mut before = code(file, table, row);
    for _ in 1..n {
        row = row_beyond(row, 1);
        let next = code(file, table, row);
        if next <= before {
            return false;
        }
        before = next;
    }
    true
}

// The character at a row's first byte, or 0.
fn code(file: &[u8], table: Table, row: RowNumber) -> u64
    ensures { result ≡ code_at table.entry.grid file.now table.entry.words.now row.0 }
{
    let first = table.word(row, table::FIRST) as usize;
    match char_at(file, first) {
        Err(_) => 0,
        Ok(read) => read.value,
    }
}

// The row after a value and all below it.
fn row_after(table: Table, row: RowNumber) -> RowNumber
    ensures { result.0 ≡ row_after table.entry.grid table.entry.words.now row.0 }
{
    row_beyond(row, table.word(row, table::BRANCH))
}

// The row `n` rows after another; the number of a row in the room fits, any other is its remainder by 2 to the 32.
fn row_beyond(row: RowNumber, n: u32) -> RowNumber
    ensures { result.0 ≡ beyond row.0 n }
{
    RowNumber(row.0.wrapping_add(n))
}
