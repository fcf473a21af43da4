// Exporting a file as XML (Req 13): load, judge the primary, judge the texts by their rows, and write.
#![tactic(auto)]

mod escape;

ghost use Rattle.std.specs.Prelude.{◌≡◌, true, ℕ, ◌+◌, ◌-◌, ◌≤◌, length};
ghost use Rattle.readers.specs.Left.{enough};
ghost use Rattle.lookups.specs.Texts.{rows_text};
ghost use Rattle.xml_escape.specs.Wrote.{PutTo};
ghost use Rattle.xml_layout.specs.Xml.{items};
ghost use Rattle.xml_export.specs.Rows.{row_texts};
ghost use Rattle.xml_export.specs.Gathering.{size_at, measured, Fits, RowFits, RowPut, ItemsPut, Writes};
ghost use Rattle.xml_export.specs.Primary.{OfTexts, TextsReader};
ghost use Rattle.xml_export.specs.Contract.{Judged, Refuses, Answers, answer_of};
ghost use Rattle.xml_export.specs.Under.{exported, output_left, words_left};

use answers::{Refusal, Rule};
use ids::RowNumber;
use names::kinds;
use table::Table;

// How many bytes the text of a row has in the XML; refused where there is none, or a character of it is not written.
fn row_size(file: &[u8], words: &[u32], row: u32) -> Result<usize, Refusal>
    requires { length file.now ≤ 16777216 }
    ensures { result ≡ size_at file.now (rows_text file.now words.now row) row }
{
    let place = row as usize;
    match lookups::text(file, Table::by_rows(words), RowNumber(row)) {
        Err(_) => Err(Rule::NullText.at(place)),
        Ok(text) => {
            let size = escape::text_size(file, text.first, text.length);
            size.ok_or(Rule::NotInXml.at(place))
        }
    }
}

// Judges the texts of the rows behind the first, and measures the XML.
fn measure(file: &[u8], words: &[u32], rows: u32) -> Result<usize, Refusal>
    requires { length file.now ≤ 16777216 }
    ensures { result ≡ measured (row_texts file.now words.now (rows - 1) 1) }
{
    let mut size = 94;
    for i in 1..rows {
        size += 13 + row_size(file, words, i)?;
    }
    Ok(size)
}

// The item of a row's text into the output; answers where it ends.
fn put_row(file: &[u8], words: &[u32], out: &mut [u8], row: u32, to: usize) -> usize
    requires { RowFits file.now (rows_text file.now words.now row) to (length out.old) }
    ensures { RowPut file.now (rows_text file.now words.now row) to out.old out.new result }
{
    match lookups::text(file, Table::by_rows(words), RowNumber(row)) {
        Err(_) => to,
        Ok(text) => escape::put_item(file, out, text.first, text.length, to),
    }
}

// The items of the rows behind the first, into the output from byte 73 on; answers where they end.
fn put_rows(file: &[u8], words: &[u32], out: &mut [u8], rows: u32) -> usize
    requires { Fits file.now words.now rows (length out.old) }
    ensures { ItemsPut file.now words.now rows out.old out.new result }
{
    let mut to = 73;
    for i in 1..rows {
        to = put_row(file, words, out, i, to);
    }
    to
}

// The XML into the output.
fn write(file: &[u8], words: &[u32], out: &mut [u8], rows: u32)
    requires { Fits file.now words.now rows (length out.old) }
    ensures { Writes file.now words.now rows out.old out.new }
{
    let start = b"<?xml version=\"1.0\" encoding=\"utf-8\"?><XnaContent><Asset Type=\"string[]\">";
    fill::copy(out, 0, start, 0, 73);
    let end = put_rows(file, words, out, rows);
    fill::copy(out, end, b"</Asset></XnaContent>", 0, 21);
}

// Whether the codes at a place are those of an Array of String.
fn of_texts(codes: &[u32], place: u16) -> bool
    ensures { OfTexts codes.now place result }
{
    let at = place as usize;
    if targets::kind_at(codes, at) != kinds::ARRAY_KIND {
        return false;
    }
    targets::kind_at(codes, at + 1) == kinds::STRING
}

// Whether the reader that a type id names is one of Arrays of String, where the codes suffice for the file's readers.
fn listed_reader(file: &[u8], enums: &[u8], codes: &mut [u32], id: u32) -> bool
    requires { (length file.now ≤ 16777216) × (enough file.now 10 (length codes.old) ≡ true) }
    ensures { TextsReader enums.now file.now id result }
{
    if id == 0 {
        return false;
    }
    let i = (id - 1) as usize;
    let mut targets = [0u16; 64];
    let mut starts = [0u16; 64];
    match readers::read_lists(file, enums, codes, &mut targets, &mut starts) {
        Err(_) => false,
        Ok(_) => {
            if 64 <= i {
                return false;
            }
            of_texts(codes, targets[i])
        }
    }
}

// The same with so many codes, where they suffice: no more are cleared.
fn of_codes<const CODES: usize>(file: &[u8], enums: &[u8], id: u32) -> bool
    requires { (length file.now ≤ 16777216) × (CODES ≤ 6058) × (enough file.now 10 CODES ≡ true) }
    ensures { TextsReader enums.now file.now id result }
{
    let mut codes = [0u32; CODES];
    listed_reader(file, enums, &mut codes, id)
}

// Whether the reader that a type id names is one of Arrays of String: with the codes for at most 2 readers, at most 8, and at most 64.
fn texts_reader(file: &[u8], enums: &[u8], id: u32) -> bool
    requires { length file.now ≤ 16777216 }
    ensures { TextsReader enums.now file.now id result }
{
    match readers::reader_count(file, readers::START) {
        Err(_) => of_codes::<292>(file, enums, id),
        Ok(count) => {
            if count.value <= 2 {
                return of_codes::<292>(file, enums, id);
            }
            if count.value <= 8 {
                return of_codes::<850>(file, enums, id);
            }
            of_codes::<6058>(file, enums, id)
        }
    }
}

// Whether the primary of a loaded file is an Array of String, with no shared objects.
fn is_list(file: &[u8], enums: &[u8], words: &[u32], rows: u32, shared: u32) -> bool
    requires { length file.now ≤ 16777216 }
    ensures { Judged enums.now file.now words.now rows shared result }
{
    if shared != 0 {
        return false;
    }
    let id = Table::by_rows(words).word(RowNumber(0), table::DETAIL);
    texts_reader(file, enums, id)
}

// A refusal behind a load: the words are cleared.
fn refuse(words: &mut [u32], refusal: Refusal) -> Result<usize, Refusal>
    ensures { Refuses refusal words.old words.new result }
{
    fill::clear(words, 0);
    Err(refusal)
}

// The answer for a loaded file, by whether its primary is an Array of String, with no shared objects.
fn answer(
    file: &[u8],
    words: &mut [u32],
    out: &mut [u8],
    rows: u32,
    list: bool,
) -> Result<usize, Refusal>
    requires { length file.now ≤ 16777216 }
    ensures { Answers file.now words.old words.new out.old out.new rows list result }
{
    if !list {
        let first = Table::by_rows(words).word(RowNumber(0), table::FIRST);
        return refuse(words, Rule::NotTextArray.at(first as usize));
    }
    match measure(file, words, rows) {
        Err(refusal) => refuse(words, refusal),
        Ok(size) => {
            if out.len() < size {
                return refuse(words, Rule::OutputTooSmall.at(size));
            }
            write(file, words, out, rows);
            Ok(size)
        }
    }
}

// Loads a file into the words, under a list of enum types, and writes the XML of its texts into the output; answers its length.
pub fn export(
    file: &[u8],
    enums: &[u8],
    words: &mut [u32],
    out: &mut [u8],
) -> Result<usize, Refusal>
    ensures value { result ≡ answer_of (exported enums.now file.now words.old out.old) }
    ensures out_after { out.new ≡ output_left enums.now file.now words.old out.old }
    ensures words_after { words.new ≡ words_left enums.now file.now words.old out.old }
{
    let loaded = load::load(file, enums, words)?;
    let list = is_list(file, enums, words, loaded.rows, loaded.shared);
    answer(file, words, out, loaded.rows, list)
}
