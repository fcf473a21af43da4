// The C symbols of the entries: each calls builder's function of its name, and states its clauses again.
#![tactic(auto)]

mod by_columns;
mod driver_entry;
mod pack;
mod report;
mod version;
mod xml;

ghost use Rattle.std.specs.Prelude.{◌≡◌, [], ◌*◌, length};
ghost use Rattle.layout.specs.Rows.{width};
ghost use Rattle.reading.specs.File.{table_of};
ghost use Rattle.load.specs.Under.{load_under};
ghost use Rattle.branches.specs.Next.{rows_next};
ghost use Rattle.lookups.specs.Parts.{rows_part};
ghost use Rattle.lookups.specs.Texts.{rows_text};
ghost use Rattle.lookups.specs.Signs.{rows_signed};
ghost use Rattle.lookups.specs.Times.{rows_time};
ghost use Rattle.rewrite.specs.Whole.{rewritten, output_left, words_left};
ghost use Rattle.builder.specs.Packed.{packed, rewrite_packed};
ghost use Rattle.builder.specs.Told.{load_told, span_told, signed_told, time_told};

// Loads a file with room for 1,024 rows and no enum types listed: the refusal's number times 2 to the 32 plus its place, or the number of rows.
#[unsafe(no_mangle)]
pub extern "C" fn xnb_load(file: &[u8]) -> u64
    ensures { result ≡ packed (load_under [] file.now (1024 * width)) }
{
    builder::xnb_load(file)
}

// Loads a file into the words, under a list of enum types.
#[unsafe(no_mangle)]
pub extern "C" fn xnb_load_rows(
    file: &[u8],
    enums: &[u8],
    words: &mut [u32],
    readers: &mut u32,
    shared: &mut u32,
    padding: &mut u32,
) -> u64
    ensures padding_after { (result, readers.new, shared.new, padding.new)
        ≡ load_told file.now (load_under enums.now file.now (length words.old)) }
    ensures words_after { words.new
        ≡ table_of (load_under enums.now file.now (length words.old)) (length words.old) }
{
    builder::xnb_load_rows(file, enums, words, readers, shared, padding)
}

// Rewrites a file into the output, under a list of enum types: a refusal is packed as above, else the answer is the length of the rewritten file.
#[unsafe(no_mangle)]
pub extern "C" fn xnb_rewrite(file: &[u8], enums: &[u8], words: &mut [u32], out: &mut [u8]) -> u64
    ensures value { result ≡ rewrite_packed (rewritten enums.now file.now words.old out.old) }
    ensures out_after { out.new ≡ output_left enums.now file.now words.old out.old }
    ensures words_after { words.new ≡ words_left enums.now file.now words.old out.old }
{
    builder::xnb_rewrite(file, enums, words, out)
}

// The part of the file that a row names.
#[unsafe(no_mangle)]
pub extern "C" fn xnb_part(
    file: &[u8],
    words: &[u32],
    row: u32,
    first: &mut usize,
    len: &mut usize,
) -> u32
    ensures { (result, first.new, len.new) ≡ span_told (rows_part file.now words.now row) }
{
    builder::xnb_part(file, words, row, first, len)
}

// The number of the row behind a row and all below it, 0 where there is none in the room.
#[unsafe(no_mangle)]
pub extern "C" fn xnb_next(words: &[u32], row: u32) -> u32
    ensures { result ≡ rows_next words.now row }
{
    builder::xnb_next(words, row)
}

// The bytes of a text.
#[unsafe(no_mangle)]
pub extern "C" fn xnb_text(
    file: &[u8],
    words: &[u32],
    row: u32,
    first: &mut usize,
    len: &mut usize,
) -> u32
    ensures { (result, first.new, len.new) ≡ span_told (rows_text file.now words.now row) }
{
    builder::xnb_text(file, words, row, first, len)
}

// The signed number of a row.
#[unsafe(no_mangle)]
pub extern "C" fn xnb_signed(file: &[u8], words: &[u32], row: u32, value: &mut i64) -> u32
    ensures { (result, value.new) ≡ signed_told (rows_signed file.now words.now row) }
{
    builder::xnb_signed(file, words, row, value)
}

// The time of a row in seconds and ticks.
#[unsafe(no_mangle)]
pub extern "C" fn xnb_time(
    file: &[u8],
    words: &[u32],
    row: u32,
    seconds: &mut i64,
    ticks: &mut u32,
) -> u32
    ensures { (result, seconds.new, ticks.new) ≡ time_told (rows_time file.now words.now row) }
{
    builder::xnb_time(file, words, row, seconds, ticks)
}
