// What is demanded of the entries that load and rewrite, as contracts: each function calls an entry, and is here for what it ensures (specs/Told.antt,
// and specs/Refusals.antt for which refusal it is).
#![tactic(auto)]

ghost use Rattle.std.specs.Prelude.{[], ◌*◌, length};
ghost use Rattle.layout.specs.Rows.{width};
ghost use Rattle.layout.specs.Table.{by_rows, by_columns};
ghost use Rattle.entry_theorems.specs.Told.{TellsLoad, Fills, TellsRewrite};
ghost use Rattle.entry_theorems.specs.Refusals.{TellsRefusal, TellsRewriteRefusal};

// A file that is loaded with room for 1,024 rows and no enum types listed.
pub fn load_told(file: &[u8]) -> u64
    ensures tells_load { TellsLoad [] file.now (1024 * width) result }
    ensures tells_refusal { TellsRefusal [] file.now (1024 * width) result }
{
    builder::xnb_load(file)
}

// A file that is loaded by rows, under a list of enum types.
pub fn load_rows_told(
    file: &[u8],
    enums: &[u8],
    words: &mut [u32],
    readers: &mut u32,
    shared: &mut u32,
    padding: &mut u32,
) -> u64
    ensures tells_load { TellsLoad enums.now file.now (length words.old) result }
    ensures tells_refusal { TellsRefusal enums.now file.now (length words.old) result }
    ensures fills { Fills by_rows enums.now file.now (length words.old)
        words.new readers.new shared.new padding.new }
{
    builder::xnb_load_rows(file, enums, words, readers, shared, padding)
}

// A file that is loaded in columns, under a list of enum types.
pub fn load_columns_told(
    file: &[u8],
    enums: &[u8],
    words: &mut [u32],
    readers: &mut u32,
    shared: &mut u32,
    padding: &mut u32,
) -> u64
    ensures tells_load { TellsLoad enums.now file.now (length words.old) result }
    ensures tells_refusal { TellsRefusal enums.now file.now (length words.old) result }
    ensures fills { Fills by_columns enums.now file.now (length words.old)
        words.new readers.new shared.new padding.new }
{
    builder::by_columns::xnb_load_columns(file, enums, words, readers, shared, padding)
}

// A file that is rewritten, under a list of enum types.
pub fn rewrite_told(file: &[u8], enums: &[u8], words: &mut [u32], out: &mut [u8]) -> u64
    ensures tells_rewrite { TellsRewrite enums.now file.now (length words.old) words.new
        out.old out.new result }
    ensures tells_rewrite_refusal { TellsRewriteRefusal enums.now file.now (length words.old) (length out.old) result }
{
    builder::xnb_rewrite(file, enums, words, out)
}
