// What is demanded of the entries over packs, as contracts: each function calls an entry, and is here for what it ensures (specs/Numbers.antt).
#![tactic(auto)]

ghost use Rattle.std.specs.Prelude.{true, false, length};
ghost use Rattle.pack_entry_theorems.specs.Numbers.{ReadNumbers, ConvertNumbers, SalvageNumbers, FindNumbers};

// A pack that is read.
pub fn read_plain(pack: &[u8], table: &mut [u64], at: &mut u64) -> u32
    ensures { ReadNumbers false pack.now (length table.old) table.new result at.new }
{
    builder::pack::xnb_pack_read(pack, table, at)
}

// A marked pack that is read.
pub fn read_marked(pack: &[u8], table: &mut [u64], at: &mut u64) -> u32
    ensures { ReadNumbers true pack.now (length table.old) table.new result at.new }
{
    builder::pack::xnb_marked_read(pack, table, at)
}

// A pack that is written with marks.
pub fn mark(pack: &[u8], out: &mut [u8], at: &mut u64) -> u32
    ensures { ConvertNumbers true pack.now out.old out.new result at.new }
{
    builder::pack::xnb_pack_mark(pack, out, at)
}

// A marked pack that is written without its marks.
pub fn unmark(pack: &[u8], out: &mut [u8], at: &mut u64) -> u32
    ensures { ConvertNumbers false pack.now out.old out.new result at.new }
{
    builder::pack::xnb_pack_unmark(pack, out, at)
}

// A damaged marked pack that is salvaged.
pub fn salvage(
    pack: &[u8],
    out: &mut [u8],
    list: &mut [u64],
    at: &mut u64,
    stretches: &mut u64,
) -> u32
    ensures { SalvageNumbers pack.now out.old list.old out.new list.new result
        at.new stretches.new }
{
    builder::pack::xnb_pack_salvage(pack, out, list, at, stretches)
}

// A file that is looked up, by a table of any words.
pub fn find(pack: &[u8], table: &[u64], path: &[u8], first: &mut u64, count: &mut u64) -> u32
    ensures { FindNumbers pack.now table.now path.now result first.new count.new }
{
    builder::pack::xnb_pack_find(pack, table, path, first, count)
}
