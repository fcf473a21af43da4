// The C symbols over packs: each answers a refusal's number or 0, and writes 64-bit numbers.
ghost use Rattle.std.specs.Prelude.{◌≡◌, length};
ghost use Rattle.reading.specs.Output.{output_of};
ghost use Rattle.pack_layout.specs.Pack.{plain, marked};
ghost use Rattle.pack_reading.specs.Pack.{pack_of, table_for};
ghost use Rattle.pack_reading.specs.Lookup.{find_of};
ghost use Rattle.pack_writing.specs.Convert.{convert_of};
ghost use Rattle.pack_salvage.specs.Salvage.{salvage_for, output_for, list_for};
ghost use Rattle.pack_told.specs.Told.{pack_told, written_told, salvage_told, found_told};

// Reads a pack into the table.
#[unsafe(no_mangle)]
pub extern "C" fn xnb_pack_read(pack: &[u8], table: &mut [u64], at: &mut u64) -> u32
    ensures at_after { (result, at.new) ≡ pack_told (pack_of plain pack.now (length table.old)) }
    ensures table_after { table.new ≡ table_for plain pack.now (length table.old) }
{
    builder::pack::xnb_pack_read(pack, table, at)
}

// Reads a marked pack into the table.
#[unsafe(no_mangle)]
pub extern "C" fn xnb_marked_read(pack: &[u8], table: &mut [u64], at: &mut u64) -> u32
    ensures at_after { (result, at.new) ≡ pack_told (pack_of marked pack.now (length table.old)) }
    ensures table_after { table.new ≡ table_for marked pack.now (length table.old) }
{
    builder::pack::xnb_marked_read(pack, table, at)
}

// Writes a pack with a mark before each file record.
#[unsafe(no_mangle)]
pub extern "C" fn xnb_pack_mark(pack: &[u8], out: &mut [u8], at: &mut u64) -> u32
    ensures at_after { (result, at.new) ≡ written_told (convert_of plain marked pack.now (length out.old)) }
    ensures out_after { out.new ≡ output_of (convert_of plain marked pack.now (length out.old)) out.old }
{
    builder::pack::xnb_pack_mark(pack, out, at)
}

// Writes a marked pack without its marks.
#[unsafe(no_mangle)]
pub extern "C" fn xnb_pack_unmark(pack: &[u8], out: &mut [u8], at: &mut u64) -> u32
    ensures at_after { (result, at.new) ≡ written_told (convert_of marked plain pack.now (length out.old)) }
    ensures out_after { out.new ≡ output_of (convert_of marked plain pack.now (length out.old)) out.old }
{
    builder::pack::xnb_pack_unmark(pack, out, at)
}

// Writes a marked pack of the records that a damaged one still holds, and the list of the skipped stretches, with the length of each.
#[unsafe(no_mangle)]
pub extern "C" fn xnb_pack_salvage(
    pack: &[u8],
    out: &mut [u8],
    list: &mut [u64],
    at: &mut u64,
    stretches: &mut u64,
) -> u32
    ensures stretches_after { (result, at.new, stretches.new) ≡ salvage_told (salvage_for pack.now out.old list.old) }
    ensures out_after { out.new ≡ output_for pack.now out.old list.old }
    ensures list_after { list.new ≡ list_for pack.now out.old list.old }
{
    builder::pack::xnb_pack_salvage(pack, out, list, at, stretches)
}

// Finds the data of the first file of a path, and writes where it starts and how many bytes it has: the answer is 1, or 0 where there is none.
#[unsafe(no_mangle)]
pub extern "C" fn xnb_pack_find(
    pack: &[u8],
    table: &[u64],
    path: &[u8],
    first: &mut u64,
    count: &mut u64,
) -> u32
    ensures { (result, first.new, count.new) ≡ found_told (find_of pack.now table.now path.now) }
{
    builder::pack::xnb_pack_find(pack, table, path, first, count)
}
