// What the entries over packs tell: each function answers a refusal's number or 0, and writes 64-bit numbers.
#![tactic(auto)]

ghost use Rattle.std.specs.Prelude.{◌≡◌, length};
ghost use Rattle.pack_layout.specs.Pack.{mark_of};
ghost use Rattle.reading.specs.Output.{output_of};
ghost use Rattle.pack_reading.specs.Pack.{pack_of, table_for};
ghost use Rattle.pack_reading.specs.Lookup.{find_of};
ghost use Rattle.marks.specs.Converting.{converted};
ghost use Rattle.pack_salvage.specs.Salvage.{salvage_for, output_for, list_for};
ghost use Rattle.pack_told.specs.Told.{number_told, pack_told, written_told, salvage_told, found_told};

use answers::Refusal;

// Writes a number, or a refusal's place: the answer is the refusal's number, or 0.
// Kept: the number goes behind `&mut`, as C takes it (C interface).
pub fn tell(answer: Result<usize, Refusal>, at: &mut u64) -> u32
    ensures { (result, at.new) ≡ number_told answer }
{
    match answer {
        Err(refusal) => {
            *at = refusal.place as u64;
            refusal.number
        }
        Ok(number) => {
            *at = number as u64;
            0
        }
    }
}

// Reads a pack of either form into the table, and writes the number of files, or a refusal's place: the answer is the refusal's number, or 0.
pub fn read_told(pack: &[u8], table: &mut [u64], marked: bool, at: &mut u64) -> u32
    ensures at_after { (result, at.new) ≡ pack_told (pack_of (mark_of marked) pack.now (length table.old)) }
    ensures table_after { table.new ≡ table_for (mark_of marked) pack.now (length table.old) }
{
    tell(packs::read(pack, table, marked), at)
}

// Converts a pack to the form `marked`, and writes the output's length, or a refusal's place: the answer is the refusal's number, or 0.
pub fn convert_told(pack: &[u8], out: &mut [u8], marked: bool, at: &mut u64) -> u32
    ensures at_after { (result, at.new) ≡ written_told (converted marked pack.now (length out.old)) }
    ensures out_after { out.new ≡ output_of (converted marked pack.now (length out.old)) out.old }
{
    tell(marks::convert(pack, out, marked), at)
}

// Writes a marked pack of the records that a damaged one still holds, and the list of the skipped stretches, with the length of each.
pub fn salvage_told(
    pack: &[u8],
    out: &mut [u8],
    list: &mut [u64],
    at: &mut u64,
    stretches: &mut u64,
) -> u32
    ensures stretches_after { (result, at.new, stretches.new) ≡ salvage_told (salvage_for pack.now out.old list.old) }
    ensures out_after { out.new ≡ output_for pack.now out.old list.old }
    ensures list_after { list.new ≡ list_for pack.now out.old list.old }
{
    match salvage::salvage(pack, out, list) {
        Err(refusal) => {
            *stretches = 0;
            tell(Err(refusal), at)
        }
        Ok(salvaged) => {
            *stretches = salvaged.stretches as u64;
            tell(Ok(salvaged.length), at)
        }
    }
}

// Finds the data of the first file of a path, and writes where it starts and how many bytes it has: the answer is 1, or 0 where there is none.
pub fn find_told(pack: &[u8], table: &[u64], path: &[u8], first: &mut u64, count: &mut u64) -> u32
    ensures { (result, first.new, count.new) ≡ found_told (find_of pack.now table.now path.now) }
{
    match pack_lookup::find(pack, table, path) {
        None => {
            *first = 0;
            *count = 0;
            0
        }
        Some(part) => {
            *first = part.first as u64;
            *count = part.count as u64;
            1
        }
    }
}
