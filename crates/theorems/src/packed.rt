// What is demanded of packs, as contracts: each function calls the code, and is here for what it ensures (specs/Packs.antt).
ghost use Rattle.std.specs.Prelude.{◌≡◌, length};
ghost use Rattle.pack_layout.specs.Pack.{mark_of};
ghost use Rattle.pack_reading.specs.Pack.{pack_of};
ghost use Rattle.packs.specs.Files.{answer_of};
ghost use Rattle.pack_load.specs.Opened.{opened_of};
ghost use Rattle.theorems.specs.Packs.{Reads, Finds, Opens, Gives};

use answers::Refusal;
use load::Loading;
use pack_lookup::Part;

// `read_exact` and `open_exact` have two contracts, as `load_exact` has: the demand, with no reading in it, and the answer of the code, which fixes a refusal.

// A pack that is read.
pub fn read_exact(pack: &[u8], table: &mut [u64], marked: bool) -> Result<usize, Refusal>
    ensures reads { Reads marked pack.now (length table.old) table.new result }
    ensures value { result ≡ answer_of (pack_of (mark_of marked) pack.now (length table.old)) }
{
    packs::read(pack, table, marked)
}

// A file that is looked up.
pub fn find_exact(pack: &[u8], table: &[u64], path: &[u8]) -> Option<Part>
    ensures { Finds pack.now table.now path.now result }
{
    pack_lookup::find(pack, table, path)
}

// A file of a pack that is loaded, under a list of enum types.
pub fn open_exact(
    pack: &[u8],
    table: &[u64],
    path: &[u8],
    enums: &[u8],
    words: &mut [u32],
) -> Option<Loading>
    ensures opens { Opens enums.now pack.now table.now path.now
        (length words.old) words.new result }
    ensures value { result ≡ opened_of enums.now pack.now table.now path.now (length words.old) }
{
    pack_load::load_found(pack, table, path, enums, words)
}

// A file that is looked up in the table that reading the pack left.
fn read_and_find(pack: &[u8], table: &mut [u64], path: &[u8], marked: bool) -> Option<Part>
    ensures { Gives marked pack.now (length table.old) path.now result }
{
    let _ = packs::read(pack, table, marked);
    pack_lookup::find(pack, table, path)
}
