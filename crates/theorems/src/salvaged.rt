// What is demanded of salvaging packs, as contracts: each function calls the code, and is here for what it ensures (specs/Salvage.antt).
ghost use Rattle.std.specs.Prelude.{length};
ghost use Rattle.theorems.specs.Salvage.{Salvages, ReadsSalvaged, SalvagesTwice};

use answers::Refusal;
use salvage::Salvaged;

// A damaged marked pack that is salvaged.
pub fn salvage_exact(pack: &[u8], out: &mut [u8], list: &mut [u64]) -> Result<Salvaged, Refusal>
    ensures { Salvages pack.now out.old list.old out.new list.new result }
{
    salvage::salvage(pack, out, list)
}

// A pack that is salvaged and then read.
fn salvage_and_read(
    pack: &[u8],
    out: &mut [u8],
    list: &mut [u64],
    table: &mut [u64],
) -> Result<usize, Refusal>
    ensures { ReadsSalvaged pack.now out.old list.old (length table.old) table.new result }
{
    let salvaged = salvage_exact(pack, out, list)?;
    packs::read(&out[..salvaged.length], table, true)
}

// A pack that is salvaged and then salvaged again, into a second output.
fn salvage_twice(
    pack: &[u8],
    out: &mut [u8],
    list: &mut [u64],
    second: &mut [u8],
) -> Result<Salvaged, Refusal>
    ensures { SalvagesTwice pack.now out.old list.old list.new
        second.old second.new result }
{
    let salvaged = salvage_exact(pack, out, list)?;
    salvage_exact(&out[..salvaged.length], second, list)
}
