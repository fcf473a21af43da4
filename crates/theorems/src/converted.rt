// What is demanded of converting packs, as contracts: each function calls the code, and is here for what it ensures (specs/Marks.antt).
ghost use Rattle.std.specs.Prelude.{◌≡◌, length};
ghost use Rattle.marks.specs.Converting.{converted, answer_of};
ghost use Rattle.theorems.specs.Marks.{Converts, ConvertsBack, FindsSame};

use answers::Refusal;
use pack_lookup::Part;

// A pack that is converted to the form `marked`: the demand, and the answer of the code, which fixes a refusal.
pub fn convert_exact(pack: &[u8], out: &mut [u8], marked: bool) -> Result<usize, Refusal>
    ensures converts { Converts marked pack.now out.old out.new result }
    ensures value { result ≡ answer_of (converted marked pack.now (length out.old)) }
{
    marks::convert(pack, out, marked)
}

// A pack that is converted to the form `marked` and then back, into a second output.
fn there_and_back(
    pack: &[u8],
    out: &mut [u8],
    second: &mut [u8],
    marked: bool,
) -> Result<usize, Refusal>
    ensures { ConvertsBack marked pack.now (length out.old) second.old second.new result }
{
    let n = convert_exact(pack, out, marked)?;
    convert_exact(&out[..n], second, !marked)
}

// Where the data of a path stands in a pack, and where in the converted one.
#[derive(Clone, Copy, Debug, PartialEq, Eq)]
pub struct FoundBoth {
    given: Option<Part>,
    new: Option<Part>,
}

// A file that is looked up in a pack, and in the same pack converted to the form `marked`.
fn find_both(pack: &[u8], out: &mut [u8], table: &mut [u64], path: &[u8], marked: bool) -> FoundBoth
    ensures { FindsSame marked pack.now (length out.old) (length table.old)
        path.now out.new result }
{
    let _ = packs::read(pack, table, !marked);
    let given = pack_lookup::find(pack, table, path);
    match convert_exact(pack, out, marked) {
        Err(_) => FoundBoth { given, new: None },
        Ok(n) => {
            let _ = packs::read(&out[..n], table, marked);
            let new = pack_lookup::find(&out[..n], table, path);
            FoundBoth { given, new }
        }
    }
}
