// What is demanded of loading and rewriting, as contracts: each function calls the code, and is here for what it ensures
// (specs/Loading.antt and specs/Rewriting.antt, from top to bottom; of padding, padded.rt and specs/Padding.antt;
// of columns, columned.rt and specs/Columns.antt, spanned.rt and specs/Bytes.antt; of a row and all below it, branched.rt and specs/Branches.antt;
// of packs, packed.rt and specs/Packs.antt, converted.rt and specs/Marks.antt, salvaged.rt and specs/Salvage.antt).
#![tactic(auto)]

mod branched;
pub mod columned;
mod converted;
mod packed;
mod padded;
mod salvaged;
mod spanned;

ghost use Rattle.std.specs.Prelude.{◌≡◌, length};
ghost use Rattle.layout.specs.Table.{by_rows, by_columns};
ghost use Rattle.load.specs.Under.{load_under};
ghost use Rattle.load.specs.Loads.{answer_of};
ghost use Rattle.rewrite.specs.Whole.{rewritten};
ghost use Rattle.rewrite.specs.Contract as rewriting;
ghost use Rattle.theorems.specs.Loading.{Loads};
ghost use Rattle.theorems.specs.Rewriting.{Rewrites, LoadsAgain, RewritesTwice};

use answers::Refusal;
use load::Loading;

// The answers of two runs.
#[derive(Clone, Copy, Debug, PartialEq, Eq)]
pub struct Two<T> {
    pub first: T,
    pub second: T,
}

// Each function that ends in `_exact` has two contracts: the demand, with no reading in it, and the answer of the code that it calls, which fixes a refusal's
// number and place.

// A file that is loaded, under a list of enum types.
pub fn load_exact(file: &[u8], enums: &[u8], words: &mut [u32]) -> Loading
    ensures loads { Loads by_rows enums.now file.now (length words.old) words.new result }
    ensures value { result ≡ answer_of file.now (load_under enums.now file.now (length words.old)) }
{
    load::load(file, enums, words)
}

// A file that is loaded in columns, under a list of enum types.
pub fn load_columns_exact(file: &[u8], enums: &[u8], words: &mut [u32]) -> Loading
    ensures loads { Loads by_columns enums.now file.now (length words.old) words.new result }
    ensures value { result ≡ answer_of file.now (load_under enums.now file.now (length words.old)) }
{
    load::load_columns(file, enums, words)
}

// A file that is rewritten, under a list of enum types.
pub fn rewrite_exact(
    file: &[u8],
    enums: &[u8],
    words: &mut [u32],
    out: &mut [u8],
) -> Result<usize, Refusal>
    ensures rewrites { Rewrites enums.now file.now (length words.old) words.new
        out.old out.new result }
    ensures value { result ≡ rewriting.answer_of (rewritten enums.now file.now words.old out.old) }
{
    rewrite::rewrite(file, enums, words, out)
}

// A file that is rewritten and then loaded, under one list of enum types.
fn load_again(file: &[u8], enums: &[u8], words: &mut [u32], out: &mut [u8]) -> Loading
    ensures { LoadsAgain enums.now file.now (length words.old) words.new
        (length out.old) result }
{
    let n = rewrite_exact(file, enums, words, out)?;
    load_exact(&out[..n], enums, words)
}

// A file that is rewritten and then rewritten again, under one list of enum types, into a second output.
fn rewrite_twice(
    file: &[u8],
    enums: &[u8],
    words: &mut [u32],
    out: &mut [u8],
    second: &mut [u8],
) -> Result<usize, Refusal>
    ensures { RewritesTwice enums.now file.now (length words.old) (length out.old)
        second.old second.new result }
{
    let n = rewrite_exact(file, enums, words, out)?;
    rewrite_exact(&out[..n], enums, words, second)
}
