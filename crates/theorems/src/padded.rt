// What is demanded of the padding that a load tells, as the contract of a function that calls the code (specs/Padding.antt).
ghost use Rattle.std.specs.Prelude.{length};
ghost use Rattle.theorems.specs.Padding.{Saves};

use answers::Refusal;
use load::Loading;

// The answers of a load and of a rewrite.
#[derive(Clone, Copy, Debug, PartialEq, Eq)]
pub struct Saved {
    pub loaded: Loading,
    pub rewritten: Result<usize, Refusal>,
}

// A file that is loaded, by rows or in columns, and rewritten, under one list of enum types.
fn load_and_rewrite(
    file: &[u8],
    enums: &[u8],
    words: &mut [u32],
    columns: bool,
    out: &mut [u8],
) -> Saved
    ensures { Saves columns enums.now file.now (length words.old) words.new
        out.old out.new result }
{
    let loaded = load::load_in(file, enums, words, columns);
    let rewritten = rewrite::rewrite(file, enums, words, out);
    Saved { loaded, rewritten }
}
