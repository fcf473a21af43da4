// What 19 says of a file that is loaded, as the contract of a function that calls the code (specs/Full.antt).
#![tactic(auto)]

ghost use Rattle.std.specs.Prelude.{◌≡◌, length};
ghost use Rattle.load.specs.Under.{load_under};
ghost use Rattle.load.specs.Loads.{answer_of};
ghost use Rattle.full_tables.specs.Full.{Full};

use load::Loading;

// A file that is loaded, under a list of enum types: the first row that has no room, and the answer of the code itself.
pub fn load_full(file: &[u8], enums: &[u8], words: &mut [u32]) -> Loading
    ensures full { Full enums.now file.now (length words.old) words.new result }
    ensures value { result ≡ answer_of file.now (load_under enums.now file.now (length words.old)) }
{
    load::load(file, enums, words)
}
