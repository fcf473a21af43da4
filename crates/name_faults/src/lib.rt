// What 11 and 33 to 38 say of a file that is loaded, as the contract of a function that calls the code (specs/Names.antt).
#![tactic(auto)]

ghost use Rattle.std.specs.Prelude.{◌≡◌, length};
ghost use Rattle.load.specs.Under.{load_under};
ghost use Rattle.load.specs.Loads.{answer_of};
ghost use Rattle.name_faults.specs.Names.{Names};

use load::Loading;

// A file that is loaded, under a list of enum types: the first reader whose name is not lawful, and the answer of the code itself.
pub fn load_named(file: &[u8], enums: &[u8], words: &mut [u32]) -> Loading
    ensures names { Names enums.now file.now result }
    ensures value { result ≡ answer_of file.now (load_under enums.now file.now (length words.old)) }
{
    load::load(file, enums, words)
}
