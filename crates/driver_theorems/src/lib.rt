// What is demanded of the driver's loader (02, Req 07), as contracts: each function calls the code, and is here for what it ensures
// (specs/Driver.antt, from top to bottom), and the answer of the code itself, which fixes a refusal.
#![tactic(auto)]

ghost use Rattle.std.specs.Prelude.{◌≡◌, length};
ghost use Rattle.load.specs.Under.{load_under};
ghost use Rattle.load.specs.Loads.{answer_of};
ghost use Rattle.driver.specs.Under.{driver_under};
ghost use Rattle.driver_theorems.specs.Driver.{LoadsForDriver, Beside};

use load::Loading;

// A file that the driver's loader takes or refuses, under a list of enum types.
pub fn load_driver_exact(file: &[u8], enums: &[u8], words: &mut [u32]) -> Loading
    ensures loads_for_driver { LoadsForDriver enums.now file.now (length words.old) words.new result }
    ensures value { result ≡ answer_of file.now (driver_under enums.now file.now (length words.old)) }
{
    driver::load_driver(file, enums, words)
}

// A file that both load, under one list of enum types: the answer of the plain loader, and that of the driver's.
pub fn load_both(
    file: &[u8],
    enums: &[u8],
    plain: &mut [u32],
    words: &mut [u32],
) -> (Loading, Loading)
    ensures beside { Beside (length plain.old) (length words.old) plain.new words.new result }
    ensures plain_value { result.0 ≡ answer_of file.now (load_under enums.now file.now (length plain.old)) }
    ensures driver_value { result.1 ≡ answer_of file.now (driver_under enums.now file.now (length words.old)) }
{
    let by_plain = load::load(file, enums, plain);
    let by_driver = driver::load_driver(file, enums, words);
    (by_plain, by_driver)
}
