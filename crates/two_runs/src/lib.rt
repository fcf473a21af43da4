// What is demanded of files that differ in typed text alone, as contracts: each function calls the code over both files, and is here for what it ensures
// (specs/Texts.antt and specs/Alike.antt).
#![tactic(auto)]

ghost use Rattle.std.specs.Prelude.{◌≡◌, length};
ghost use Rattle.table.specs.Grids.{grid_of};
ghost use Rattle.two_runs.specs.Alike.{LoadIs, RewriteIs, NumberIs, LookupsAre};
ghost use Rattle.two_runs.specs.Alike.{LoadsAlike, RewritesAlike, NumbersAlike, lookups_of, LookupsAlike, EveryString};

use answers::Refusal;
use ids::RowNumber;
use load::Loading;
use table::Table;
use theorems::Two;
use theorems::columned::{Lookups, look_up};

// Two files that are loaded, by rows or in columns, under one list of enum types.
fn load_two(
    file: &[u8],
    other: &[u8],
    enums: &[u8],
    words: &mut [u32],
    others: &mut [u32],
    columns: bool,
) -> Two<Loading>
    ensures loads_alike { LoadsAlike columns enums.now file.now other.now
        (length words.old) (length others.old) words.new others.new result }
    ensures load_is { LoadIs columns enums.now file.now (length words.old) words.new result.first }
    ensures load_is_2 { LoadIs columns enums.now other.now (length others.old) others.new result.second }
{
    let first = load::load_in(file, enums, words, columns);
    let second = load::load_in(other, enums, others, columns);
    Two { first, second }
}

// Two files that are rewritten under one list of enum types.
fn rewrite_two(
    file: &[u8],
    other: &[u8],
    enums: &[u8],
    words: &mut [u32],
    others: &mut [u32],
    out: &mut [u8],
    outs: &mut [u8],
) -> Two<Result<usize, Refusal>>
    ensures rewrites_alike { RewritesAlike enums.now file.now other.now
        (length words.old) (length others.old) (length out.old) (length outs.old) result }
    ensures rewrite_is { RewriteIs enums.now file.now words.old out.old result.first }
    ensures rewrite_is_2 { RewriteIs enums.now other.now others.old outs.old result.second }
{
    let first = rewrite::rewrite(file, enums, words, out);
    let second = rewrite::rewrite(other, enums, others, outs);
    Two { first, second }
}

// Two files that an asset builder loads.
fn number_two(file: &[u8], other: &[u8]) -> Two<u64>
    ensures numbers_alike { NumbersAlike file.now other.now result }
    ensures number_is { NumberIs file.now result.first }
    ensures number_is_2 { NumberIs other.now result.second }
{
    let first = builder::xnb_load(file);
    let second = builder::xnb_load(other);
    Two { first, second }
}

// A row that is looked up in two files, which are loaded first, by rows or in columns, under one list of enum types.
fn look_up_two(
    file: &[u8],
    other: &[u8],
    enums: &[u8],
    words: &mut [u32],
    others: &mut [u32],
    columns: bool,
    row: RowNumber,
) -> Two<Lookups>
    ensures lookups_alike { LookupsAlike enums.now file.now other.now
        (length words.old) (length others.old) result }
    ensures lookups_are { LookupsAre columns enums.now file.now (length words.old) row.0 result.first }
    ensures lookups_are_2 { LookupsAre columns enums.now other.now (length others.old) row.0 result.second }
{
    let _ = load::load_in(file, enums, words, columns);
    let _ = load::load_in(other, enums, others, columns);
    let first = look_up(file, Table::shaped(words, columns), row);
    let second = look_up(other, Table::shaped(others, columns), row);
    Two { first, second }
}

// A file that is loaded, by rows or in columns, under a list of enum types.
fn load_strings(file: &[u8], enums: &[u8], words: &mut [u32], columns: bool) -> Loading
    ensures every_string { EveryString columns enums.now file.now (length words.old) words.new }
    ensures load_is { LoadIs columns enums.now file.now (length words.old) words.new result }
{
    load::load_in(file, enums, words, columns)
}
