// The driver's loader (02, Req 07): the plain loader, then 41 to 47 in their order.
#![tactic(auto)]

ghost use Rattle.std.specs.Prelude.{◌≡◌, length};
ghost use Rattle.reading.specs.File.{table_of};
ghost use Rattle.answers.specs.Refusals.{number_of};
ghost use Rattle.names.specs.Entries.{enums_of};
ghost use Rattle.load.specs.Loads.{answer_of};
ghost use Rattle.fault_places.specs.Places.{first_place};
ghost use Rattle.profile.specs.Offences.{other_platform};
ghost use Rattle.driver.specs.Under.{driver_under};
ghost use Rattle.driver.specs.Rules.{kept, From41, NumbersPadded};
ghost use Rattle.driver.specs.Settled.{Settles};

use answers::{Refusal, Rule};
use key_repeats::repeated_keys;
use load::{Loaded, Loading};
use number_rules::padded_number;
use page_rules::{nextless, no_page};
use reader_rules::unused_reader;
use table::Table;
use target_rules::doubled_reader;
use used_rows::UsedRows;

// 41: another platform than `w`.
fn platform(file: &[u8]) -> Option<usize>
    ensures { result ≡ first_place (other_platform file.now) }
{
    if file.len() <= 3 {
        return Some(3);
    }
    if file[3] == b'w' {
        return None;
    }
    Some(3)
}

// 42: looked for only where the load found padding.
fn numbers(file: &[u8], rows: UsedRows, loaded: Loaded) -> Option<usize>
    ensures { NumbersPadded file.now rows.entry.table.grid rows.entry.table.words.now rows.entry.used loaded.readers loaded.padding result }
{
    if loaded.padding == 0 {
        return None;
    }
    padded_number(file, rows, loaded.readers)
}

// A rule is kept, or refused at the place where it is broken.
fn kept(rule: Rule, broken: Option<usize>) -> Result<(), Refusal>
    ensures { result ≡ kept (number_of rule) broken }
{
    match broken {
        None => Ok(()),
        Some(place) => Err(rule.at(place)),
    }
}

// 41 to 47 of a loaded file, in their order.
fn rules_kept(file: &[u8], enums: &[u8], rows: UsedRows, loaded: Loaded) -> Result<(), Refusal>
    ensures { From41 (enums_of enums.now) file.now rows.entry.table.grid rows.entry.table.words.now rows.entry.used loaded.readers loaded.padding result }
{
    kept(Rule::NotWindows, platform(file))?;
    kept(Rule::NotShortest, numbers(file, rows, loaded))?;
    kept(
        Rule::UnusedReader,
        unused_reader(file, rows, loaded.readers),
    )?;
    kept(Rule::EqualReaders, doubled_reader(file, enums))?;
    kept(Rule::RepeatedKey, repeated_keys(file, rows))?;
    kept(Rule::NotPage, no_page(rows))?;
    kept(Rule::NoNextPage, nextless(rows))
}

// What is left of a loaded file: its rows, or zeros where a rule is broken.
fn settle(file: &[u8], enums: &[u8], words: &mut [u32], loaded: Loaded) -> Loading
    ensures { Settles (enums_of enums.now) file.now words.old words.new loaded result }
{
    let rows = UsedRows {
        table: Table::by_rows(words),
        used: loaded.rows,
    };
    match rules_kept(file, enums, rows, loaded) {
        Ok(()) => Ok(loaded),
        Err(refusal) => {
            words.fill(0);
            Err(refusal)
        }
    }
}

// Loads a file into the words, under a list of enum types, if it keeps the driver's rules: its rows, then zeros; only zeros after a refusal.
pub fn load_driver(file: &[u8], enums: &[u8], words: &mut [u32]) -> Loading
    ensures value { result ≡ answer_of file.now (driver_under enums.now file.now (length words.old)) }
    ensures words_after { words.new
        ≡ table_of (driver_under enums.now file.now (length words.old)) (length words.old) }
{
    let loaded = load::load(file, enums, words)?;
    settle(file, enums, words, loaded)
}
