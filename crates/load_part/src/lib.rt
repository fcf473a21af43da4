// Loading a file in a part of a lent row table, so that a short file costs no more than its length.
#![tactic(auto)]

ghost use Rattle.std.specs.Prelude.{◌≡◌, ◌≤◌, length, replicate};
ghost use Rattle.reading.specs.File.{table_of};
ghost use Rattle.load.specs.Under.{load_under};
ghost use Rattle.load.specs.Loads.{answer_of};
ghost use Rattle.load_part.specs.Part.{first_words, LoadsIn, NotFull};

use answers::Rule;
use load::Loading;
use table::WIDTH;

// How many words so many rows have, as far as there is room.
fn first_words(rows: usize, words: usize) -> usize
    ensures { (result ≡ first_words rows words) × (result ≤ words) }
{
    let room = table::room(words) as usize;
    WIDTH as usize * rows.min(room)
}

// A file is given a row for each byte first, and at most so many.
const FEW_ROWS: usize = 128;

// Whether an answer is any but 19, so that it is the same with more room.
fn not_full(told: Loading) -> bool
    ensures { NotFull result told }
{
    match told {
        Err(refusal) => refusal.number != Rule::NoRowLeft.number(),
        Ok(_) => true,
    }
}

// Loads a file into a table of zeros with room for so many rows, as far as the table has it.
fn load_within(file: &[u8], enums: &[u8], words: &mut [u32], rows: usize) -> Loading
    ensures { LoadsIn enums.now file.now words.old words.new
        (first_words rows (length words.old)) result }
{
    let part = first_words(rows, words.len());
    load::load(file, enums, &mut words[..part])
}

// Loads a file into a table of zeros: in few rows, in a row for each byte only where these do not suffice, and in the whole room only after that.
pub fn load_part(file: &[u8], enums: &[u8], words: &mut [u32]) -> Loading
    ensures value { result ≡ answer_of file.now (load_under enums.now file.now (length words.old)) }
    ensures words_after { words.old ≡ replicate (length words.old) 0 → words.new
        ≡ table_of (load_under enums.now file.now (length words.old)) (length words.old) }
{
    let few = load_within(file, enums, words, file.len().min(FEW_ROWS));
    if not_full(few) {
        return few;
    }
    let more = load_within(file, enums, words, file.len());
    if not_full(more) {
        return more;
    }
    load::load(file, enums, words)
}
