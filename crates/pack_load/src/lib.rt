// Loading a file of a pack, which a path names.
#![tactic(auto)]

ghost use Rattle.std.specs.Prelude.{◌≡◌, length};
ghost use Rattle.pack_load.specs.Opened.{opened_of, rows_of};

use load::Loading;

// Loads the data of the first file of a path into the words, by a table of any words and under a list of enum types;
// only zeros where there is none. A refusal's place is counted from the start of the file's data.
pub fn load_found(
    pack: &[u8],
    table: &[u64],
    path: &[u8],
    enums: &[u8],
    words: &mut [u32],
) -> Option<Loading>
    ensures value { result ≡ opened_of enums.now pack.now table.now path.now (length words.old) }
    ensures words_after { words.new ≡ rows_of enums.now pack.now table.now path.now
        (length words.old) }
{
    match pack_lookup::find(pack, table, path) {
        None => {
            fill::clear(words, 0);
            None
        }
        Some(part) => {
            let end = part.first + part.count;
            Some(load::load(&pack[part.first..end], enums, words))
        }
    }
}
