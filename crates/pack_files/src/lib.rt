// Counting a file of a pack, under a list of enum types (02, Req 14).
#![tactic(auto)]

ghost use Rattle.std.specs.Prelude.{◌≡◌, take};
ghost use Rattle.layout.specs.Text.{ascii};
ghost use Rattle.reading.specs.Same.{same};
ghost use Rattle.load_part.specs.Part.{opened};
ghost use Rattle.pack_figures.specs.Figures.{of_load, of_content};
ghost use Rattle.pack_counts.specs.Raise.{counted};
ghost use Rattle.pack_files.specs.Xnb.{Clear};

use table::{Table, WIDTH};

// Whether a file starts with `XNB`.
fn is_xnb(content: &[u8]) -> bool
    ensures { result ≡ same (take 3 content.now) (ascii "XNB") }
{
    content.starts_with(b"XNB")
}

// Counts an XNB file, by loading it into a table of zeros with room for 65,536 rows, which it leaves as it was.
fn count_xnb(content: &[u8], enums: &[u8], words: &mut [u32], figures: &mut [u64])
    ensures figures_after { Clear words.old
        → figures.new ≡ counted (of_load (opened enums.now content.now)) figures.old }
    ensures words_unchanged { Clear words.old → words.new ≡ words.old }
{
    match load_part::load_part(content, enums, words) {
        Err(refusal) => {
            pack_counts::count_refused(refusal.number, figures);
        }
        Ok(loaded) => {
            let rows = loaded.rows;
            pack_counts::count_loaded(content, Table::by_rows(words), rows, figures);
            fill::clear_range(words, 0, WIDTH as usize * rows as usize);
        }
    }
}

// Counts a file: an XNB file by what loading it answers, any other as a file only. A table of zeros with that room is left as it was.
pub fn count_file(content: &[u8], enums: &[u8], words: &mut [u32], figures: &mut [u64])
    ensures figures_after { Clear words.old
        → figures.new ≡ counted (of_content (opened enums.now) content.now) figures.old }
    ensures words_unchanged { Clear words.old → words.new ≡ words.old }
{
    if is_xnb(content) {
        count_xnb(content, enums, words, figures);
        return;
    }
    pack_counts::count_other(figures);
}
