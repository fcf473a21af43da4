// Adding a pack to a report (02, Req 14).
#![tactic(auto)]

ghost use Rattle.std.specs.Prelude.{◌≡◌, ◌≤◌, length, get_or, replicate};
ghost use Rattle.load_part.specs.Part.{opened};
ghost use Rattle.pack_figures.specs.Report.{left, table_left};
ghost use Rattle.pack_counts.specs.Raise.{counted};
ghost use Rattle.pack_report.specs.Files.{content_at, of_entries};
ghost use Rattle.pack_files.specs.Xnb.{Clear};
ghost use Rattle.pack_report.specs.Add.{added_as, add_read, add_under, Listed};

use answers::{Refusal, Rule};
use pack_files::count_file;

// A word of a table, 0 where there is none.
fn word_at(table: &[u64], at: usize) -> u64
    ensures { result ≡ get_or table.now at 0 }
{
    table.get(at).copied().unwrap_or(0)
}

// The data that entry i of a table names, none where it runs past the pack.
fn content_at<'a>(pack: &'a [u8], table: &[u64], i: usize) -> &'a [u8]
    requires { i ≤ 4096 }
    ensures { result.now ≡ content_at pack.now table.now i }
{
    let first = word_at(table, 4 * i + 2) as usize;
    let count = word_at(table, 4 * i + 3) as usize;
    if pack.len() < first || pack.len() - first < count {
        return &[];
    }
    &pack[first..first + count]
}

// Counts so many files of a pack, by its table.
fn count_files(
    pack: &[u8],
    enums: &[u8],
    table: &[u64],
    files: usize,
    words: &mut [u32],
    figures: &mut [u64],
)
    requires { (files ≤ 4096) × Clear words.old }
    ensures figures_after { figures.new
        ≡ counted (of_entries (opened enums.now) pack.now table.now 0 files) figures.old }
    ensures words_unchanged { words.new ≡ words.old }
{
    for i in 0..files {
        count_file(content_at(pack, table, i), enums, words, figures);
    }
}

// Adds a pack that was read into the table: its figures in words of their own, then all sums tested, then added.
fn add_read(
    pack: &[u8],
    enums: &[u8],
    table: &mut [u64],
    files: usize,
    words: &mut [u32],
    report: &mut [u64],
) -> Result<(), Refusal>
    requires { Listed pack.now table.old files × Clear words.old }
    ensures value { result ≡ added_as (add_read enums.now pack.now (length table.old) report.old) }
    ensures report_after { report.new
        ≡ left (add_read enums.now pack.now (length table.old) report.old) report.old }
    ensures table_after { table.new
        ≡ table_left (add_read enums.now pack.now (length table.old) report.old)
        (length table.old) pack.now }
    ensures words_unchanged { words.new ≡ words.old }
{
    let mut figures = [0u64; 132];
    count_files(pack, enums, table, files, words, &mut figures);
    let summed = pack_sums::sum(report, &figures);
    if summed.is_err() {
        fill::clear(table, 0);
    }
    summed
}

// Adds a pack to a report, under a list of enum types. The table is left as by the reader of packs, with zeros after a refusal, and the words are left zero.
pub fn add(
    pack: &[u8],
    enums: &[u8],
    table: &mut [u64],
    words: &mut [u32],
    report: &mut [u64],
) -> Result<(), Refusal>
    ensures value { result
        ≡ added_as (add_under enums.now (length words.old) (length table.old) report.old pack.now) }
    ensures report_after { report.new
        ≡ left (add_under enums.now (length words.old) (length table.old) report.old pack.now)
        report.old }
    ensures table_after { table.new
        ≡ table_left (add_under enums.now (length words.old) (length table.old) report.old pack.now)
        (length table.old) pack.now }
    ensures words_after { words.new ≡ replicate (length words.old) 0 }
{
    fill::clear(words, 0);
    if table::room(words.len()) < 65536 {
        fill::clear(table, 0);
        return Err(Rule::NoRowRoom.at(0));
    }
    let files = packs::read(pack, table, false)?;
    add_read(pack, enums, table, files, words, report)
}
