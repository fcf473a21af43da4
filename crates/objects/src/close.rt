// How a value ends: the rule of its kind, and its row.
ghost use Rattle.std.specs.Prelude.{◌≡◌};
ghost use Rattle.objects.specs.Endings.{keeps, close_answer, close_words};

use answers::Rule;
use ids::RowNumber;
use table::{Grid, Table};
use walked::{Head, Reached, Walk};

// A value of a kind keeps its rule, where its children's rows are in the words.
#[tactic(auto, unfolding(crate::specs::Endings::keeps))]
fn keeps_rule(file: &[u8], table: Table, kind: u32, row: RowNumber) -> bool
    ensures { result ≡ keeps table.entry.grid file.now table.entry.words.now kind row.0 }
{
    if kind == names::kinds::SPRITE_FONT {
        return fonts::font_rule(file, table, row);
    }
    true
}

// The value whose children were walked: 22, or its row with their number.
pub fn close(
    file: &[u8],
    words: &mut [u32],
    grid: Grid,
    h: Head,
    kind: u32,
    children: u32,
    at: usize,
    walked: Walk,
) -> Walk
    ensures value { result ≡ close_answer grid file.now words.old h kind at walked }
    ensures words_after { words.new ≡ close_words grid file.now words.old h kind children walked }
{
    let reached = walked?;
    let row = h.row;
    if !keeps_rule(
        file,
        Table {
            words: &*words,
            grid,
        },
        kind,
        row,
    ) {
        return Err(Rule::FontRule.at(at));
    }
    let branch = table::rows_from(row, reached.used);
    let r = walked::row_words(h, kind, children, branch, reached.next);
    table::put_row(words, grid, row, r);
    Ok(Reached {
        used: reached.used,
        padding: table::sum(h.padding, reached.padding),
        next: reached.next,
    })
}
