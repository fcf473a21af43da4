// What a walk over values answers, and the row of a value.
#![tactic(auto)]

pub mod room;

ghost use Rattle.std.specs.Prelude.{◌≡◌, ◌-◌};
ghost use Rattle.table.specs.Word.{in_word};
ghost use Rattle.table.specs.Put.{row_of};
ghost use Rattle.walked.specs.Leaf.{head_at, value_row, leaf_answer, leaf_words};
ghost use Rattle.answers.specs.Told.{told};

use answers::{Number, Refusal};
use ids::RowNumber;
use table::{Grid, RowWords};

// What is known of a value before its bytes are read: its row's number, its first byte, its parent's row number plus 1, its type id or resource id,
// and how many bytes that id has beyond its shortest form.
#[derive(Clone, Copy, Debug, PartialEq, Eq)]
pub struct Head {
    pub row: RowNumber,
    pub first: usize,
    pub parent: u32,
    pub detail: u32,
    pub padding: u32,
}

// Where a value begins: its first byte, the row that it takes, the depth left, and its parent's row number plus 1.
#[derive(Clone, Copy, Debug, PartialEq, Eq)]
pub struct Spot {
    pub at: usize,
    pub used: u32,
    pub depth: u32,
    pub parent: u32,
}

impl Spot {
    // What is known of the value that begins here, with its id and that id's padding.
    pub fn head(self, detail: u32, padding: u32) -> Head
        ensures { result ≡ head_at self detail padding }
    {
        Head {
            row: RowNumber(self.used),
            first: self.at,
            parent: self.parent,
            detail,
            padding,
        }
    }
}

// What a walk reaches: how many bytes the seven-bit numbers of the new rows have beyond their shortest forms, the next byte, and the rows used so far.
#[derive(Clone, Copy, Debug, PartialEq, Eq)]
pub struct Reached {
    pub padding: u32,
    pub next: usize,
    pub used: u32,
}

// A value, or values one after the other: what the walk reaches, or a refusal.
pub type Walk = Result<Reached, Refusal>;

// The number of bytes from `first` to before `next`, 0 where there are none, as a word holds it.
fn span(first: usize, next: usize) -> u32
    ensures { result ≡ in_word (next - first) }
{
    table::word(next.saturating_sub(first))
}

// The row of a value that ends before `next` and has so many rows with all below it.
pub fn row_words(h: Head, kind: u32, children: u32, branch: u32, next: usize) -> RowWords
    ensures { row_of result ≡ value_row h kind children branch next }
{
    let first = table::word(h.first);
    let bytes = span(h.first, next);
    RowWords {
        kind,
        first,
        bytes,
        children,
        parent: h.parent,
        detail: h.detail,
        branch,
    }
}

// A value without children, once its bytes are read; `mark` is the kind that a reference wants, else 0.
pub fn leaf(words: &mut [u32], grid: Grid, h: Head, kind: u32, mark: u32, read: Number) -> Walk
    ensures value { result ≡ leaf_answer h.row.0 h.padding (told read) }
    ensures words_after { words.new ≡ leaf_words grid words.old h kind mark (told read) }
{
    let next = read?.next;
    let r = row_words(h, kind, mark, 1, next);
    table::put_row(words, grid, h.row, r);
    Ok(Reached {
        used: h.row.0.wrapping_add(1),
        padding: h.padding,
        next,
    })
}
