// Keys of a dictionary in the order of their texts. A key's number is its place in the list of the keys' rows.
#![tactic(auto)]

mod texts;

ghost use Rattle.std.specs.Prelude.{◌≡◌, true, ◌≤◌, length, min, get_or, slice_index, EachIndex};
ghost use Rattle.std.specs.Ordering.{is_lt};
ghost use Rattle.table.specs.Grids.{cell_of};
ghost use Rattle.text_order.specs.Ordered.{order_of};
ghost use Rattle.key_order.specs.Texts.{key_text, rank_of, Rises, Covers, KeyCertificate};

use ids::RowNumber;
use std::cmp::Ordering;
use table::Table;
use text_order::compare;
use texts::row_text;

// Keys of a dictionary: the row of each, and the table and the file that they are in.
#[derive(Clone, Copy)]
pub struct Keys<'a> {
    pub file: &'a [u8],
    pub table: Table<'a>,
    pub rows: &'a [u32],
}

impl<'a> Keys<'a> {
    // A word of a key's row.
    pub fn word(self, key: u32, word: u32) -> u32
        ensures { result ≡ get_or self.entry.table.words.now (cell_of self.entry.table.grid (get_or self.entry.rows.now key 0) word) 0 }
    {
        let row = self.rows.get(key as usize).copied().unwrap_or(0);
        self.table.word(RowNumber(row), word)
    }

    // The text of a key.
    fn text(self, key: u32) -> &'a [u8]
        ensures { result.now ≡ key_text self.entry.file.now self.entry.table.grid self.entry.table.words.now self.entry.rows.now key }
    {
        let first = self.word(key, table::FIRST);
        let detail = self.word(key, table::DETAIL);
        row_text(self.file, first as usize, detail)
    }

    // How the texts of two keys stand to each other.
    pub fn order(self, a: u32, b: u32) -> Ordering
        ensures { result ≡ order_of (key_text self.entry.file.now self.entry.table.grid self.entry.table.words.now self.entry.rows.now a)
            (key_text self.entry.file.now self.entry.table.grid self.entry.table.words.now self.entry.rows.now b) }
    {
        compare(self.text(a), self.text(b))
    }

    // How two keys stand to each other: by their texts or, of equal texts, by their numbers.
    fn rank(self, a: u16, b: u16) -> Ordering
        ensures { result ≡ rank_of (key_text self.entry.file.now self.entry.table.grid self.entry.table.words.now self.entry.rows.now) a b }
    {
        self.order(a as u32, b as u32).then(a.cmp(&b))
    }

    // A key stands before another: by its text or, of equal texts, by its number.
    fn stands_before(self, a: u16, b: u16) -> bool
        ensures { result ≡ is_lt (rank_of (key_text self.entry.file.now self.entry.table.grid self.entry.table.words.now self.entry.rows.now) a b) }
    {
        self.rank(a, b).is_lt()
    }

    // The keys of an order rise.
    fn rising(self, order: &[u16]) -> bool
        ensures { result ≡ true → Rises self.entry.file.now self.entry.table.grid self.entry.table.words.now self.entry.rows.now
            order.now (length order.now) }
    {
        order.is_sorted_by(|a, b| self.stands_before(*a, *b))
    }

    // Two runs into one.
    fn merge(self, left: &[u16], right: &[u16], to: &mut [u16]) {
        let mut x = 0;
        let mut y = 0;
        for place in to.iter_mut() {
            match (left.get(x), right.get(y)) {
                (Some(a), None) => {
                    *place = *a;
                    x += 1;
                }
                (Some(a), Some(b)) if self.stands_before(*a, *b) => {
                    *place = *a;
                    x += 1;
                }
                (_, Some(b)) => {
                    *place = *b;
                    y += 1;
                }
                (None, None) => {}
            }
        }
    }

    // Runs of a width, two by two, into runs of twice the width.
    fn pass(self, from: &[u16], to: &mut [u16], width: usize)
        requires { (1 ≤ width) × (width ≤ 131072) }
        ensures { length to.new ≡ length to.old }
    {
        for (pair, place) in from.chunks(2 * width).zip(to.chunks_mut(2 * width)) {
            let (left, right) = pair.split_at(width.min(pair.len()));
            self.merge(left, right, place);
        }
    }

    // The numbers of an order by merges of ever longer runs, to and fro between it and a spare list. Of what they leave nothing is promised.
    fn merge_runs(self, order: &mut [u16], spare: &mut [u16])
        requires { length order.old ≤ 65536 }
        ensures { (length order.new ≡ length order.old) × (length spare.new ≡ length spare.old) }
    {
        let mut width = 1;
        // Kept: a turn makes the width four times as large, so no range or iterator fits.
        while width < order.len() {
            self.pass(order, spare, width);
            self.pass(spare, order, 2 * width);
            width *= 4;
        }
    }

    // The numbers from 0 on in the order of the keys that they are of, by the library's sort.
    fn sort_numbers(self, order: &mut [u16])
        requires { length order.old ≤ 65536 }
        ensures { KeyCertificate self.entry.file.now self.entry.table.grid self.entry.table.words.now self.entry.rows.now (length order.old) order.new }
    {
        count_up(order);
        order.sort_unstable_by(|a, b| self.rank(*a, *b));
    }

    // Whether an order has every number and its keys rise; what is left in `of` means nothing.
    fn tested(self, order: &[u16], of: &mut [u16]) -> bool
        requires { (length order.now ≤ 65536) × (length of.old ≡ length order.now) }
        ensures certificate { result ≡ true → KeyCertificate self.entry.file.now self.entry.table.grid self.entry.table.words.now
            self.entry.rows.now (length order.now) order.now }
        ensures of_len_unchanged { length of.new ≡ length of.old }
    {
        self.rising(order) && covered(order, of)
    }

    // The same with a spare list: keys that rise or fall already take one comparison each, and all others are merged.
    // Merging takes fewer comparisons than the library's sort, above all at its worst.
    fn sort_with(self, order: &mut [u16], spare: &mut [u16])
        requires { (length order.old ≤ 65536) × (length spare.old ≡ length order.old) }
        ensures { KeyCertificate self.entry.file.now self.entry.table.grid self.entry.table.words.now self.entry.rows.now (length order.old) order.new }
    {
        count_up(order);
        if self.tested(order, spare) {
            return;
        }
        order.reverse();
        if self.tested(order, spare) {
            return;
        }
        self.merge_runs(order, spare);
        if self.tested(order, spare) {
            return;
        }
        self.sort_numbers(order);
    }

    // The numbers of so many keys as there are places, and at most of 65,536, in the order of the keys.
    // As many spare places take fewer comparisons; what is left in them means nothing.
    pub fn sort(self, order: &mut [u16], spare: &mut [u16])
        ensures { KeyCertificate self.entry.file.now self.entry.table.grid self.entry.table.words.now self.entry.rows.now
            (min (length order.old) 65536) order.new }
    {
        let n = order.len().min(65536);
        let order = &mut order[..n];
        if spare.len() < n {
            return self.sort_numbers(order);
        }
        self.sort_with(order, &mut spare[..n]);
    }
}

// The numbers from 0 on.
fn count_up(order: &mut [u16])
    requires { length order.old ≤ 65536 }
    ensures { (length order.new ≡ length order.old) × EachIndex order.new (λ k. slice_index order.new k ≡ k) }
{
    for i in 0..order.len() {
        order[i] = i as u16;
    }
}

// The numbers below the length all stand in the order, each at the place that `of` then has for it.
fn covered(order: &[u16], of: &mut [u16]) -> bool
    requires { (length order.now ≤ 65536) × (length of.old ≡ length order.now) }
    ensures { (length of.new ≡ length of.old) × (result ≡ true → Covers (length order.now) order.now of.new) }
{
    note_places(order, of);
    for (i, place) in of.iter().enumerate() {
        if order.get(*place as usize).copied() != Some(i as u16) {
            return false;
        }
    }
    true
}

// Notes the place of each number of the order.
fn note_places(order: &[u16], of: &mut [u16])
    requires { length order.now ≤ 65536 }
    ensures { length of.new ≡ length of.old }
{
    for (j, number) in order.iter().enumerate() {
        if let Some(place) = of.get_mut(*number as usize) {
            *place = j as u16;
        }
    }
}
