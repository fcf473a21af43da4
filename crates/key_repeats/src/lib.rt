// 45 over the rows of a loaded file (02, Req 07): two String keys of equal bytes in one dictionary, at the later key.
// Dictionaries nest, so the answer is the lowest place over all of them.
#![tactic(auto)]

ghost use Rattle.std.specs.Prelude.{◌≡◌, true, false, ◌<◌, ◌≤◌, ◌+◌, length, get_or};
ghost use Rattle.fault_places.specs.Places.{Lowest};
ghost use Rattle.key_order.specs.Texts.{key_text};
ghost use Rattle.key_repeats.specs.Hits.{One, Next, Neighbour};
ghost use Rattle.key_repeats.specs.Gathered.{Notes, Gathers, key_place, LowestKey, LowestAmong};
ghost use Rattle.key_repeats.specs.Steps.{Alike, Earlier, KeysFault, RepeatedKeys};

use fault_places::lower;
use key_order::Keys;
use names::kinds;
use used_rows::UsedRows;

// Notes the row of a key, if it is a String.
// Kept: the first m of `keys` are the noted ones, with m beside them, since a list that grows would need a heap.
fn note(keys: &mut [u32], m: u32, row: u32, kind: u32) -> u32
    requires { m < 65536 }
    ensures { Notes keys.old keys.new m row kind result }
{
    if kind != kinds::STRING {
        return m;
    }
    let i = m as usize;
    if keys.len() <= i {
        return m;
    }
    keys[i] = row;
    m + 1
}

// The rows of the String keys among n, the first of which has this row.
fn gather(rows: UsedRows, first: u32, n: u32, keys: &mut [u32]) -> u32
    requires { (n ≤ length keys.old) × (n ≤ 32768) }
    ensures { Gathers rows.entry.table.grid rows.entry.table.words.now rows.entry.used n first keys.new result
        × (length keys.new ≡ length keys.old) × (result ≤ n) }
{
    let mut row = first;
    let mut m: u32 = 0;
    for _ in 0..n {
        if rows.used <= row {
            return m;
        }
        let kind = rows.word(row, table::KIND);
        m = note(keys, m, row, kind);
        let value = rows.next(row);
        row = rows.next(value);
    }
    m
}

// Two keys have one text.
fn alike(keys: Keys, a: u32, b: u32) -> bool
    ensures { Alike (key_text keys.entry.file.now keys.entry.table.grid keys.entry.table.words.now keys.entry.rows.now) a b result }
{
    keys.order(a, b).is_eq()
}

// The place of a key.
fn key_place(keys: Keys, key: u32) -> usize
    ensures { result ≡ key_place keys.entry.table.grid keys.entry.table.words.now keys.entry.rows.now key }
{
    keys.word(key, table::FIRST) as usize
}

// A key has the text of an earlier one.
fn repeats_earlier(keys: Keys, i: u32) -> bool
    ensures { Earlier (key_text keys.entry.file.now keys.entry.table.grid keys.entry.table.words.now keys.entry.rows.now) i i result }
{
    for h in 0..i {
        if alike(keys, h, i) {
            return true;
        }
    }
    false
}

// The place of a key that has the text of an earlier one.
fn repeat_at(keys: Keys, i: u32) -> Option<usize>
    ensures { Lowest (One (key_text keys.entry.file.now keys.entry.table.grid keys.entry.table.words.now keys.entry.rows.now)
        (key_place keys.entry.table.grid keys.entry.table.words.now keys.entry.rows.now) i) result }
{
    if !repeats_earlier(keys, i) {
        return None;
    }
    Some(key_place(keys, i))
}

// The lowest place of a key that has the text of an earlier one, by pairs.
fn pairs(keys: Keys, m: u32) -> Option<usize>
    ensures { LowestKey keys.entry.file.now keys.entry.table.grid keys.entry.table.words.now keys.entry.rows.now m result }
{
    let mut best = None;
    for i in 0..m {
        best = lower(best, repeat_at(keys, i));
    }
    best
}

// A number of an order, 0 where there is none.
fn ordered_at(order: &[u16], j: usize) -> u32
    ensures { result ≡ get_or order.now j 0 }
{
    order.get(j).copied().unwrap_or(0) as u32
}

// The place of the second of two neighbours of one text, in an order of m keys.
fn neighbour_at(keys: Keys, order: &[u16], m: u32, j: usize) -> Option<usize>
    requires { j < 4294967296 }
    ensures { Lowest (Next (key_text keys.entry.file.now keys.entry.table.grid keys.entry.table.words.now keys.entry.rows.now)
        (key_place keys.entry.table.grid keys.entry.table.words.now keys.entry.rows.now) (λ k. get_or order.now k 0) m j) result }
{
    let b = ordered_at(order, j + 1);
    if m <= b {
        return None;
    }
    let a = ordered_at(order, j);
    if !alike(keys, a, b) {
        return None;
    }
    Some(key_place(keys, b))
}

// The lowest place of the second of two neighbours of one text, in an order of m keys.
fn neighbours(keys: Keys, order: &[u16], m: u32) -> Option<usize>
    ensures { Lowest (Neighbour (key_text keys.entry.file.now keys.entry.table.grid keys.entry.table.words.now keys.entry.rows.now)
        (key_place keys.entry.table.grid keys.entry.table.words.now keys.entry.rows.now) (λ k. get_or order.now k 0) m m) result }
{
    let n = m as usize;
    let mut best = None;
    if n <= 1 {
        return best;
    }
    for j in 0..n - 1 {
        best = lower(best, neighbour_at(keys, order, m, j));
    }
    best
}

// The keys of a dictionary, of which there are at most 16: by pairs.
fn few_keys(file: &[u8], rows: UsedRows, first: u32, n: u32) -> Option<usize>
    requires { n ≤ 16 }
    ensures { LowestAmong file.now rows.entry.table.grid rows.entry.table.words.now rows.entry.used n first result }
{
    let mut keys = [0u32; 16];
    let m = gather(rows, first, n, &mut keys);
    let keys = Keys {
        file,
        table: rows.table,
        rows: &keys,
    };
    pairs(keys, m)
}

// The same with at most N, by an order of the keys: no more room is cleared than so many keys need.
fn many_keys<const N: usize>(file: &[u8], rows: UsedRows, first: u32, n: u32) -> Option<usize>
    requires { (n ≤ N) × (N ≤ 32768) }
    ensures { LowestAmong file.now rows.entry.table.grid rows.entry.table.words.now rows.entry.used n first result }
{
    let mut keys = [0u32; N];
    let mut order = [0u16; N];
    let mut spare = [0u16; N];
    let m = gather(rows, first, n, &mut keys);
    let keys = Keys {
        file,
        table: rows.table,
        rows: &keys,
    };
    let order = &mut order[..m as usize];
    keys.sort(order, &mut spare);
    neighbours(keys, order, m)
}

// The lowest place of a key that repeats an earlier one, if this row is a dictionary.
fn dictionary(file: &[u8], rows: UsedRows, row: u32) -> Option<usize>
    requires { row < rows.used }
    ensures { KeysFault file.now rows.entry.table.grid rows.entry.table.words.now rows.entry.used row result }
{
    let kind = rows.word(row, table::KIND);
    if kind != kinds::DICTIONARY_KIND {
        return None;
    }
    let children = rows.word(row, table::CHILDREN);
    if 65535 < children {
        return None;
    }
    let n = (children + 1) / 2;
    let first = row + 1;
    if n <= 16 {
        return few_keys(file, rows, first, n);
    }
    if n <= 1024 {
        return many_keys::<1024>(file, rows, first, n);
    }
    many_keys::<32768>(file, rows, first, n)
}

// The lowest place of a key that repeats an earlier one of its dictionary.
pub fn repeated_keys(file: &[u8], rows: UsedRows) -> Option<usize>
    ensures { RepeatedKeys file.now rows.entry.table.grid rows.entry.table.words.now rows.entry.used result }
{
    let mut best = None;
    for row in 0..rows.used {
        best = lower(best, dictionary(file, rows, row));
    }
    best
}
