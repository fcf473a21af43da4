// Finding a file of a pack by its path, in a table of any words.
#![tactic(auto)]

ghost use Rattle.std.specs.Prelude.{◌≡◌, ◌+◌, ◌≤◌, length};
ghost use Rattle.pack_layout.specs.Lookup.{lower, lowered};
ghost use Rattle.reading.specs.Same.{same};
ghost use Rattle.pack_reading.specs.Lookup.{matches, find_of};
ghost use Rattle.pack_lookup.specs.Compared.{Compared};
ghost use Rattle.pack_lookup.specs.Lookup.{entry_at, found_as, data_of};

// A byte with an ASCII letter lowered.
fn lower_byte(b: u8) -> u8
    ensures { result ≡ lower b }
{
    b.to_ascii_lowercase()
}

// Whether two paths differ, ASCII letters being lowered, in one of the `n` bytes from `i` on.
fn differ(a: &[u8], b: &[u8], i: usize, n: usize) -> bool
    requires { (i + n ≤ length a.now) × (i + n ≤ length b.now) }
    ensures { Compared a.now b.now i n result }
{
    let mut other = false;
    for j in 0..n {
        other |= lower_byte(a[i + j]) != lower_byte(b[i + j]);
    }
    other
}

// Whether two paths of one length are the same after lowering ASCII letters: the last `n` bytes first, then those before them, `n` at a time.
fn same_blocks(a: &[u8], b: &[u8], n: usize) -> bool
    requires { (length a.now ≡ length b.now) × (1 ≤ n) × (n ≤ length a.now) }
    ensures { result ≡ same (lowered a.now) (lowered b.now) }
{
    let last = a.len() - n;
    if differ(a, b, last, n) {
        return false;
    }
    for i in (0..last).step_by(n) {
        if differ(a, b, i, n) {
            return false;
        }
    }
    true
}

// Whether two paths are the same after lowering ASCII letters: the first byte alone, then block by block.
fn same_path(a: &[u8], b: &[u8]) -> bool
    ensures { result ≡ same (lowered a.now) (lowered b.now) }
{
    if a.len() != b.len() {
        return false;
    }
    if a.len() == 0 {
        return true;
    }
    if differ(a, b, 0, 1) {
        return false;
    }
    if 16 <= a.len() {
        return same_blocks(a, b, 16);
    }
    if 8 <= a.len() {
        return same_blocks(a, b, 8);
    }
    same_blocks(a, b, 1)
}

// Whether the entry at word `i` of a table matches a path: the path's length first, the data's place last.
fn entry_matches(pack: &[u8], table: &[u64], path: &[u8], i: usize) -> bool
    requires { i + 4 ≤ length table.now }
    ensures { result ≡ matches pack.now path.now (entry_at table.now i) }
{
    let size = table[i + 1] as usize;
    if size != path.len() {
        return false;
    }
    let start = table[i] as usize;
    if size == 0 {
        return false;
    }
    if pack.len() < size {
        return false;
    }
    if pack.len() - size < start {
        return false;
    }
    let end = start + size;
    if !same_path(&pack[start..end], path) {
        return false;
    }
    let first = table[i + 2] as usize;
    let count = table[i + 3] as usize;
    if pack.len() < count {
        return false;
    }
    if pack.len() - count < first {
        return false;
    }
    true
}

// A part of a pack: where it starts, and how many bytes it has.
#[derive(Clone, Copy, Debug, PartialEq, Eq)]
pub struct Part {
    pub first: usize,
    pub count: usize,
}

// Finds the data of the first file of a path, by a table of any words.
pub fn find(pack: &[u8], table: &[u64], path: &[u8]) -> Option<Part>
    ensures { result ≡ found_as (find_of pack.now table.now path.now) }
{
    for file in 0..table.len() / 4 {
        let i = 4 * file;
        if entry_matches(pack, table, path, i) {
            let first = table[i + 2] as usize;
            let count = table[i + 3] as usize;
            return Some(Part { first, count });
        }
    }
    None
}

// The data itself, none where no path matches.
pub fn find_bytes<'a>(pack: &'a [u8], table: &[u64], path: &[u8]) -> &'a [u8]
    ensures { result.now ≡ data_of pack.now (find_of pack.now table.now path.now) }
{
    match find(pack, table, path) {
        None => &pack[0..0],
        Some(part) => {
            let end = part.first + part.count;
            &pack[part.first..end]
        }
    }
}
