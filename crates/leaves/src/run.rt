// Values one after the other that have no children and need no reader list.
ghost use Rattle.std.specs.Prelude.{◌≡◌, true, cond, ◌+◌, ◌*◌, ◌≤◌, ◌<◌, length};
ghost use Rattle.table.specs.Runs.{put_run};
ghost use Rattle.leaves.specs.Run.{run_slots, turn_of, run_of};
ghost use Rattle.leaves.specs.Same.{AtMost, Kept};

use crate::plain::{Plain, read_plain};
use names::kinds;
use table::{Grid, Series};
use walked::{Reached, Spot, Walk};

// The same value n times; two in turn, n times; or the n levels of an image.
#[derive(Clone, Copy, Debug, PartialEq, Eq)]
pub enum Run {
    Same(Plain, u32),
    Turns(Plain, Plain, u32),
    Levels(u32, u32, u32, u32),
}

// How many values there are.
pub fn turns(run: Run) -> usize
    ensures { result ≡ length (run_slots run) }
{
    match run {
        Run::Same(_, n) => n as usize,
        Run::Turns(_, _, n) => 2 * n as usize,
        Run::Levels(_, _, _, n) => n as usize,
    }
}

// How value i stands.
fn turn(run: Run, i: usize) -> Plain
    requires { i < length (run_slots run) }
    ensures { result ≡ turn_of run i }
{
    match run {
        Run::Same(value, _) => value,
        Run::Turns(key, value, _) => {
            if i % 2 == 0 {
                return key;
            }
            value
        }
        Run::Levels(format, width, height, _) => Plain::Level(images::level_size(
            format, width, height, i as u32,
        )),
    }
}

// The values from a spot on, with their rows, one after the other.
// Kept: the file, the words, the grid and the shared count are no struct, as the words are lent anew at each call,
// and a struct that holds a `&mut` has to say in each contract that it keeps the reference.
fn read_each(file: &[u8], words: &mut [u32], grid: Grid, shared: u32, run: Run, spot: Spot) -> Walk
    ensures value { result ≡ (run_of grid file.now shared run spot.depth spot.parent spot.at spot.used words.old).0 }
    ensures words_after { words.new ≡ (run_of grid file.now shared run spot.depth spot.parent spot.at spot.used words.old).1 }
{
    let n = turns(run);
    let mut next = spot.at;
    let mut row = spot.used;
    let mut padding = 0;
    for i in 0..n {
        let here = Spot {
            at: next,
            used: row,
            ..spot
        };
        let reached = read_plain(file, words, grid, shared, turn(run, i), here)?;
        next = reached.next;
        row = reached.used;
        padding = table::sum(padding, reached.padding);
    }
    Ok(Reached {
        used: row,
        padding,
        next,
    })
}

// Whether n bytes are all at most `most`.
fn all_at_most(file: &[u8], at: usize, n: usize, most: u8) -> bool
    requires { at + n ≤ length file.now }
    ensures { result ≡ true → AtMost file.now at n most }
{
    let mut over = false;
    // Kept: every byte is looked at, so that the compiler takes many at once; `any` would stop at the first.
    for i in 0..n {
        over = over | (most < file[at + i]);
    }
    !over
}

// Whether the bytes of a series are there.
fn all_there(file: &[u8], s: Series) -> bool
    ensures { result ≡ true → s.first + s.count * s.size ≤ length file.now }
{
    let Some(all) = (s.count as usize).checked_mul(s.size) else {
        return false;
    };
    let Some(end) = s.first.checked_add(all) else {
        return false;
    };
    end <= file.len()
}

// Whether the bytes of a series are there and are seen at once to keep the rule of their kind.
fn all_kept(file: &[u8], s: Series) -> bool
    ensures { result ≡ true
        → Kept file.now s.kind s.size s.first s.count × (s.first + s.count * s.size ≤ length file.now) }
{
    if !all_there(file, s) {
        return false;
    }
    match s.kind {
        kinds::BOOLEAN => s.size == 1 && all_at_most(file, s.first, s.count as usize, 1),
        kinds::CHAR => s.size == 1 && all_at_most(file, s.first, s.count as usize, 127),
        kinds::DATE_TIME | kinds::DECIMAL => false,
        _ => true,
    }
}

// Puts the rows of a series at once, if its bytes are seen to be there and to keep their rule, with room for the rows; whether they are.
fn put_kept(file: &[u8], words: &mut [u32], grid: Grid, used: u32, depth: u32, s: Series) -> bool
    ensures kept { result ≡ true → Kept file.now s.kind s.size s.first s.count × (used + s.count ≤ grid.room) × (0 < depth)
        × (s.first + s.count * s.size ≤ length file.now) }
    ensures words_after { words.new ≡ cond result (put_run grid used s.kind s.first s.size s.parent words.old s.count) words.old }
{
    if depth == 0 {
        return false;
    }
    if !all_kept(file, s) {
        return false;
    }
    table::put_run(words, grid, used, s)
}

// n values in the same slot: at once where they are of one kind and size and are seen to be there, else one after the other.
fn read_same(
    file: &[u8],
    words: &mut [u32],
    grid: Grid,
    shared: u32,
    slot: Plain,
    n: u32,
    spot: Spot,
) -> Walk
    ensures value { result ≡ (run_of grid file.now shared (Run.Same slot n) spot.depth spot.parent spot.at spot.used words.old).0 }
    ensures words_after { words.new ≡ (run_of grid file.now shared (Run.Same slot n) spot.depth spot.parent spot.at spot.used words.old).1 }
{
    if let Some((kind, size)) = slot.uniform() {
        let s = Series {
            count: n,
            kind,
            size,
            first: spot.at,
            parent: spot.parent,
        };
        if put_kept(file, words, grid, spot.used, spot.depth, s) {
            return Ok(Reached {
                used: spot.used + n,
                padding: 0,
                next: spot.at + n as usize * size,
            });
        }
    }
    read_each(file, words, grid, shared, Run::Same(slot, n), spot)
}

// One value as a run of its own.
fn read_one(
    file: &[u8],
    words: &mut [u32],
    grid: Grid,
    shared: u32,
    slot: Plain,
    spot: Spot,
) -> Walk
    ensures value { result ≡ (run_of grid file.now shared (Run.Same slot 1) spot.depth spot.parent spot.at spot.used words.old).0 }
    ensures words_after { words.new ≡ (run_of grid file.now shared (Run.Same slot 1) spot.depth spot.parent spot.at spot.used words.old).1 }
{
    let reached = read_plain(file, words, grid, shared, slot, spot)?;
    Ok(Reached {
        used: reached.used,
        padding: table::sum(0, reached.padding),
        next: reached.next,
    })
}

// The values from a spot on, with their rows. The shape of the table is told apart here so that many values are read out of the walk's way.
pub fn read_run(
    file: &[u8],
    words: &mut [u32],
    grid: Grid,
    shared: u32,
    run: Run,
    spot: Spot,
) -> Walk
    ensures value { result ≡ (run_of grid file.now shared run spot.depth spot.parent spot.at spot.used words.old).0 }
    ensures words_after { words.new ≡ (run_of grid file.now shared run spot.depth spot.parent spot.at spot.used words.old).1 }
{
    match run {
        Run::Same(slot, n) => {
            if n == 1 {
                return read_one(file, words, grid, shared, slot, spot);
            }
            if grid.columns {
                return read_same(file, words, grid, shared, slot, n, spot);
            }
            let by_rows = Grid {
                columns: false,
                ..grid
            };
            read_same(file, words, by_rows, shared, slot, n, spot)
        }
        _ => read_each(file, words, grid, shared, run, spot),
    }
}
