// Little-endian numbers: reading 1, 2, 4 and 8 bytes, and putting 4.
ghost use Rattle.std.specs.Prelude.{◌≡◌, ℕ, ◌+◌, ◌≤◌, ◌<◌, leb, length, drop};
ghost use Rattle.std.proofs.Common.{rules};
ghost use Rattle.answers.specs.Told.{told};
ghost use Rattle.fill.specs.Fill.{copied};
ghost use Rattle.layout.specs.Number.{little};
ghost use Rattle.reading.specs.Little.{little_at};
ghost use Rattle.numbers.specs.Bytes.{Little};

use answers::{Number, Read, Rule};

// Whether n bytes stand from a place on.
pub fn has_bytes(s: &[u8], at: usize, n: usize) -> bool
    ensures { result ≡ leb n (length (drop at s.now)) }
{
    n <= s.len().saturating_sub(at)
}

// A width of little-endian numbers: how many bytes they have, and the value of those bytes from a place on; 0 where fewer are left.
pub trait Width {
    ghost BYTES: { ℕ };

    const BYTES: usize;

    fn value(s: &[u8], i: usize) -> u64
        ensures there { i + BYTES ≤ length s.now → Little s.now i BYTES result }
        ensures missing { length s.now < i + BYTES → result ≡ 0 };

    ghost some: { 1 ≤ BYTES };
}

impl Width for u8 {
    ghost BYTES = { 1 };

    const BYTES: usize = 1;

    fn value(s: &[u8], i: usize) -> u64 {
        if !has_bytes(s, i, 1) {
            return 0;
        }
        u64::from(s[i])
    }

    ghost some = { Prim.search rules };
}

impl Width for u16 {
    ghost BYTES = { 2 };

    const BYTES: usize = 2;

    fn value(s: &[u8], i: usize) -> u64 {
        if !has_bytes(s, i, 2) {
            return 0;
        }
        u64::from(u16::from_le_bytes([s[i], s[i + 1]]))
    }

    ghost some = { Prim.search rules };
}

impl Width for u32 {
    ghost BYTES = { 4 };

    const BYTES: usize = 4;

    fn value(s: &[u8], i: usize) -> u64 {
        if !has_bytes(s, i, 4) {
            return 0;
        }
        u64::from(u32::from_le_bytes([s[i], s[i + 1], s[i + 2], s[i + 3]]))
    }

    ghost some = { Prim.search rules };
}

impl Width for u64 {
    ghost BYTES = { 8 };

    const BYTES: usize = 8;

    fn value(s: &[u8], i: usize) -> u64 {
        if !has_bytes(s, i, 8) {
            return 0;
        }
        u64::from_le_bytes([
            s[i],
            s[i + 1],
            s[i + 2],
            s[i + 3],
            s[i + 4],
            s[i + 5],
            s[i + 6],
            s[i + 7],
        ])
    }

    ghost some = { Prim.search rules };
}

// The little-endian number of a width at a place.
pub fn little<W: Width>(s: &[u8], at: usize) -> Number
    ensures { told result ≡ little_at s.now W.BYTES at at }
{
    if !has_bytes(s, at, W::BYTES) {
        return Err(Rule::PastEnd.at(at));
    }
    Ok(Read {
        value: W::value(s, at),
        next: at + W::BYTES,
    })
}

// Puts the four bytes of a number into `out` from `at` on, where there is room for them.
pub fn put4(out: &mut [u8], at: usize, n: usize)
    ensures { out.new ≡ copied out.old at (little 4 n) 0 4 }
{
    let bytes = ((n % 4294967296) as u32).to_le_bytes();
    fill::copy(out, at, &bytes, 0, 4);
}
