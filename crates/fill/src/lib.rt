// Zeros into a lent table, and bytes of one slice into another.
#![tactic(auto)]

ghost use Rattle.std.specs.Prelude.{◌≡◌, ℕ, ◌+◌, ◌-◌, ◌≤◌, List, ◌++◌, min, length, take, replicate};
ghost use Rattle.fill.specs.Fill.{cleared, cleared_is, wiped, pasted, inside, copied};

// The words of a table: what a table of them is with zeros from an index on.
pub trait Word: Copy {
    ghost ZERO: { Self };

    ghost cleared: { List Self → ℕ → List Self };

    fn zero() -> Self
        ensures { result ≡ ZERO };

    ghost clears: { (l : List Self) (from : ℕ) → cleared l from ≡ take from l ++ replicate (length l - from) ZERO };
}

impl Word for u32 {
    ghost ZERO = { 0 };

    ghost cleared = { cleared };

    fn zero() -> u32 {
        0
    }

    ghost clears = { cleared_is };
}

impl Word for u64 {
    ghost ZERO = { 0 };

    ghost cleared = { cleared };

    fn zero() -> u64 {
        0
    }

    ghost clears = { cleared_is };
}

// Zeros from index `from` on; what stands before it is kept.
pub fn clear<W: Word>(out: &mut [W], from: usize)
    ensures { out.new ≡ W.cleared out.old from }
{
    for i in from..out.len() {
        out[i] = W::zero();
    }
}

// Zeros from index `from` to before index `to`; what stands before and behind is kept.
pub fn clear_range(out: &mut [u32], from: usize, to: usize)
    ensures { out.new ≡ wiped out.old from (min to (length out.old)) }
{
    let end = to.min(out.len());
    if from < end {
        out[from..end].fill(0);
    }
}

// `n` bytes of `src` from `from` on, into `out` from `to` on, where both ranges are inside, which is the answer; elsewhere `out` is unchanged.
pub fn copy(out: &mut [u8], to: usize, src: &[u8], from: usize, n: usize) -> bool
    ensures value { result ≡ inside out.old to src.now from n }
    ensures out_after { out.new ≡ copied out.old to src.now from n }
{
    if out.len() < to {
        return false;
    }
    if out.len() - to < n {
        return false;
    }
    if src.len() < from {
        return false;
    }
    if src.len() - from < n {
        return false;
    }
    out[to..to + n].copy_from_slice(&src[from..from + n]);
    true
}
