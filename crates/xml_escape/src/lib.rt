// Runs of bytes that stand in the XML as they are (Req 13).
#![tactic(auto)]

mod runs;

ghost use Rattle.std.specs.Prelude.{◌≡◌, true, false, ◌≤◌, length};
ghost use Rattle.xml_escape.specs.Quiet.{Quiet, AllQuiet, Ran, RunEnd};

pub use runs::{Class, first_of, next_of, past_blocks, put_before};

// Whether a byte may be one that is not written as it is, or that starts a character which is not written; or is above `most`.
fn loud(b: u8, most: u8) -> bool
    ensures { (result ≡ false → Quiet most b) × (result ≡ true → Quiet most b → ⊥) }
{
    (b < 0x20) | (b == b'"') | (b == b'&') | (b == b'<') | (b == b'>') | (b == 0xEF) | (most < b)
}

// Those bytes, above `most` too.
#[derive(Clone, Copy)]
struct LoudBytes {
    most: u8,
}

impl Class for LoudBytes {
    ghost Tells = { λ c b r. (r ≡ false → Quiet c.most b) × (r ≡ true → Quiet c.most b → ⊥) };

    fn has(&self, b: u8) -> bool {
        loud(b, self.most)
    }
}

// Past the blocks of 32 such bytes from `from` on; `from` itself where it is past the end.
pub fn quiet_blocks(s: &[u8], from: usize, most: u8) -> usize
    ensures { from ≤ length s.now → Ran most s.now from result }
{
    if s.len() <= from {
        return from;
    }
    from + past_blocks(&s[from..], &LoudBytes { most })
}

// Past such bytes from `from` on, to the first that may be another; `from` itself where it is past the end.
pub fn quiet_run(s: &[u8], from: usize, most: u8) -> usize
    ensures { RunEnd most s.now from result }
{
    if s.len() <= from {
        return from;
    }
    if loud(s[from], most) {
        return from;
    }
    let i = quiet_blocks(s, from, most);
    i + next_of(&s[i..], &LoudBytes { most })
}

// How many of the 32 bytes from i on stand before the first that may be one; none where fewer than 32 are left.
pub fn quiet_start(s: &[u8], i: usize) -> usize
    ensures { AllQuiet 0xFF s.now i result }
{
    if s.len() <= i {
        return 0;
    }
    let Some(block) = s[i..].first_chunk::<32>() else {
        return 0;
    };
    first_of(block, &LoudBytes { most: 0xFF })
}
