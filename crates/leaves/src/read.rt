// Reading the bytes of values that have no children.
ghost use Rattle.std.specs.Prelude.{◌≡◌, ◌≤◌, length};
ghost use Rattle.answers.specs.Told.{told};
ghost use Rattle.layout.specs.Slot.{level};
ghost use Rattle.numbers.specs.Padded.{pad_of, beside, told_padded};
ghost use Rattle.reading.specs.Seven.{seven_at};
ghost use Rattle.reading.specs.Utf8.{utf8s};
ghost use Rattle.reading.specs.Fixed.{sized};
ghost use Rattle.reading.specs.Heads.{text_at, leaf_at};
ghost use Rattle.leaves.specs.Text.{own_size, text_bytes};

use answers::{Number, Read, Refusal, Rule};
use numbers::seven::Padded;

// Whether bytes are UTF-8: a short text has no blocks to look for.
fn is_text(s: &[u8]) -> bool
    ensures { result ≡ utf8s s.now }
{
    if s.len() < 64 {
        return text::is_short_utf8(s);
    }
    text::is_utf8(s)
}

// A text's bytes from `start` on, which its count at `at` says; the count has this padding.
fn text_bytes(
    file: &[u8],
    at: usize,
    start: usize,
    count: u64,
    padding: u32,
) -> Result<Padded, Refusal>
    requires { start ≤ length file.now }
    ensures { told_padded result ≡ beside padding (own_size (text_bytes file.now at count start)) }
{
    let n = count as usize;
    if !numbers::little::has_bytes(file, start, n) {
        return Err(Rule::PastEnd.at(at));
    }
    let next = start + n;
    if is_text(&file[start..next]) {
        return Ok(Padded {
            value: count,
            next,
            padding,
        });
    }
    Err(Rule::BadValue.at(at))
}

// A text: its count, then its bytes. The value is the number of its bytes, and the padding its count's.
pub fn text_at(file: &[u8], at: usize) -> Result<Padded, Refusal>
    ensures { told_padded result ≡ beside (pad_of (seven_at file.now at) at) (own_size (text_at file.now at)) }
{
    let count = numbers::seven::seven_padded(file, at)?;
    text_bytes(file, at, count.next, count.value, count.padding)
}

// An image level of a size: its size field, then its data. The value is the number of its data's bytes.
pub fn level_at(file: &[u8], size: u64, at: usize) -> Number
    ensures { told result ≡ sized (leaf_at file.now (level size) at) }
{
    let Read {
        value: n,
        next: start,
    } = numbers::little::little::<u32>(file, at)?;
    if n != size {
        return Err(Rule::BadValue.at(at));
    }
    let z = n as usize;
    if !numbers::little::has_bytes(file, start, z) {
        return Err(Rule::PastEnd.at(at));
    }
    Ok(Read {
        value: n,
        next: start + z,
    })
}
