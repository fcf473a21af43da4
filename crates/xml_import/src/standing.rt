// Runs of characters that stand as they are.
ghost use Rattle.std.specs.Prelude.{◌≡◌, false, ◌+◌, ◌≤◌, ◌<◌, length};
ghost use Rattle.xml_escape.specs.Quiet.{Quiet, AllQuiet, Ran};
ghost use Rattle.xml_import.specs.Places.{CharsStand};

use crate::character;
use xml_escape::{Class, first_of, next_of};

// Where a piece of the XML from `from` on ends that is judged at once: at most 1,024 bytes further, where a character starts.
fn cut(xml: &[u8], from: usize) -> usize
    requires { from ≤ length xml.now }
    ensures { (from ≤ result) × (result ≤ length xml.now) }
{
    if xml.len() - from <= 1024 {
        return xml.len();
    }
    for back in 0..1024 {
        let end = from + 1024 - back;
        if xml[end] < 0x80 {
            return end;
        }
        if 0xC0 <= xml[end] {
            return end;
        }
    }
    from
}

// Past a run of UTF-8 from `from` on, where a piece is one.
fn utf8_run(xml: &[u8], from: usize) -> usize
    requires { from ≤ length xml.now }
    ensures { CharsStand xml.now from result }
{
    let end = cut(xml, from);
    let piece = &xml[from..end];
    let n = xml_escape::quiet_run(piece, 0, 0xFF);
    if text::is_utf8(&piece[..n]) {
        return from + n;
    }
    from
}

// Whether a byte is no ASCII character that stands as it is, in one expression: blocks of it are fast.
fn odd(b: u8) -> bool
    ensures { result ≡ false → Quiet 0x7F b }
{
    (b < 0x20) | (b == b'"') | (b == b'&') | (b == b'<') | (b == b'>') | (0x7F < b)
}

// Those bytes.
#[derive(Clone, Copy)]
struct OddBytes;

impl Class for OddBytes {
    ghost Tells = { λ c b r. r ≡ false → Quiet 0x7F b };

    fn has(&self, b: u8) -> bool {
        odd(b)
    }
}

// Past a run of ASCII from `from` on: 32 bytes at once, then blocks, then 32 bytes at once again.
fn usual_rest(xml: &[u8], from: usize) -> usize
    requires { from ≤ length xml.now }
    ensures { Ran 0x7F xml.now from result }
{
    let Some(block) = xml[from..].first_chunk::<32>() else {
        return xml_escape::quiet_run(xml, from, 0x7F);
    };
    let n = first_of(block, &OddBytes);
    if n < 32 {
        return from + n;
    }
    let i = xml_escape::quiet_blocks(xml, from + 32, 0x7F);
    let Some(block) = xml[i..].first_chunk::<32>() else {
        return xml_escape::quiet_run(xml, i, 0x7F);
    };
    i + first_of(block, &OddBytes)
}

// The same as `odd`: letters are told by two tests.
fn unusual(b: u8) -> bool
    ensures { result ≡ false → Quiet 0x7F b }
{
    !character::ordinary(b)
}

// Those bytes, letters by two tests.
#[derive(Clone, Copy)]
struct UnusualBytes;

impl Class for UnusualBytes {
    ghost Tells = { λ c b r. r ≡ false → Quiet 0x7F b };

    fn has(&self, b: u8) -> bool {
        unusual(b)
    }
}

// The same as `usual_rest`: eight bytes one by one, then the rest.
fn usual_run(xml: &[u8], from: usize) -> usize
    requires { from ≤ length xml.now }
    ensures { Ran 0x7F xml.now from result }
{
    let Some(start) = xml[from..].first_chunk::<8>() else {
        return xml_escape::quiet_run(xml, from, 0x7F);
    };
    let n = next_of(start, &UnusualBytes);
    if n < 8 {
        return from + n;
    }
    usual_rest(xml, from + 8)
}

// Past characters that stand as they are, from `from` on; `from` itself where none is found so.
pub(crate) fn standing(xml: &[u8], from: usize) -> usize
    requires { from < length xml.now }
    ensures { CharsStand xml.now from result }
{
    if xml[from] == b'<' {
        return from;
    }
    if xml[from] < 0x80 {
        return usual_run(xml, from);
    }
    utf8_run(xml, from)
}

// The same at the start of a text, which is mostly longer than eight bytes: ASCII alone, by 32 bytes at once.
pub(crate) fn opening(xml: &[u8], from: usize) -> usize
    requires { from ≤ length xml.now }
    ensures { CharsStand xml.now from result }
{
    if xml.len() - from < 32 {
        return from;
    }
    if 0x7F < xml[from] {
        return from;
    }
    usual_rest(xml, from)
}
