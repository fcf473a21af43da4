// Texts that were taken before: runs of their characters, none of which is judged again.
ghost use Rattle.std.specs.Prelude.{◌≡◌, true, false, ◌≤◌, length};
ghost use Rattle.xml_import.specs.Places.{Unmarked, Marked, Stops, RunPut};

use xml_escape::{Class, first_of, next_of, past_blocks, put_before};

// Whether a byte starts an entity or the end of an item.
fn marked(b: u8) -> bool
    ensures { (result ≡ false → Unmarked b) × (result ≡ true → Marked b) }
{
    (b == b'&') | (b == b'<')
}

// Those bytes, told by one expression.
#[derive(Clone, Copy)]
struct MarkedBytes;

impl Class for MarkedBytes {
    ghost Tells = { λ c b r. (r ≡ false → Unmarked b) × (r ≡ true → Marked b) };

    fn has(&self, b: u8) -> bool {
        marked(b)
    }
}

// Past such bytes from `from` on, to the first other: blocks, then 64 bytes at once, or one by one where fewer are left.
fn unmarked_far(xml: &[u8], from: usize) -> usize
    requires { from ≤ length xml.now }
    ensures { Stops xml.now from result }
{
    let i = from + past_blocks(&xml[from..], &MarkedBytes);
    if let Some(block) = xml[i..].first_chunk::<64>() {
        let n = first_of(block, &MarkedBytes);
        if n < 64 {
            return i + n;
        }
    }
    i + next_of(&xml[i..], &MarkedBytes)
}

// Whether a byte starts an entity or the end of an item: letters are told by one test.
fn sign(b: u8) -> bool
    ensures { (result ≡ false → Unmarked b) × (result ≡ true → Marked b) }
{
    if b'<' < b {
        return false;
    }
    if b == b'<' {
        return true;
    }
    b == b'&'
}

// Those bytes, letters by one test.
#[derive(Clone, Copy)]
struct SignBytes;

impl Class for SignBytes {
    ghost Tells = { λ c b r. (r ≡ false → Unmarked b) × (r ≡ true → Marked b) };

    fn has(&self, b: u8) -> bool {
        sign(b)
    }
}

// Past such bytes from `from` on: 64 bytes at once, then blocks.
pub(crate) fn unmarked_rest(xml: &[u8], from: usize) -> usize
    requires { from ≤ length xml.now }
    ensures { Stops xml.now from result }
{
    let Some(block) = xml[from..].first_chunk::<64>() else {
        return unmarked_far(xml, from);
    };
    let n = first_of(block, &MarkedBytes);
    if n < 64 {
        return from + n;
    }
    unmarked_far(xml, from + 64)
}

// The same: eight bytes one by one, then the rest.
pub(crate) fn unmarked_run(xml: &[u8], from: usize) -> usize
    requires { from ≤ length xml.now }
    ensures { Stops xml.now from result }
{
    let Some(start) = xml[from..].first_chunk::<8>() else {
        return unmarked_far(xml, from);
    };
    let n = next_of(start, &SignBytes);
    if n < 8 {
        return from + n;
    }
    unmarked_rest(xml, from + 8)
}

// Puts such bytes from `at` on, to the first other, at once; answers where they end.
fn put_far(xml: &[u8], out: &mut [u8], at: usize, to: usize) -> usize
    requires { at ≤ length xml.now }
    ensures { RunPut xml.now at to out.old out.new result }
{
    let run = unmarked_rest(xml, at);
    fill::copy(out, to, xml, at, run - at);
    run
}

// The same: up to eight one by one, then the rest at once.
pub(crate) fn put_run(xml: &[u8], out: &mut [u8], at: usize, to: usize) -> usize
    requires { (at ≤ length xml.now) × (to ≤ length out.old) }
    ensures { RunPut xml.now at to out.old out.new result }
{
    let Some(start) = xml[at..].first_chunk::<8>() else {
        return put_far(xml, out, at, to);
    };
    if out.len() - to < 8 {
        return put_far(xml, out, at, to);
    }
    let n = put_before(start, &mut out[to..to + 8], &SignBytes);
    if n < 8 {
        return at + n;
    }
    put_far(xml, out, at + 8, to + 8)
}
