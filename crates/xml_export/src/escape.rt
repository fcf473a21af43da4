// The text of an item in the XML: whether every character of it is written, how many bytes it has there, and its bytes.
ghost use Rattle.std.specs.Prelude.{◌≡◌, true, false, cond, [], ◌∷◌, ◌+◌, ◌-◌, ◌≤◌, ◌<◌, IfSome, length, take, drop};
ghost use Rattle.xml_layout.specs.Xml.{escaped, escape};
ghost use Rattle.xml_reading.specs.Written.{noncharacter};
ghost use Rattle.xml_escape.specs.Runs.{AllOf};
ghost use Rattle.xml_escape.specs.Quiet.{AllQuiet};
ghost use Rattle.xml_escape.specs.Sizes.{item};
ghost use Rattle.xml_escape.specs.Wrote.{Put, PutTo, sets};
ghost use Rattle.xml_export.specs.Gathering.{size_of};
ghost use Rattle.xml_export.specs.Escaping.{Alone, byte_size, Grows, RunPut, EntityPut};

use xml_escape::{Class, first_of, past_blocks, put_before};

// Whether U+FFFE or U+FFFF stands from `at` on.
fn noncharacter_at(text: &[u8], at: usize) -> bool
    requires { at ≤ length text.now }
    ensures { result ≡ noncharacter (drop at text.now) }
{
    if text.len() - at < 3 {
        return false;
    }
    if text[at] != 0xEF {
        return false;
    }
    if text[at + 1] != 0xBF {
        return false;
    }
    0xBE <= text[at + 2]
}

// How many bytes a byte of a text has in the XML.
fn escaped_size(b: u8) -> usize
    ensures { result ≡ length (escaped b) }
{
    if b == b'&' {
        return 5;
    }
    if b == b'<' {
        return 4;
    }
    if b == b'>' {
        return 4;
    }
    if b == b'"' {
        return 6;
    }
    1
}

// How many bytes a byte of a text has in the XML, unless it starts a character that is not written. Letters are told by two tests.
fn size_at(text: &[u8], at: usize) -> Option<usize>
    requires { at < length text.now }
    ensures { result ≡ byte_size (drop at text.now) }
{
    let b = text[at];
    if b'>' < b {
        if b != 0xEF {
            return Some(1);
        }
    }
    if b < 0x20 {
        return None;
    }
    if noncharacter_at(text, at) {
        return None;
    }
    Some(escaped_size(b))
}

// A number that counts, else none.
fn worth(counts: bool, n: u8) -> u8
    ensures { (result ≡ cond counts n 0) × (result ≤ n) }
{
    if counts {
        return n;
    }
    0
}

// How many bytes more than one a byte of a text has in the XML, in one expression: blocks of it are fast.
fn extra(b: u8) -> u8
    ensures { (1 + result ≡ length (escaped b)) × (result ≤ 5) }
{
    worth(b == b'&', 4) + worth((b == b'<') | (b == b'>'), 3) + worth(b == b'"', 5)
}

// Whether a byte may start a character that is not written.
fn unsure(b: u8) -> bool
    ensures { result ≡ false → (0x20 ≤ b) × (b ≡ 0xEF → ⊥) }
{
    (b < 0x20) | (b == 0xEF)
}

// How many bytes the 32 bytes from i on have in the XML, where that is seen at once.
fn block_size(text: &[u8], i: usize) -> Option<usize>
    requires { i ≤ length text.now }
    ensures { IfSome result (Grows text.now i 32) }
{
    if text.len() - i < 32 {
        return None;
    }
    let mut more = 0u8;
    let mut other = false;
    for j in 0..32 {
        let b = text[i + j];
        more = more + extra(b);
        other = other | unsure(b);
    }
    if other {
        return None;
    }
    Some(32 + more as usize)
}

// How many bytes a text has in the XML, where every character of it is written:
// a run of quiet bytes, then blocks, and 32 bytes one by one where a block is not seen at once.
fn filled_size(text: &[u8]) -> Option<usize>
    requires { length text.now ≤ 16777216 }
    ensures { result ≡ size_of text.now }
{
    let mut i = xml_escape::quiet_run(text, 0, 0xFF);
    let mut size = i;
    let mut left = 0usize;
    // Kept: a turn passes more than one byte, so no range or iterator fits.
    while i < text.len() {
        if left == 0 {
            match block_size(text, i) {
                None => {
                    left = 32;
                }
                Some(32) => {
                    let next = xml_escape::quiet_blocks(text, i + 32, 0xFF);
                    size += next - i;
                    i = next;
                }
                Some(n) => {
                    size += n;
                    i += 32;
                }
            }
        } else {
            left -= 1;
            size += size_at(text, i)?;
            i += 1;
        }
    }
    Some(size)
}

// Whether a text of 8 to 32 bytes from `first` on is quiet: 32 bytes of the file are looked at at once.
fn quiet_short(file: &[u8], first: usize, n: usize) -> bool
    ensures { result ≡ true → AllQuiet 0xFF file.now first n }
{
    if n < 8 {
        return false;
    }
    if 32 < n {
        return false;
    }
    if n <= xml_escape::quiet_start(file, first) {
        return true;
    }
    false
}

// The same as `filled_size` for the n bytes of a file from `first` on: an empty text is told by one test, and a short one at once where it is quiet.
pub(crate) fn text_size(file: &[u8], first: usize, n: usize) -> Option<usize>
    requires { (length file.now ≤ 16777216) × (first + n ≤ length file.now) }
    ensures { result ≡ size_of (take n (drop first file.now)) }
{
    if n == 0 {
        return Some(0);
    }
    if quiet_short(file, first, n) {
        return Some(n);
    }
    let end = first + n;
    filled_size(&file[first..end])
}

// Whether a byte of a text is written as an entity, in one expression: blocks of it are fast.
fn signed(b: u8) -> bool
    ensures { result ≡ false → Alone b }
{
    (b == b'"') | (b == b'&') | (b == b'<') | (b == b'>')
}

// Those bytes, told by one expression.
#[derive(Clone, Copy)]
struct SignedBytes;

impl Class for SignedBytes {
    ghost Tells = { λ c b r. r ≡ false → Alone b };

    fn has(&self, b: u8) -> bool {
        signed(b)
    }
}

// The same: letters are told by one test.
fn sign(b: u8) -> bool
    ensures { result ≡ false → Alone b }
{
    if b'>' < b {
        return false;
    }
    signed(b)
}

// Those bytes, letters by one test.
#[derive(Clone, Copy)]
struct SignBytes;

impl Class for SignBytes {
    ghost Tells = { λ c b r. r ≡ false → Alone b };

    fn has(&self, b: u8) -> bool {
        sign(b)
    }
}

// Bytes into the output.
fn put_slice(out: &mut [u8], to: usize, bytes: &[u8])
    requires { to + length bytes.now ≤ length out.old }
    ensures { Put bytes.now to out.old out.new }
{
    out[to..to + bytes.len()].copy_from_slice(bytes);
}

// The bytes of a literal into the output: by value, so that the compiler stores them at once.
fn put<const N: usize>(out: &mut [u8], to: usize, bytes: [u8; N])
    requires { to + length bytes ≤ length out.old }
    ensures { Put bytes.entry to out.old out.new }
{
    put_slice(out, to, &bytes);
}

// n bytes from `from` on, 32 at most, into the output: 16 or more by two blocks of 16 that may overlap.
fn put_near(text: &[u8], out: &mut [u8], from: usize, to: usize, n: usize)
    requires { (from + n ≤ length text.now) × (to + n ≤ length out.old) × (n ≤ 32) }
    ensures { Put (take n (drop from text.now)) to out.old out.new }
{
    if n < 16 {
        fill::copy(out, to, text, from, n);
        return;
    }
    let more = n - 16;
    put_slice(out, to, &text[from..from + 16]);
    put_slice(out, to + more, &text[from + more..from + more + 16]);
}

// Puts such bytes from `from` on: up to the first of 32 that is not, or blocks; none where fewer than 32 are left. Answers where they end.
fn put_far(text: &[u8], out: &mut [u8], from: usize, to: usize) -> usize
    requires { (from ≤ length text.now) × (to + (length text.now - from) ≤ length out.old) }
    ensures { RunPut text.now from to out.old out.new result }
{
    let Some(block) = text[from..].first_chunk::<32>() else {
        return from;
    };
    let n = first_of(block, &SignedBytes);
    if n < 32 {
        put_near(text, out, from, to, n);
        return from + n;
    }
    let next = from + 32;
    let end = next + past_blocks(&text[next..], &SignedBytes);
    fill::copy(out, to, text, from, end - from);
    end
}

// The same: up to eight one by one, then the rest at once.
fn put_run(text: &[u8], out: &mut [u8], from: usize, to: usize) -> usize
    requires { (from ≤ length text.now) × (to + (length text.now - from) ≤ length out.old) }
    ensures { RunPut text.now from to out.old out.new result }
{
    let Some(start) = text[from..].first_chunk::<8>() else {
        let end = to + (text.len() - from);
        return from + put_before(&text[from..], &mut out[to..end], &SignBytes);
    };
    let n = put_before(start, &mut out[to..to + 8], &SignBytes);
    if n < 8 {
        return from + n;
    }
    put_far(text, out, from + 8, to + 8)
}

// The entity of a byte into the output; answers how many bytes it has. Nothing is put for a byte that has none. `&` is told first, then letters.
fn put_entity(out: &mut [u8], to: usize, b: u8) -> Option<usize>
    requires { to + length (escaped b) ≤ length out.old }
    ensures { EntityPut b to out.old out.new result }
{
    if b == b'&' {
        put(out, to, *b"&amp;");
        return Some(5);
    }
    if b'>' < b {
        return None;
    }
    if b == b'<' {
        put(out, to, *b"&lt;");
        return Some(4);
    }
    if b == b'>' {
        put(out, to, *b"&gt;");
        return Some(4);
    }
    if b == b'"' {
        put(out, to, *b"&quot;");
        return Some(6);
    }
    None
}

// A text into the output; answers where it ends.
#[inline(never)]
fn put_text(text: &[u8], out: &mut [u8], to: usize) -> usize
    requires { to + length (escape text.now) ≤ length out.old }
    ensures { PutTo (escape text.now) to out.old out.new result }
{
    let mut i = 0;
    let mut j = to;
    // Kept: a turn passes more than one byte, so no range or iterator fits.
    while i < text.len() {
        let b = text[i];
        match put_entity(out, j, b) {
            None => {
                out[j] = b;
                let next = put_run(text, out, i + 1, j + 1);
                j += next - i;
                i = next;
            }
            Some(n) => {
                j += n;
                i += 1;
            }
        }
    }
    j
}

// Whether each of the 8 to 32 bytes of a text from `first` on is written as it is: 32 bytes of the file are looked at at once.
fn plain_short(file: &[u8], first: usize, n: usize) -> bool
    requires { first ≤ length file.now }
    ensures { result ≡ true → AllOf Alone file.now first n }
{
    if n < 8 {
        return false;
    }
    if 32 < n {
        return false;
    }
    let Some(block) = file[first..].first_chunk::<32>() else {
        return false;
    };
    if n <= first_of(block, &SignedBytes) {
        return true;
    }
    false
}

// The text of n bytes of a file from `first` on into the output: none at once, a short one by one copy where it is plain; answers where it ends.
fn put_part(file: &[u8], out: &mut [u8], first: usize, n: usize, to: usize) -> usize
    requires { (first + n ≤ length file.now) × (to + length (escape (take n (drop first file.now))) ≤ length out.old) }
    ensures { PutTo (escape (take n (drop first file.now))) to out.old out.new result }
{
    if n == 0 {
        return to;
    }
    if plain_short(file, first, n) {
        fill::copy(out, to, file, first, n);
        return to + n;
    }
    let end = first + n;
    put_text(&file[first..end], out, to)
}

// The item of such a text into the output; answers where it ends.
pub(crate) fn put_item(file: &[u8], out: &mut [u8], first: usize, n: usize, to: usize) -> usize
    requires { (first + n ≤ length file.now) × (to + length (item (take n (drop first file.now))) ≤ length out.old) }
    ensures { PutTo (item (take n (drop first file.now))) to out.old out.new result }
{
    put(out, to, *b"<Item>");
    let end = put_part(file, out, first, n, to + 6);
    put(out, end, *b"</Item>");
    end + 7
}
