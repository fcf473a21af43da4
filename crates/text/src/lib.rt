// UTF-8 by RFC 3629: one character at a place, and whether a whole text is lawful.
#![tactic(auto)]

ghost use Rattle.std.specs.Prelude.{◌≡◌, true, false, ℕ, ◌+◌, ◌-◌, ◌*◌, ◌^◌, ◌≤◌, ◌<◌, length, get_or, drop};
ghost use Rattle.reading.specs.Utf8.{least, most, follow, char_size, char_at, utf8s};
ghost use Rattle.answers.specs.Told.{told};
ghost use Rattle.text.specs.Passed.{Ascii, Passed, Ran};
ghost use Rattle.text.specs.Window.{Fits, AllFit, Three};

use answers::{Number, Read, Rule};
use widen::wide;

// The character of one to three bytes at `at`.
pub fn char_at(s: &[u8], at: usize) -> Number
    ensures { told result ≡ char_at s.now at }
{
    if s.len() <= at {
        return Err(Rule::PastEnd.at(at));
    }
    let b = s[at];
    if b < 0x80 {
        return Ok(Read {
            value: wide(b),
            next: at + 1,
        });
    }
    if b < 0xC2 {
        return Err(Rule::BadValue.at(at));
    }
    if b < 0xE0 {
        return char_two(s, at);
    }
    if b < 0xF0 {
        return char_three(s, at);
    }
    Err(Rule::BadValue.at(at))
}

// The character at `at` that a lead byte of two bytes starts.
fn char_two(s: &[u8], at: usize) -> Number
    requires { (at < length s.now) × ((0xC2 ≤ get_or s.now at 0) × (get_or s.now at 0 < 0xE0)) }
    ensures { told result ≡ char_at s.now at }
{
    if s.len() - at < 2 {
        return Err(Rule::PastEnd.at(at));
    }
    let b = s[at];
    let i = at + 1;
    if follows::<1>(s, i, b) {
        let v = wide(b) - 0xC0;
        return Ok(Read {
            value: with_six(v, s[i]),
            next: at + 2,
        });
    }
    Err(Rule::BadValue.at(at))
}

// The character at `at` that a lead byte of three bytes starts.
fn char_three(s: &[u8], at: usize) -> Number
    requires { (at < length s.now) × ((0xE0 ≤ get_or s.now at 0) × (get_or s.now at 0 < 0xF0)) }
    ensures { told result ≡ char_at s.now at }
{
    if s.len() - at < 3 {
        return Err(Rule::PastEnd.at(at));
    }
    let b = s[at];
    let i = at + 1;
    let j = at + 2;
    if follows::<2>(s, i, b) {
        let v = with_six(wide(b) - 0xE0, s[i]);
        return Ok(Read {
            value: with_six(v, s[j]),
            next: at + 3,
        });
    }
    Err(Rule::BadValue.at(at))
}

// Whether `s` is UTF-8: block by block, and what no block takes, one character after the other.
pub fn is_utf8(s: &[u8]) -> bool
    ensures { result ≡ utf8s s.now }
{
    let b = past_blocks(s);
    let a = ascii_blocks(s, b, 16);
    s.len() <= chars(s, a)
}

// Whether `s` is UTF-8, for short texts: ASCII in two blocks, or in blocks of 16 bytes, the last of which may overlap; then one character after the other.
pub fn is_short_utf8(s: &[u8]) -> bool
    ensures { result ≡ utf8s s.now }
{
    if short_ascii(s) {
        return true;
    }
    let a = ascii_blocks(s, 0, 16);
    if ascii_end(s, a) {
        return true;
    }
    s.len() <= chars(s, a)
}

// Whether `s` has 4 to 32 bytes, and all are ASCII.
fn short_ascii(s: &[u8]) -> bool
    ensures { result ≡ true → Passed s.now 0 (length s.now) }
{
    let n = s.len();
    if n < 4 {
        return false;
    }
    if n < 8 {
        return two_blocks(s, 4);
    }
    if n < 16 {
        return two_blocks(s, 8);
    }
    if n <= 32 {
        return two_blocks(s, 16);
    }
    false
}

// Whether the first n bytes and the last n, which may overlap, are ASCII.
fn two_blocks(s: &[u8], n: usize) -> bool
    requires { (n ≤ length s.now) × (length s.now ≤ n + n) }
    ensures { result ≡ true → Passed s.now 0 (length s.now) }
{
    let end = s.len() - n;
    ascii_block(s, 0, n) & ascii_block(s, end, n)
}

// Whether no more than the last 16 bytes are left from `i` on, and these are ASCII.
fn ascii_end(s: &[u8], i: usize) -> bool
    requires { i ≤ length s.now }
    ensures { result ≡ true → Passed s.now i (length s.now) }
{
    if s.len() < 16 {
        return false;
    }
    let last = s.len() - 16;
    if i < last {
        return false;
    }
    ascii_block(s, last, 16)
}

// Past the blocks of at least 64 bytes: ASCII, then other characters, as long as there are some.
fn past_blocks(s: &[u8]) -> usize
    ensures { Passed s.now 0 result }
{
    let mut i = 0;
    // Kept: a turn goes on to where three callees end, so an iterator is no plainer.
    while 64 <= s.len() - i {
        let a = ascii_blocks(s, i, 128);
        let b = ascii_blocks(s, a, 64);
        let w = char_blocks(s, b);
        if w <= i {
            return w;
        }
        i = w;
    }
    i
}

// Past the blocks of n ASCII bytes from `from` on.
fn ascii_blocks(s: &[u8], from: usize, n: usize) -> usize
    requires { (from ≤ length s.now) × (1 ≤ n) }
    ensures { Passed s.now from result }
{
    let mut i = from;
    // Kept: the place of the first block with another byte is the answer, so an iterator over blocks is no plainer.
    while n <= s.len() - i {
        if ascii_block(s, i, n) {
            i += n;
        } else {
            return i;
        }
    }
    i
}

// Whether the n bytes from i on are ASCII.
fn ascii_block(s: &[u8], i: usize, n: usize) -> bool
    requires { i + n ≤ length s.now }
    ensures { result ≡ true → Ascii s.now i n }
{
    let mut other = false;
    for j in 0..n {
        other = other | (0x80 <= s[i + j]);
    }
    !other
}

// Past the blocks of 64 bytes that fit, from `from` on, to where their last character starts or ends.
fn char_blocks(s: &[u8], from: usize) -> usize
    requires { from ≤ length s.now }
    ensures { Passed s.now from result }
{
    if s.len() - from < 67 {
        return from;
    }
    if misfits(s, from) {
        return from;
    }
    let mut at = from;
    // Kept: a block is read with the three bytes before it, and the place of the first that does not fit is the answer, so an iterator is no plainer.
    while 67 <= s.len() - at {
        if fit(s, at) {
            at += 64;
        } else {
            return last_start(s, at);
        }
    }
    last_start(s, at)
}

// Whether one of the three bytes at `at` does not fit where a character starts at `at`.
fn misfits(s: &[u8], at: usize) -> bool
    requires { at + 3 ≤ length s.now }
    ensures { result ≡ false → Three s.now at at }
{
    let x = s[at];
    let y = s[at + 1];
    let z = s[at + 2];
    wrong(0, 0, 0, x) | wrong(0, 0, x, y) | wrong(0, x, y, z)
}

// Whether each of the 64 bytes past the three at `at` fits, where those from `at` on are not all ASCII.
fn fit(s: &[u8], at: usize) -> bool
    requires { at + 67 ≤ length s.now }
    ensures { result ≡ true → AllFit s.now at 64 }
{
    if ascii_block(s, at, 64) {
        return false;
    }
    let mut bad = false;
    for j in 0..64 {
        let i = at + j;
        bad = bad | wrong(s[i], s[i + 1], s[i + 2], s[i + 3]);
    }
    !bad
}

// Whether the byte d does not fit after the bytes a, b and c.
fn wrong(a: u8, b: u8, c: u8, d: u8) -> bool
    ensures { result ≡ false → Fits a b c d }
{
    let needed = (0xC0 <= c) | (0xE0 <= b) | (0xF0 <= a);
    let follows = (low(c) <= d) & (d <= high(c));
    let never = (0xF5 <= d) | (d == 0xC0) | (d == 0xC1);
    (needed ^ follows) | never
}

// Where the character starts that the three bytes at `at` leave open, or past them where they leave none open.
fn last_start(s: &[u8], at: usize) -> usize
    requires { at + 3 ≤ length s.now }
    ensures { (from : ℕ) → Three s.now from at → Passed s.now from result }
{
    let i = at + 1;
    let j = at + 2;
    if 0xC0 <= s[j] {
        return j;
    }
    if 0xE0 <= s[i] {
        return i;
    }
    if 0xF0 <= s[at] {
        return at;
    }
    at + 3
}

// One character after the other from `from` on, to the end or to where there is none.
fn chars(s: &[u8], from: usize) -> usize
    requires { from ≤ length s.now }
    ensures { Ran s.now from result }
{
    let mut i = from;
    // Kept: a turn goes on by the size of a character, so an iterator is no plainer.
    while i < s.len() {
        if s[i] < 0x80 {
            i += 1;
        } else {
            let k = multi(s, i);
            if k == 0 {
                return i;
            }
            i += k;
        }
    }
    i
}

// How many bytes the character of more than one byte at i takes, or 0 where there is none.
// Kept: 0 and no option, as it answers the statement's char_size.
fn multi(s: &[u8], i: usize) -> usize
    requires { (i < length s.now) × (0x80 ≤ get_or s.now i 0) }
    ensures { result ≡ char_size (drop i s.now) }
{
    let b = s[i];
    if b < 0xC2 {
        return 0;
    }
    let j = i + 1;
    if b < 0xE0 {
        if follows::<1>(s, j, b) {
            return 2;
        }
        return 0;
    }
    if b < 0xF0 {
        if follows::<2>(s, j, b) {
            return 3;
        }
        return 0;
    }
    if b < 0xF5 {
        if follows::<3>(s, j, b) {
            return 4;
        }
    }
    0
}

// Whether the K bytes from i on follow the lead byte b: a second byte, and then bytes that any lead byte takes.
fn follows<const K: usize>(s: &[u8], i: usize, b: u8) -> bool
    requires { 1 ≤ K }
    ensures { result ≡ follow K (least b) (most b) (drop i s.now) }
{
    if !in_range(s, i, low(b), high(b)) {
        return false;
    }
    for j in 1..K {
        if !in_range(s, i + j, 0x80, 0xBF) {
            return false;
        }
    }
    true
}

// Whether there is a byte at i, from `low` to `high`.
fn in_range(s: &[u8], i: usize, low: u8, high: u8) -> bool
    ensures { result ≡ follow 1 low high (drop i s.now) }
{
    if s.len() <= i {
        return false;
    }
    let x = s[i];
    if x < low {
        return false;
    }
    x <= high
}

// The least second byte after the lead byte b.
fn low(b: u8) -> u8
    ensures { result ≡ least b }
{
    if b == 0xE0 {
        return 0xA0;
    }
    if b == 0xF0 {
        return 0x90;
    }
    0x80
}

// The greatest second byte after the lead byte b.
fn high(b: u8) -> u8
    ensures { result ≡ most b }
{
    if b == 0xED {
        return 0x9F;
    }
    if b == 0xF4 {
        return 0x8F;
    }
    0xBF
}

// The bits v, and then the six bits of the byte x.
fn with_six(v: u64, x: u8) -> u64
    requires { (v < 2 ^ 12) × (0x80 ≤ x) }
    ensures { result ≡ v * 64 + (x - 0x80) }
{
    v * 64 + (wide(x) - 0x80)
}
