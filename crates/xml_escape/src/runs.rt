// Runs of bytes that are not of a class.
ghost use Rattle.std.specs.Prelude.{◌≡◌, ℕ, Bool, true, false, ◌+◌, ◌≤◌, min, length, take};
ghost use Rattle.xml_escape.specs.Runs.{AllOf, First, Passed};
ghost use Rattle.xml_escape.specs.Wrote.{Put};

// A class of bytes, told by one expression, so that the compiler compares the bytes of a block at once.
pub trait Class {
    // What an answer tells of a byte.
    ghost Tells: { Self → ℕ → Bool → Type 0 };

    fn has(&self, b: u8) -> bool
        ensures { Tells self.now b result };
}

// Whether none of the 32 bytes from i on is of the class.
fn none_of<C: Class>(s: &[u8], i: usize, class: &C) -> bool
    requires { i + 32 ≤ length s.now }
    ensures { result ≡ true → AllOf (λ b. C.Tells class.now b false) s.now i 32 }
{
    let mut other = false;
    for j in 0..32 {
        other = other | class.has(s[i + j]);
    }
    !other
}

// Past the blocks of 32 bytes from the first on of which none is of the class.
pub fn past_blocks<C: Class>(s: &[u8], class: &C) -> usize
    ensures { Passed (λ b. C.Tells class.now b false) s.now 0 result }
{
    let mut i = 0;
    // Kept: a turn passes more than one byte, so no range or iterator fits.
    while 32 <= s.len() - i {
        if !none_of(s, i, class) {
            return i;
        }
        i += 32;
    }
    i
}

// How many bytes stand before the first of the class, one by one.
pub fn next_of<C: Class>(s: &[u8], class: &C) -> usize
    ensures { First (λ b. C.Tells class.now b false) (λ b. C.Tells class.now b true) s.now 0 (length s.now) result }
{
    for k in 0..s.len() {
        if class.has(s[k]) {
            return k;
        }
    }
    s.len()
}

// Puts the bytes before the first of the class into the output, one by one, as far as both last; answers how many.
pub fn put_before<C: Class>(s: &[u8], out: &mut [u8], class: &C) -> usize
    ensures found { First (λ b. C.Tells class.now b false) (λ b. C.Tells class.now b true) s.now 0 (min (length s.now) (length out.old)) result }
    ensures out_after { Put (take result s.now) 0 out.old out.new }
{
    let n = s.len().min(out.len());
    for k in 0..n {
        let b = s[k];
        if class.has(b) {
            return k;
        }
        out[k] = b;
    }
    n
}

// How many of N bytes stand before the first of the class: all are looked at, where they are 255 at most.
pub fn first_of<const N: usize, C: Class>(s: &[u8; N], class: &C) -> usize
    ensures { First (λ b. C.Tells class.now b false) (λ b. C.Tells class.now b true) s.now 0 N result }
{
    if 255 < N {
        return next_of(s, class);
    }
    let n = N as u8;
    let mut first = n;
    for j in 0..n {
        let here = if class.has(s[j as usize]) { j } else { n };
        first = first.min(here);
    }
    first as usize
}
