// Texts compared: one in another from a place on, and two whole ones.
ghost use Rattle.std.specs.Prelude.{◌≡◌, ◌≤◌, length, drop};
ghost use Rattle.layout.specs.Kind.{alike};
ghost use Rattle.names.specs.Parse.{starts, common};

// How many bytes of the text stand in s from `at` on, up to the first that does not.
pub(crate) fn matched(s: &[u8], at: usize, text: &[u8]) -> usize
    requires { at ≤ length s.now }
    ensures { result ≡ common text.now (drop at s.now) }
{
    text.iter()
        .zip(&s[at..])
        .take_while(|(a, b)| a == b)
        .count()
}

// The same of any place: none stand behind the end of s.
pub fn matched_at(s: &[u8], at: usize, text: &[u8]) -> usize
    ensures { result ≡ common text.now (drop at s.now) }
{
    if s.len() < at {
        return 0;
    }
    matched(s, at, text)
}

// The text stands in s from `at` on.
pub(crate) fn stands(s: &[u8], at: usize, text: &[u8]) -> bool
    requires { at ≤ length s.now }
    ensures { result ≡ starts text.now (drop at s.now) }
{
    s[at..].starts_with(text)
}

// Two blocks of eight bytes are equal: they are compared as one number.
fn same_eight(a: &[u8; 8], b: &[u8; 8]) -> bool
    ensures { result ≡ alike a.now b.now }
{
    u64::from_le_bytes(*a) == u64::from_le_bytes(*b)
}

// Two texts are equal: their last eight bytes are compared, then the eight before, since names begin alike.
pub(crate) fn same_text(a: &[u8], b: &[u8]) -> bool
    ensures { result ≡ alike a.now b.now }
{
    if a.len() != b.len() {
        return false;
    }
    let mut x = a;
    let mut y = b;
    while let Some((x_front, x_end)) = x.split_last_chunk::<8>() {
        let Some((y_front, y_end)) = y.split_last_chunk::<8>() else {
            return false;
        };
        if !same_eight(x_end, y_end) {
            return false;
        }
        x = x_front;
        y = y_front;
    }
    x == y
}
