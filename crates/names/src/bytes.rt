// Classes of bytes in names, and runs of them.
ghost use Rattle.std.specs.Prelude.{◌≡◌};
ghost use Rattle.layout.specs.Name.{head_byte, tail_byte, all};
ghost use Rattle.names.specs.Parse.{span};
ghost use Rattle.names.specs.Contract.{class};

// A byte of a head.
fn head_byte(b: u8) -> bool
    ensures { result ≡ head_byte b }
{
    b.is_ascii_alphanumeric() || matches!(b, b'.' | b'_' | b'+')
}

// A byte of a tail.
fn tail_byte(b: u8) -> bool
    ensures { result ≡ tail_byte b }
{
    matches!(b, 0x20..=0x7E) && !matches!(b, b'[' | b']')
}

// The bytes of heads, or those of tails.
#[derive(Clone, Copy, Debug, PartialEq, Eq)]
pub enum Class {
    Head,
    Tail,
}

impl Class {
    fn has(self, b: u8) -> bool
        ensures { result ≡ class self b }
    {
        match self {
            Class::Head => head_byte(b),
            Class::Tail => tail_byte(b),
        }
    }
}

// How many bytes from the first on are of a class.
pub fn run(s: &[u8], of: Class) -> usize
    ensures { result ≡ span (class of) s.now }
{
    s.iter().take_while(|b| of.has(**b)).count()
}

// The bytes of a block are all of a class.
fn all_in_class(block: &[u8; 32], of: Class) -> bool
    ensures { result ≡ all (class of) block.now }
{
    let mut other = false;
    for b in block {
        other |= !of.has(*b);
    }
    !other
}

// The same as `run`, for long runs: 32 bytes at once as long as all are of the class.
pub(crate) fn long_run(s: &[u8], of: Class) -> usize
    ensures { result ≡ span (class of) s.now }
{
    let mut rest = s;
    while let Some((block, behind)) = rest.split_first_chunk::<32>() {
        if !all_in_class(block, of) {
            break;
        }
        rest = behind;
    }
    s.len() - rest.len() + run(rest, of)
}
