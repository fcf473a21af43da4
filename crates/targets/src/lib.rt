// The types of reader names. In code a type is a place in an array of codes: its own code stands there, and its arguments' codes after it.
#![tactic(auto)]

ghost use Rattle.std.specs.Prelude.{◌≡◌, cond, ◌<◌, ◌≤◌, length, drop};
ghost use Rattle.layout.specs.Named.{plain};
ghost use Rattle.layout.specs.Complaint.{is_known};
ghost use Rattle.names.specs.Entries.{enums_of};
ghost use Rattle.targets.specs.Code.{head_at};
ghost use Rattle.targets.specs.Place.{kind_at, place_after, same_code, agree, equal_at, fits_at};
ghost use Rattle.targets.specs.Judge.{head_ok, value_ok, bad_arguments, bad_enum, bad_reader, complaint};
ghost use Rattle.targets.specs.Settling.{Settles};
ghost use Rattle.targets.specs.Contract.{enum_word, unresolved, Resolves};

use answers::Refusal;
use names::bytes::Class;
use names::kinds;
use names::parse::Unnamed;

// The types that fonts, pages and meshes declare have so many codes, at the start of the array.
pub const PRELUDE: usize = 12;

// The kind of the type at a place, as its code has it.
pub fn kind_at(codes: &[u32], a: usize) -> u32
    ensures { result ≡ kind_at codes.now a }
{
    if a < codes.len() {
        return codes[a] % 64;
    }
    0
}

// The place after the type at a place. The first argument of a type stands at the next place, the second after the first.
pub fn after(codes: &[u32], a: usize) -> usize
    ensures { result ≡ place_after codes.now a }
{
    let mut need: usize = 1;
    for i in a..codes.len() {
        if need == 0 {
            return i;
        }
        need = need - 1 + (codes[i] / 64 % 4) as usize;
    }
    a.max(codes.len())
}

// The head that stands at a place of the file.
fn head_at(file: &[u8], a: usize) -> &[u8]
    ensures { result.now ≡ head_at file.now a }
{
    let rest = &file[a.min(file.len())..];
    &rest[..names::bytes::run(rest, Class::Head)]
}

// Two codes have one kind, as many arguments and, if they are enums, one name.
fn same_code(file: &[u8], x: u32, y: u32) -> bool
    ensures { result ≡ same_code file.now x y }
{
    if x % 256 != y % 256 {
        return false;
    }
    if x % 64 < kinds::ENUM_OF_1 {
        return true;
    }
    head_at(file, (x / 256) as usize) == head_at(file, (y / 256) as usize)
}

// The types that two parts of the codes begin with are the same: their codes are, and the names of their enums in the file.
fn same_types(file: &[u8], s: &[u32], t: &[u32]) -> bool
    ensures { result ≡ agree file.now s.now 1 t.now }
{
    let mut need: usize = 1;
    for i in 0..s.len().min(t.len()) {
        if need == 0 {
            return true;
        }
        if !same_code(file, s[i], t[i]) {
            return false;
        }
        need = need - 1 + (s[i] / 64 % 4) as usize;
    }
    need == 0
}

// The types at two places are the same.
pub fn equal(file: &[u8], codes: &[u32], a: usize, b: usize) -> bool
    ensures { result ≡ equal_at file.now codes.now a b }
{
    let most = codes.len();
    same_types(file, &codes[a.min(most)..], &codes[b.min(most)..])
}

// An object declared as the type at d may be read by a reader of the type at t.
pub fn fits(file: &[u8], codes: &[u32], d: usize, t: usize) -> bool
    ensures { result ≡ fits_at file.now codes.now d t }
{
    match (kind_at(codes, d), kind_at(codes, t)) {
        (kinds::OBJECT, _) => true,
        (kinds::TEXTURE, kinds::TEXTURE_2D) => true,
        _ => equal(file, codes, d, t),
    }
}

fn plain_ok(b: u32) -> bool
    requires { b < 60 }
    ensures { result ≡ is_known (plain b) }
{
    matches!(b, kinds::BYTE..=kinds::OBJECT | kinds::TIME_SPAN..=kinds::PAGE | kinds::INDEX_BUFFER..=kinds::MODEL)
}

fn head_ok(b: u32) -> bool
    ensures { result ≡ head_ok b }
{
    if b < kinds::ENUM_OF_1 {
        return plain_ok(b);
    }
    b <= kinds::ENUM_OF_8 || matches!(b, kinds::NULLABLE | kinds::LIST | kinds::DICTIONARY)
}

fn value_ok(b: u32) -> bool
    ensures { result ≡ value_ok b }
{
    matches!(b, kinds::BYTE..=kinds::BOOLEAN | kinds::CHAR | kinds::TIME_SPAN..=kinds::RECTANGLE | kinds::ENUM_OF_1..=kinds::ENUM_OF_8)
}

fn argument_ok(nullable: bool, b: u32) -> bool
    ensures { result ≡ cond nullable (value_ok b) (head_ok b) }
{
    if nullable { value_ok(b) } else { head_ok(b) }
}

// The leftmost place that is complained of among the codes of arguments; `first` says that the head before them was Nullable.
fn bad_arguments(s: &[u32], first: bool) -> Option<usize>
    ensures { result ≡ complaint (bad_arguments first s.now) }
{
    let mut nullable = first;
    for w in s {
        let b = w % 256;
        if !argument_ok(nullable, b) {
            let place = (w / 256) as usize;
            return Some(place);
        }
        nullable = b == kinds::NULLABLE;
    }
    None
}

// The place of Enum's own argument, if it is complained of.
fn bad_enum(s: &[u32]) -> Option<usize>
    ensures { result ≡ complaint (bad_enum s.now) }
{
    let w = s.first()?;
    match w % 256 {
        0 | kinds::ENUM_OF_1..=kinds::ENUM_OF_8 => None,
        _ => Some((w / 256) as usize),
    }
}

// The leftmost place that is complained of among the codes of a reader's name.
fn bad_reader(s: &[u32]) -> Option<usize>
    ensures { result ≡ complaint (bad_reader s.now) }
{
    let (w, arguments) = s.split_first()?;
    match w % 256 {
        kinds::ENUM_READER => bad_enum(arguments),
        kinds::ARRAY => bad_arguments(arguments, false),
        b if head_ok(b) => bad_arguments(arguments, b == kinds::NULLABLE),
        _ => Some((w / 256) as usize),
    }
}

// The code of an enum type that is Enum's own argument: one that is not listed has four bytes.
fn enum_word(v: u32) -> u32
    ensures { result ≡ enum_word v }
{
    if v % 256 == 0 {
        return v + kinds::ENUM_OF_4;
    }
    v
}

// The target of an enum's reader is put where the reader's own code is; every other one is there already. The target's end.
fn settle(codes: &mut [u32], used: usize, end: usize) -> usize
    requires { (used < end) × (end ≤ length codes.old) }
    ensures { Settles codes.old codes.new used end result }
{
    if end - used < 2 {
        return end;
    }
    if codes[used] % 256 != kinds::ENUM_READER {
        return end;
    }
    let next = used + 1;
    codes[used] = enum_word(codes[next]);
    next
}

// Why a reader's name has no target: it is refused, or its head at a place is refused with 11,
// or there is no room for the codes of its heads or for their places.
#[derive(Clone, Copy, Debug, PartialEq, Eq)]
pub enum Unresolved {
    Broken(Refusal),
    Unknown(usize),
    NoRoom,
}

impl From<Unnamed> for Unresolved {
    ghost from_gives = { λ unnamed e. e ≡ unresolved unnamed };

    fn from(unnamed: Unnamed) -> Unresolved {
        match unnamed {
            Unnamed::Broken(refusal) => Unresolved::Broken(refusal),
            Unnamed::NoRoom => Unresolved::NoRoom,
        }
    }
}

// Reads a whole reader name, whose first byte is at `at` in the file, and leaves the codes of its target in
// `codes` from `used` on: how many codes are used then.
pub fn resolve(
    name: &[u8],
    at: usize,
    enums: &[u8],
    codes: &mut [u32],
    used: usize,
) -> Result<usize, Unresolved>
    ensures { Resolves (enums_of enums.now) name.now at codes.old codes.new used result }
{
    let end = names::parse::read_name(name, at, enums, codes, used)?;
    match bad_reader(&codes[used..end]) {
        Some(place) => Err(Unresolved::Unknown(place)),
        None => Ok(settle(codes, used, end)),
    }
}
