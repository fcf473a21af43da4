// The reader list of a file: the type of each reader, as a place in an array of codes, and the first byte of its name.
#![tactic(auto)]

ghost use Rattle.std.specs.Prelude.{◌≡◌, ◌+◌, ◌≤◌, ◌<◌, length};
ghost use Rattle.answers.specs.Told.{told};
ghost use Rattle.reading.specs.Seven.{seven_at};
ghost use Rattle.names.specs.Entries.{enums_of};
ghost use Rattle.numbers.specs.Padded.{pad_of};
ghost use Rattle.readers.specs.declared.Unlisted.TheVariants.{Refused};
ghost use Rattle.readers.specs.Parts.{up_to, version_at, end_of};
ghost use Rattle.readers.specs.Left.{named_left, reader_left, readers_left, shared_left, codes_for, lists_left, arrays, Sized};

use answers::{Number, Refusal, Rule};
use targets::Unresolved;

// The types and names of the first `count` readers.
// Kept: two arrays and not one of pairs, since what may not change, `Listed` and `lists_left` in specs/, has each list by itself.
#[derive(Clone, Copy)]
pub struct Readers {
    pub count: u32,
    pub targets: [u16; 64],
    pub starts: [u16; 64],
}

// Where the reader list of a file starts: behind the header.
pub const START: usize = 10;

// One reader: the first byte of its name, how many codes are used, and the next place.
#[derive(Clone, Copy, Debug, PartialEq, Eq)]
pub struct Reader {
    pub name: usize,
    pub end: usize,
    pub next: usize,
}

// A seven-bit number that is at most `most`.
fn up_to(file: &[u8], most: u64, at: usize) -> Number
    ensures { told result ≡ up_to most file.now at }
{
    let number = numbers::seven::seven_at(file, at)?;
    if number.value <= most {
        return Ok(number);
    }
    Err(Rule::TooLarge.at(at))
}

// The padding of the seven-bit number at a place; 0 where there is none.
fn padding_at(file: &[u8], at: usize) -> u32
    ensures { result ≡ pad_of (seven_at file.now at) at }
{
    match numbers::seven::seven_padded(file, at) {
        Ok(number) => number.padding,
        Err(_) => 0,
    }
}

// A reader's version, which is 0.
fn version_at(file: &[u8], at: usize) -> Number
    ensures { told result ≡ version_at file.now at }
{
    let version = numbers::little::little::<u32>(file, at)?;
    if version.value != 0 {
        return Err(Rule::ReaderVersion.at(at));
    }
    Ok(version)
}

// The version of a reader whose name starts at `first` and whose codes end before `end`.
fn versioned(file: &[u8], first: usize, end: usize, at: usize) -> Result<Reader, Refusal>
    ensures { result ≡ end_of first end (version_at file.now at) }
{
    let version = version_at(file, at)?;
    Ok(Reader {
        name: first,
        end,
        next: version.next,
    })
}

// A reader whose name has n bytes from `first` on, which its count at `at` says.
fn named_at(
    file: &[u8],
    enums: &[u8],
    codes: &mut [u32],
    used: usize,
    at: usize,
    first: usize,
    n: usize,
) -> Result<Reader, Refusal>
    requires { (first ≤ length file.now) × (n ≤ 1024) }
    ensures { named_left (enums_of enums.now) file.now codes.old used at first n ≡ (result, codes.new) }
{
    if !numbers::little::has_bytes(file, first, n) {
        return Err(Rule::PastEnd.at(at));
    }
    let version = first + n;
    match targets::resolve(&file[first..version], first, enums, codes, used) {
        Ok(end) => versioned(file, first, end, version),
        Err(Unresolved::Broken(refusal)) => Err(refusal),
        Err(Unresolved::Unknown(place)) => Err(Rule::NameHead.at(place)),
        Err(Unresolved::NoRoom) => Err(Rule::PastEnd.at(at)),
    }
}

// A reader: the count of its name's bytes, its name and its version.
fn reader_at(
    file: &[u8],
    enums: &[u8],
    codes: &mut [u32],
    used: usize,
    at: usize,
) -> Result<Reader, Refusal>
    ensures { reader_left (enums_of enums.now) file.now codes.old used at ≡ (result, codes.new) }
{
    let count = numbers::seven::seven_at(file, at)?;
    if count.value == 0 {
        return Err(Rule::TooLarge.at(at));
    }
    if 1024 < count.value {
        return Err(Rule::TooLarge.at(at));
    }
    named_at(
        file,
        enums,
        codes,
        used,
        at,
        count.next,
        count.value as usize,
    )
}

// The padding of the lengths of all readers' names, and the place behind the readers.
#[derive(Clone, Copy, Debug, PartialEq, Eq)]
pub struct Ended {
    pub padding: u32,
    pub next: usize,
}

// The readers in order. The codes of the first stand behind the prelude, those of each other behind those before it.
fn readers_at(
    file: &[u8],
    enums: &[u8],
    codes: &mut [u32],
    targets: &mut [u16],
    starts: &mut [u16],
    n: usize,
    at: usize,
) -> Result<Ended, Refusal>
    requires { Sized file.now n codes.old targets.old starts.old × (at ≤ 15) }
    ensures { readers_left (enums_of enums.now) file.now n at codes.old targets.old starts.old
        ≡ (result, arrays codes.new targets.new starts.new) }
{
    let mut used: usize = targets::PRELUDE;
    let mut next = at;
    let mut padding = 0;
    for i in 0..n {
        let reader = reader_at(file, enums, codes, used, next)?;
        targets[i] = used as u16;
        starts[i] = reader.name as u16;
        used = reader.end;
        padding += padding_at(file, next);
        next = reader.next;
    }
    Ok(Ended { padding, next })
}

// How many readers there are, the shared count, the padding of both counts and of the names' lengths, and the next place.
#[derive(Clone, Copy, Debug, PartialEq, Eq)]
pub struct Lists {
    pub readers: u32,
    pub shared: u32,
    pub padding: u32,
    pub next: usize,
}

// Why the lists of a file are not read: they are refused, or there is no room for the codes that so many readers may need.
#[derive(Clone, Copy, Debug, PartialEq, Eq)]
pub enum Unlisted {
    Refused(Refusal),
    NoRoom,
}

impl From<Refusal> for Unlisted {
    ghost from_gives = { λ refusal e. e ≡ Refused refusal };

    fn from(refusal: Refusal) -> Unlisted {
        Unlisted::Refused(refusal)
    }
}

// The readers and the shared count, behind the reader count, which has this padding.
fn counted(
    file: &[u8],
    enums: &[u8],
    codes: &mut [u32],
    targets: &mut [u16],
    starts: &mut [u16],
    n: usize,
    at: usize,
    padding: u32,
) -> Result<Lists, Unlisted>
    requires { Sized file.now n codes.old targets.old starts.old × (at ≤ 15) × (padding ≤ 4) }
    ensures { shared_left (enums_of enums.now) file.now n at padding
        codes.old targets.old starts.old ≡ (result, arrays codes.new targets.new starts.new) }
{
    let names = readers_at(file, enums, codes, targets, starts, n, at)?;
    let shared = up_to(file, 256, names.next)?;
    Ok(Lists {
        readers: n as u32,
        shared: shared.value as u32,
        padding: padding + names.padding + padding_at(file, names.next),
        next: shared.next,
    })
}

// How many readers there are, by the count at a place.
pub fn reader_count(file: &[u8], at: usize) -> Number
    ensures { told result ≡ up_to 64 file.now at }
{
    up_to(file, 64, at)
}

// How many codes so many readers may need.
fn codes_for(n: usize) -> usize
    requires { n ≤ 64 }
    ensures { result ≡ codes_for n }
{
    if n == 0 {
        return targets::PRELUDE;
    }
    targets::PRELUDE + 93 * (n - 1) + 187
}

// The reader list and the shared count of a file. The targets' codes are left in `codes` behind the prelude,
// and where they and the names start in `targets` and `starts`.
pub fn read_lists(
    file: &[u8],
    enums: &[u8],
    codes: &mut [u32],
    targets: &mut [u16; 64],
    starts: &mut [u16; 64],
) -> Result<Lists, Unlisted>
    ensures { lists_left (enums_of enums.now) file.now 10 codes.old targets.old starts.old
        ≡ (result, arrays codes.new targets.new starts.new) }
{
    if 16777216 < file.len() {
        return Err(Unlisted::Refused(Rule::TooLarge.at(0)));
    }
    let count = reader_count(file, START)?;
    let n = count.value as usize;
    if codes.len() < codes_for(n) {
        return Err(Unlisted::NoRoom);
    }
    counted(
        file,
        enums,
        codes,
        targets,
        starts,
        n,
        count.next,
        padding_at(file, START),
    )
}
