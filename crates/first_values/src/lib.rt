// The first objects of a list, as far as each is seen at one look: null, a value of fixed size, or a short text.
#![tactic(auto)]

ghost use Rattle.std.specs.Prelude.{◌≡◌, List, ℕ, ◌+◌, ◌≤◌, ◌<◌, true, get_or};
ghost use Rattle.reading.specs.Answer.{read};
ghost use Rattle.reading.specs.Seven.{seven_at};
ghost use Rattle.numbers.specs.Padded.{pad_of};
ghost use Rattle.heads.specs.Placed.{bytes_of};
ghost use Rattle.objects.specs.Beginnings.{position_at};
ghost use Rattle.first_values.specs.Looks.{Numbered, TextEnds, Ends, Wanted, Wants, Looked};
ghost use Rattle.first_values.specs.Took.{Took};

use ids::RowNumber;
use names::kinds;
use table::Grid;
use walked::Head;

// A type id: the number, where it ends and its padding.
#[derive(Clone, Copy, Debug, PartialEq, Eq)]
pub struct Id {
    pub id: u32,
    pub next: usize,
    pub padding: u32,
}

// An object that was seen: where it ends, its kind, its type id and the padding of that.
#[derive(Clone, Copy, Debug, PartialEq, Eq)]
pub struct Seen {
    pub end: usize,
    pub kind: u32,
    pub id: u32,
    pub padding: u32,
}

// Which types are seen where a type is declared: all, only texts, or none.
#[derive(Clone, Copy, Debug, PartialEq, Eq)]
pub enum Choice {
    All,
    Texts,
    Nothing,
}

// How many objects were taken, where the next one begins, and the padding of their type ids.
#[derive(Clone, Copy, Debug, PartialEq, Eq)]
pub struct Front {
    pub count: u32,
    pub next: usize,
    pub padding: u32,
}

// The type id at a place, if it can be read. Most have one byte.
fn id_at(file: &[u8], at: usize) -> Option<Id>
    ensures { Numbered file.now at result }
{
    if file.len() <= at {
        return None;
    }
    let id = file[at] as u32;
    if id < 128 {
        let next = at + 1;
        return Some(Id {
            id,
            next,
            padding: 0,
        });
    }
    let Ok(read) = numbers::seven::seven_padded(file, at) else {
        return None;
    };
    Some(Id {
        id: read.value as u32,
        next: read.next,
        padding: read.padding,
    })
}

// Where a text ends, if its count has one byte and it has less than 64.
fn text_end(file: &[u8], at: usize) -> Option<usize>
    ensures { TextEnds file.now at result }
{
    if file.len() <= at {
        return None;
    }
    let n = file[at] as usize;
    if 64 <= n {
        return None;
    }
    let start = at + 1;
    if file.len() - start < n {
        return None;
    }
    let end = start + n;
    if text::is_short_utf8(&file[start..end]) {
        return Some(end);
    }
    None
}

// How many bytes a value of a kind has; those of most boxed numbers need no table.
#[tactic(auto, unfolding(heads::specs::Placed::bytes_of, layout::specs::Fixed::sizes))]
fn size_of(kind: u32) -> usize
    ensures { result ≡ bytes_of kind }
{
    match kind {
        kinds::BYTE | kinds::SBYTE | kinds::BOOLEAN => 1,
        kinds::INT_16 | kinds::UINT_16 => 2,
        kinds::INT_32 | kinds::UINT_32 | kinds::SINGLE => 4,
        kinds::INT_64 | kinds::UINT_64 | kinds::DOUBLE => 8,
        _ => heads::slot::bytes_of(kind),
    }
}

// Where a raw value of the type at `place` ends, if it is a short text or has a fixed size.
fn leaf_end(file: &[u8], codes: &[u32], place: usize, at: usize) -> Option<usize>
    ensures { Ends file.now codes.now place at result }
{
    if codes.len() <= place {
        return None;
    }
    let kind = targets::kind_at(codes, place);
    if kind == kinds::STRING {
        return text_end(file, at);
    }
    let size = size_of(kind);
    if size == 0 {
        return None;
    }
    let Ok(read) = values::fixed_at(file, kind, size, at) else {
        return None;
    };
    Some(read.next)
}

// Which types are seen where the type at `declared` is declared: all if it is Object, only texts if it is String.
fn wanted_code(codes: &[u32], declared: usize) -> Choice
    ensures { (file : List ℕ) → Wants file codes.now declared result }
{
    if codes.len() <= declared {
        return Choice::Nothing;
    }
    let code = codes[declared] % 256;
    if code % 64 == kinds::OBJECT {
        return Choice::All;
    }
    if code == kinds::STRING {
        return Choice::Texts;
    }
    Choice::Nothing
}

// The type at `place` has a code that is wanted.
fn is_wanted(codes: &[u32], wanted: Choice, place: usize) -> bool
    ensures { result ≡ true → Wanted codes.now wanted place }
{
    match wanted {
        Choice::All => true,
        Choice::Texts => place < codes.len() && codes[place] % 256 == kinds::STRING,
        Choice::Nothing => false,
    }
}

// The object whose type id was read, where the wanted types are seen.
fn named(
    file: &[u8],
    codes: &[u32],
    targets: &[u16; 64],
    count: u32,
    wanted: Choice,
    it: Id,
) -> Option<Seen>
    ensures { (declared at : ℕ) → Wants file.now codes.now declared wanted
        → seven_at file.now at ≡ read it.id it.next → pad_of (seven_at file.now at) at ≡ it.padding
        → Looked file.now codes.now count (get_or targets.now (position_at file.now at) 0) declared at result }
{
    if it.id == 0 {
        return Some(Seen {
            end: it.next,
            kind: 0,
            id: 0,
            padding: it.padding,
        });
    }
    let i = it.id - 1;
    if count <= i || 64 <= i {
        return None;
    }
    let place = usize::from(targets[i as usize]);
    if !is_wanted(codes, wanted, place) {
        return None;
    }
    let end = leaf_end(file, codes, place, it.next)?;
    let kind = heads::slot::row_kind(codes, place);
    Some(Seen {
        end,
        kind,
        id: it.id,
        padding: it.padding,
    })
}

// The object at a place, where the wanted types are seen.
fn look(
    file: &[u8],
    codes: &[u32],
    targets: &[u16; 64],
    count: u32,
    wanted: Choice,
    at: usize,
) -> Option<Seen>
    ensures { (declared : ℕ) → Wants file.now codes.now declared wanted
        → Looked file.now codes.now count (get_or targets.now (position_at file.now at) 0) declared at result }
{
    let it = id_at(file, at)?;
    named(file, codes, targets, count, wanted, it)
}

// How many of n rows from `used` on there is room for.
fn fitting(room: u32, used: u32, n: u32) -> u32
    ensures { (result ≤ n) × ((k : ℕ) → k < result → used + k < room) }
{
    room.saturating_sub(used).min(n)
}

// Takes the first of n objects that are declared as the type at `declared`, with rows from `used` on.
pub fn take(
    file: &[u8],
    codes: &[u32],
    targets: &[u16; 64],
    count: u32,
    declared: usize,
    words: &mut [u32],
    grid: Grid,
    n: u32,
    at: usize,
    used: u32,
) -> Front
    ensures { (result.count ≤ n) × Took grid file.now codes.now targets.now count declared used words.old
        at result.count result.next result.padding words.new }
{
    let wanted = wanted_code(codes, declared);
    let most = fitting(grid.room, used, n);
    let mut next = at;
    let mut sum = 0;
    for taken in 0..most {
        let Some(seen) = look(file, codes, targets, count, wanted, next) else {
            return Front {
                count: taken,
                next,
                padding: sum,
            };
        };
        let row = used + taken;
        let h = Head {
            row: RowNumber(row),
            first: next,
            parent: used,
            detail: seen.id,
            padding: seen.padding,
        };
        let r = walked::row_words(h, seen.kind, 0, 1, seen.end);
        table::put_row(words, grid, RowNumber(row), r);
        next = seen.end;
        sum = table::sum(sum, seen.padding);
    }
    Front {
        count: most,
        next,
        padding: sum,
    }
}
