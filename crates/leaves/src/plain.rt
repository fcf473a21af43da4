// A value that has no children and needs no reader list.
ghost use Rattle.std.specs.Prelude.{◌≡◌, ltb, IfSome};
ghost use Rattle.leaves.specs.Same.{Uniform};
ghost use Rattle.walked.specs.Leaf.{leaf_answer};
ghost use Rattle.leaves.specs.Plain.{plain_at, plain_pad, plain_value, plain_left, value_left};

use crate::read::level_at;
use answers::{Read, Rule};
use ids::ResourceId;
use names::kinds;
use table::Grid;
use walked::room::room_for;
use walked::{Head, Spot, Walk};

// How such a value stands: raw of a kind of fixed size, with the size; a raw enum of a size; a raw character; an image level of a size;
// a reference that wants a kind; data bytes, so many; a bone reference under a bone count; a code up to the last one;
// the size of index data under its flag.
#[derive(Clone, Copy, Debug, PartialEq, Eq)]
pub enum Plain {
    Fixed(u32, usize),
    Enum(usize),
    Char,
    Level(u64),
    Reference(u32),
    Blob(u64),
    Bone(u32),
    Code(u32),
    DataSize(u32),
}

impl Plain {
    // The kind and the size of the values that stand so, where all have the same.
    pub(crate) fn uniform(self) -> Option<(u32, usize)>
        ensures { IfSome result (λ p. Uniform self p.0 p.1) }
    {
        match self {
            Plain::Fixed(kind, size) => Some((kind, size)),
            Plain::Enum(size) => Some((kinds::ENUM_KIND, size)),
            Plain::Char => Some((kinds::CHAR, 1)),
            _ => None,
        }
    }
}

// Whether a resource id is above the shared count.
fn beyond(id: ResourceId, shared: u32) -> bool
    ensures { result ≡ ltb shared id.0 }
{
    match id.position() {
        None => false,
        Some(i) => shared <= i,
    }
}

// A shared reference.
fn reference(file: &[u8], words: &mut [u32], grid: Grid, shared: u32, wanted: u32, h: Head) -> Walk
    ensures value { result ≡ leaf_answer h.row.0 (plain_pad file.now (Plain.Reference wanted) h.padding h.first)
        (plain_at file.now shared (Plain.Reference wanted) h.first) }
    ensures words_after { words.new ≡ plain_left grid file.now words.old shared (Plain.Reference wanted) h }
{
    let at = h.first;
    let number = numbers::seven::seven_padded(file, at)?;
    let id = number.value as u32;
    if beyond(ResourceId(id), shared) {
        return Err(Rule::NoResource.at(at));
    }
    let named = Head {
        row: h.row,
        first: h.first,
        parent: h.parent,
        detail: id,
        padding: number.padding,
    };
    let read = Read {
        value: number.value,
        next: number.next,
    };
    walked::leaf(
        words,
        grid,
        named,
        kinds::SHARED_REFERENCE,
        wanted,
        Ok(read),
    )
}

// The value, once it may have a row.
fn plain_value(
    file: &[u8],
    words: &mut [u32],
    grid: Grid,
    shared: u32,
    slot: Plain,
    h: Head,
) -> Walk
    ensures value { result ≡ leaf_answer h.row.0 (plain_pad file.now slot h.padding h.first)
        (plain_at file.now shared slot h.first) }
    ensures words_after { words.new ≡ plain_left grid file.now words.old shared slot h }
{
    let at = h.first;
    let (kind, read) = match slot {
        Plain::Reference(wanted) => return reference(file, words, grid, shared, wanted, h),
        Plain::Fixed(kind, size) => (kind, values::fixed_at(file, kind, size, at)),
        Plain::Enum(size) => (
            kinds::ENUM_KIND,
            values::fixed_at(file, kinds::ENUM_KIND, size, at),
        ),
        Plain::Char => (kinds::CHAR, text::char_at(file, at)),
        Plain::Level(size) => (kinds::IMAGE_LEVEL, level_at(file, size, at)),
        Plain::Blob(size) => (kinds::DATA_BYTES, fields::data_at(file, size, at)),
        Plain::Bone(bones) => (kinds::BONE_REFERENCE, fields::bone_at(file, bones, at)),
        Plain::Code(last) => (kinds::INT_32, fields::code_at(file, last, at)),
        Plain::DataSize(flag) => (kinds::UINT_32, fields::size_at(file, flag, at)),
    };
    walked::leaf(words, grid, h, kind, 0, read)
}

// A raw value of a kind of fixed size, with the depth left: the walk reads one where it stands, without a call of `read_plain`.
pub fn read_fixed(
    file: &[u8],
    words: &mut [u32],
    grid: Grid,
    kind: u32,
    size: usize,
    spot: Spot,
) -> Walk
    ensures value { result ≡ leaf_answer spot.used 0 (plain_value file.now grid.room 0 (Plain.Fixed kind size) spot.at spot.used spot.depth) }
    ensures words_after { words.new ≡ value_left grid file.now words.old 0 (Plain.Fixed kind size) spot.at spot.used spot.depth spot.parent }
{
    room_for(spot.depth, grid.room, spot.used, spot.at)?;
    let read = values::fixed_at(file, kind, size, spot.at);
    walked::leaf(words, grid, spot.head(0, 0), kind, 0, read)
}

// A value in such a slot, with the depth left.
pub fn read_plain(
    file: &[u8],
    words: &mut [u32],
    grid: Grid,
    shared: u32,
    slot: Plain,
    spot: Spot,
) -> Walk
    ensures value { result
        ≡ leaf_answer spot.used (plain_pad file.now slot 0 spot.at) (plain_value file.now grid.room shared slot spot.at spot.used spot.depth) }
    ensures words_after { words.new ≡ value_left grid file.now words.old shared slot spot.at spot.used spot.depth spot.parent }
{
    room_for(spot.depth, grid.room, spot.used, spot.at)?;
    plain_value(file, words, grid, shared, slot, spot.head(0, 0))
}
