// What a value begins with: the limits of depth and rows, and an object's type id.
ghost use Rattle.std.specs.Prelude.{◌≡◌, get_or};
ghost use Rattle.ids.specs.Position.{position_of};
ghost use Rattle.reading.specs.Seven.{seven_at};
ghost use Rattle.objects.specs.Total.{reader_as, identify_as, object_as, start_as};
ghost use Rattle.objects.specs.Beginnings.{position_at};

use answers::{Refusal, Rule};
use heads::slot::Slot;
use ids::TypeId;
use leaves::plain::Plain;
use names::kinds;
use walked::Spot;
use walked::room::room_for;

// A value without children that needs no reader list; null, where it ends and the padding of its type id;
// or a raw value: the place of its type, its first byte, its type id and the padding of that.
#[derive(Clone, Copy, Debug, PartialEq, Eq)]
pub enum Started {
    Plain(Plain),
    Null {
        next: usize,
        padding: u32,
    },
    Raw {
        place: usize,
        from: usize,
        id: TypeId,
        padding: u32,
    },
}

// The byte at a place, 0 where there is none.
fn byte_at(file: &[u8], at: usize) -> u8
    ensures { result ≡ get_or file.now at 0 }
{
    file.get(at).copied().unwrap_or(0)
}

// The position in a list of 64 readers that a type id at a place names, by its first byte alone: the list needs no more of it than its low six bits.
pub fn reader_position(file: &[u8], at: usize) -> usize
    ensures { result ≡ position_at file.now at }
{
    (byte_at(file, at) as usize + 63) % 64
}

// Reader i of a list with so many readers, if the type of that reader is at `target`, for an object declared as the type at `declared`: 13 before 14.
#[tactic(auto, unfolding(crate::specs::Total::reader_as, crate::specs::Total::place_as))]
fn reader_for(
    file: &[u8],
    codes: &[u32],
    count: u32,
    target: usize,
    declared: usize,
    i: u32,
) -> Result<Option<usize>, Rule>
    ensures { result ≡ reader_as file.now codes.now count target declared i }
{
    if count <= i || 64 <= i {
        return Err(Rule::NoReader);
    }
    let kind = targets::kind_at(codes, target);
    if kind == kinds::OBJECT || kind == kinds::TEXTURE {
        return Err(Rule::NoReader);
    }
    if targets::fits(file, codes, declared, target) {
        return Ok(Some(target));
    }
    Err(Rule::NotDeclared)
}

// The type that a type id names, for an object declared as the type at `declared`; none for null.
fn identify(
    file: &[u8],
    codes: &[u32],
    count: u32,
    target: usize,
    declared: usize,
    id: TypeId,
) -> Result<Option<usize>, Rule>
    ensures { result ≡ identify_as file.now codes.now count target declared (position_of id.0) }
{
    match id.position() {
        None => Ok(None),
        Some(i) => reader_for(file, codes, count, target, declared, i),
    }
}

// An object declared as the type at `declared`: its type id.
fn object_start(
    file: &[u8],
    codes: &[u32],
    count: u32,
    target: usize,
    declared: usize,
    at: usize,
) -> Result<Started, Refusal>
    ensures { result ≡ object_as file.now codes.now count target declared at (seven_at file.now at) }
{
    let number = numbers::seven::seven_padded(file, at)?;
    let id = TypeId(number.value as u32);
    match identify(file, codes, count, target, declared, id).map_err(|rule| rule.at(at))? {
        None => Ok(Started::Null {
            next: number.next,
            padding: number.padding,
        }),
        Some(place) => Ok(Started::Raw {
            place,
            from: number.next,
            id,
            padding: number.padding,
        }),
    }
}

// The value in a slot: 18, then 19, then its type id if it is an object.
// The reader list has so many readers, and the type of the one that the type id names is at `target`.
pub fn start(
    file: &[u8],
    codes: &[u32],
    count: u32,
    target: usize,
    room: u32,
    slot: Slot,
    spot: Spot,
) -> Result<Started, Refusal>
    ensures { result ≡ start_as file.now codes.now count target room slot spot.at spot.used spot.depth }
{
    match slot {
        Slot::Simple(value) => Ok(Started::Plain(value)),
        Slot::Raw(place) => {
            room_for(spot.depth, room, spot.used, spot.at)?;
            Ok(Started::Raw {
                place,
                from: spot.at,
                id: TypeId(0),
                padding: 0,
            })
        }
        Slot::Object(declared) => {
            room_for(spot.depth, room, spot.used, spot.at)?;
            object_start(file, codes, count, target, declared, spot.at)
        }
    }
}
