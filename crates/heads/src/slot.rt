// How a value stands below another: without need of the reader list, raw, or as an object; types are places in an array of codes.
ghost use Rattle.std.specs.Prelude.{◌≡◌};
ghost use Rattle.targets.specs.Place.{kind_at};
ghost use Rattle.heads.specs.Placed.{bytes_of, row_kind, plain_of, raw_of, slot_by};

use leaves::plain::Plain;
use names::kinds;

#[derive(Clone, Copy, Debug, PartialEq, Eq)]
pub enum Slot {
    Simple(Plain),
    Raw(usize),
    Object(usize),
}

// How many bytes a value of a kind has, as a type's code has the kind: the last four are enums by their sizes. 0 where none is fixed.
// Kept: 0 and no option, as the table of sizes has 0 there too (definition `sizes` of layout, and `bytes_of`).
#[tactic(auto, unfolding(crate::specs::Placed::bytes_of))]
pub fn bytes_of(kind: u32) -> usize
    ensures { result ≡ bytes_of kind }
{
    match kind {
        kinds::ENUM_OF_1 => 1,
        kinds::ENUM_OF_2 => 2,
        kinds::ENUM_OF_4 => 4,
        kinds::ENUM_OF_8 => 8,
        _ => values::size_of_kind(kind),
    }
}

// 01's kind of the type at a place: every enum's is 15.
#[tactic(auto, unfolding(crate::specs::Placed::row_kind))]
pub fn row_kind(codes: &[u32], a: usize) -> u32
    ensures { result ≡ row_kind (kind_at codes.now a) }
{
    let kind = targets::kind_at(codes, a);
    if kinds::ENUM_OF_1 <= kind {
        return kinds::ENUM_KIND;
    }
    kind
}

// A value of such a kind without children.
#[tactic(auto, unfolding(crate::specs::Placed::plain_of))]
fn plain_of(kind: u32) -> Plain
    ensures { result ≡ plain_of kind }
{
    let size = bytes_of(kind);
    if kinds::ENUM_OF_1 <= kind {
        return Plain::Enum(size);
    }
    Plain::Fixed(kind, size)
}

// An element or a field of the type at a place: raw if it is a value type, else an object. Object itself is tested first, as most lists of objects declare it.
#[tactic(auto, unfolding(crate::specs::Placed::slot_by))]
pub fn slot_of(codes: &[u32], a: usize) -> Slot
    ensures { result ≡ slot_by (kind_at codes.now a) a }
{
    let kind = targets::kind_at(codes, a);
    match kind {
        kinds::OBJECT => Slot::Object(a),
        kinds::CHAR => Slot::Simple(Plain::Char),
        kinds::NULLABLE_KIND => Slot::Raw(a),
        _ if bytes_of(kind) == 0 => Slot::Object(a),
        _ => Slot::Simple(plain_of(kind)),
    }
}

// A raw value of the type at a place.
#[tactic(auto, unfolding(crate::specs::Placed::raw_of))]
pub fn raw_of(codes: &[u32], a: usize) -> Slot
    ensures { result ≡ raw_of (kind_at codes.now a) a }
{
    let kind = targets::kind_at(codes, a);
    match kind {
        kinds::CHAR => Slot::Simple(Plain::Char),
        _ if bytes_of(kind) == 0 => Slot::Raw(a),
        _ => Slot::Simple(plain_of(kind)),
    }
}
