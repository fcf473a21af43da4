// What stands below a value, where some of it needs the reader list.
ghost use Rattle.std.specs.Prelude.{◌≡◌};
ghost use Rattle.heads.specs.Plans.{font_child, page_child, field_child, listed, standing, begin_of, slot_at, onward_of, after_of};

use crate::prelude;
use crate::slot::Slot;
use leaves::plain::Plain;
use leaves::run::Run;
use meshes::{Field, Step};
use names::kinds;

// n elements that stand alike; n pairs of key and value; the fields of a font; the fields of a page; the fields of a mesh type, by its kind.
#[derive(Clone, Copy, Debug, PartialEq, Eq)]
pub enum Nest {
    Each(Slot, u32),
    Pairs(Slot, Slot, u32),
    Font,
    Page,
    Mesh(u32),
}

// How far a walk over a nest is: the number of the value that stands next, and how many values there are, as far as is known:
// in a mesh up to the value that stands next, which the third number tells.
#[derive(Clone, Copy, Debug, PartialEq, Eq)]
pub struct Stage {
    pub next: u32,
    pub count: u64,
    pub mesh: meshes::Stage,
}

// Nothing, and the padding of the value's count, which a text alone has; values that need no reader list; or values that do.
#[derive(Clone, Copy, Debug, PartialEq, Eq)]
pub enum Below {
    Nothing(u32),
    Simple(Run),
    Nested(Nest),
}

// Field i of a font.
#[tactic(auto, unfolding(crate::specs::Plans::font_child))]
fn font_child(i: u32) -> Slot
    ensures { result ≡ font_child i }
{
    match i {
        0 => Slot::Object(prelude::TEXTURE_2D),
        1 | 2 => Slot::Object(prelude::RECTANGLES),
        3 => Slot::Object(prelude::CHARS),
        4 => Slot::Simple(Plain::Fixed(kinds::INT_32, 4)),
        5 => Slot::Simple(Plain::Fixed(kinds::SINGLE, 4)),
        6 => Slot::Object(prelude::VECTORS),
        _ => Slot::Raw(prelude::NULLABLE_CHAR),
    }
}

// Field i of a page.
#[tactic(auto, unfolding(crate::specs::Plans::page_child))]
fn page_child(i: u32) -> Slot
    ensures { result ≡ page_child i }
{
    match i {
        0 => Slot::Object(prelude::STRING),
        1 => Slot::Simple(Plain::Fixed(kinds::RECTANGLE, 16)),
        2 => Slot::Simple(Plain::Reference(kinds::TEXTURE_2D)),
        _ => Slot::Simple(Plain::Reference(kinds::PAGE)),
    }
}

// A field of a mesh type.
#[tactic(auto, unfolding(crate::specs::Plans::field_child))]
fn field_child(field: Field) -> Slot
    ensures { result ≡ field_child field }
{
    match field {
        Field::Plain(plain) => Slot::Simple(plain),
        Field::Text => Slot::Object(prelude::STRING),
        Field::Anything => Slot::Object(prelude::OBJECT),
        Field::Declaration => Slot::Raw(prelude::VERTEX_DECLARATION),
    }
}

// The first of so many values.
fn first_of(count: u64) -> Stage
    ensures { result ≡ listed count }
{
    let mesh = meshes::at_field(Step::End, 0, 0, 0);
    Stage {
        next: 0,
        count,
        mesh,
    }
}

// A field of a mesh, if one stands next.
fn field_of(next: u32, mesh: meshes::Stage) -> Stage
    ensures { result ≡ standing next mesh }
{
    let count = match mesh.step {
        Step::End => next as u64,
        _ => next as u64 + 1,
    };
    Stage { next, count, mesh }
}

// Where a walk over a nest begins.
pub fn begin(nest: Nest) -> Stage
    ensures { result ≡ begin_of nest }
{
    match nest {
        Nest::Each(_, n) => first_of(n as u64),
        Nest::Pairs(_, _, n) => first_of(2 * n as u64),
        Nest::Font => first_of(8),
        Nest::Page => first_of(4),
        Nest::Mesh(kind) => field_of(0, meshes::first_field(kind)),
    }
}

// How the value that stands next in a nest stands.
pub fn slot_at(nest: Nest, stage: Stage) -> Slot
    ensures { result ≡ slot_at nest stage }
{
    match nest {
        Nest::Each(one, _) => one,
        Nest::Pairs(key, value, _) => {
            if stage.next % 2 == 0 {
                return key;
            }
            value
        }
        Nest::Font => font_child(stage.next),
        Nest::Page => page_child(stage.next),
        Nest::Mesh(_) => field_child(meshes::field_at(stage.mesh)),
    }
}

// The value behind the one that stood next, of so many.
fn onward(stage: Stage) -> Stage
    ensures { result ≡ onward_of stage }
{
    Stage {
        next: stage.next.wrapping_add(1),
        ..stage
    }
}

// How far the walk is behind the value that stood next, whose first byte is at `at`.
pub fn after(file: &[u8], nest: Nest, stage: Stage, at: usize) -> Stage
    ensures { result ≡ after_of file.now at nest stage }
{
    match nest {
        Nest::Mesh(_) => {
            let mesh = meshes::after(file, stage.mesh, at);
            field_of(stage.next.wrapping_add(1), mesh)
        }
        _ => onward(stage),
    }
}
