// 01, "Seven-bit numbers": a type id, a resource id and a row number are types of their own, and each is turned into a position by its own function.
#![tactic(auto)]

ghost use Rattle.std.specs.Prelude.{◌≡◌};
ghost use Rattle.ids.specs.Position.{position_of};

// Counts readers: one more than a place in the reader list, or 0 for null.
#[derive(Clone, Copy, Debug, PartialEq, Eq)]
pub struct TypeId(pub u32);

// Counts shared objects: one more than a place among them, or 0 for null.
#[derive(Clone, Copy, Debug, PartialEq, Eq)]
pub struct ResourceId(pub u32);

// Counts rows from 0.
#[derive(Clone, Copy, Debug, PartialEq, Eq)]
pub struct RowNumber(pub u32);

// What type ids and resource ids share: a place counted from 0, or none for null.
fn counted(id: u32) -> Option<u32>
    ensures { result ≡ position_of id }
{
    id.checked_sub(1)
}

impl TypeId {
    pub fn position(self) -> Option<u32>
        ensures { result ≡ position_of self.0 }
    {
        counted(self.0)
    }
}

// Kept: 01 has type ids and resource ids turned into positions by a function of their own each.
impl ResourceId {
    pub fn position(self) -> Option<u32>
        ensures { result ≡ position_of self.0 }
    {
        counted(self.0)
    }
}
