// What the steps of the walk over values answer. The laws behind its proofs are here too (specs).
#![tactic(auto)]

use heads::nest::Nest;
use ids::TypeId;
use walked::Reached;

// A value that needs no reader list, walked; or a raw value whose children need it:
// the place of its type, its first byte, its children, the padding of its type id, the type id, and where its head ends.
#[derive(Clone, Copy)]
pub enum Stepped {
    Done(Reached),
    Nested {
        place: usize,
        from: usize,
        nest: Nest,
        padding: u32,
        id: TypeId,
        next: usize,
    },
}

// Values one after the other, walked: how many they are and what the walk reaches.
#[derive(Clone, Copy, Debug, PartialEq, Eq)]
pub struct Children {
    pub count: u32,
    pub reached: Reached,
}
