// The order of texts, byte by byte.
#![tactic(auto, using(crate::proofs::Lexicographic::as_slices))]

ghost use Rattle.std.specs.Prelude.{◌≡◌};
ghost use Rattle.text_order.specs.Ordered.{order_of};

use std::cmp::Ordering;

// Two texts, byte by byte.
pub fn compare(a: &[u8], b: &[u8]) -> Ordering
    ensures { result ≡ order_of a.now b.now }
{
    Ord::cmp(&a, &b)
}
