// The place of what is wrong, where something is.
#![tactic(auto)]

ghost use Rattle.std.specs.Prelude.{◌≡◌};
ghost use Rattle.fault_places.specs.Places.{lower_of};

// The lower of two places, where there are any.
pub fn lower(a: Option<usize>, b: Option<usize>) -> Option<usize>
    ensures { result ≡ lower_of a b }
{
    match (a, b) {
        (None, other) => other,
        (Some(p), None) => Some(p),
        (Some(p), Some(q)) => Some(p.min(q)),
    }
}
