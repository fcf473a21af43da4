// Where the seven-bit numbers of a file start, by its rows, and their padding: see specs/.
#![tactic(auto)]

ghost use Rattle.std.specs.Prelude.{◌≡◌};
ghost use Rattle.layout.specs.Shortest.{numbered as starts_with_id};

use names::kinds::{NULL, SHARED_REFERENCE};

// Whether a value of a kind and a detail starts with a type id or a resource id.
pub fn numbered(kind: u32, detail: u32) -> bool
    ensures { result ≡ starts_with_id kind detail }
{
    if detail != 0 {
        return true;
    }
    if kind == NULL {
        return true;
    }
    kind == SHARED_REFERENCE
}
