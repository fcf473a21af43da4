// A byte as a wider number.
#![tactic(auto)]

ghost use Rattle.std.specs.Prelude.{◌≡◌, ◌≤◌};

// Kept: `u64::from` is no plainer, as its contract has no bound.
pub fn wide(x: u8) -> u64
    ensures { (result ≡ x) × (result ≤ 255) }
{
    x as u64
}
