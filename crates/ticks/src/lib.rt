// 01, "Looking up": "A time in ticks is split into whole seconds, rounded down, and 0 to 9,999,999 ticks."
#![tactic(auto)]

ghost use Rattle.std.specs.Prelude.{◌≡◌};
ghost use Rattle.ticks.specs.Split.{split_of};

// Whole seconds, and the ticks of 100 ns that are left.
#[derive(Clone, Copy, Debug, PartialEq, Eq)]
pub struct Time {
    pub seconds: i64,
    pub ticks: u32,
}

// The quotient is rounded down, as what is left is not negative.
pub fn split_ticks(t: i64) -> Time
    ensures { result ≡ split_of t }
{
    Time {
        seconds: t.div_euclid(10_000_000),
        ticks: t.rem_euclid(10_000_000) as u32,
    }
}
