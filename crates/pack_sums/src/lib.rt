// Adding two reports word by word (02, Req 14).
#![tactic(auto)]

ghost use Rattle.std.specs.Prelude.{◌≡◌, true};
ghost use Rattle.pack_figures.specs.Report.{sums, fits, sum_of, left};
ghost use Rattle.pack_sums.specs.Sum.{answer_of};

use answers::{Refusal, Rule};

// Whether no sum passes 2 to the 64 less 1.
fn fits_all(into: &[u64], other: &[u64]) -> bool
    ensures { result ≡ fits into.now other.now }
{
    for i in 0..into.len().min(other.len()) {
        if u64::MAX - into[i] < other[i] {
            return false;
        }
    }
    true
}

// Adds each word of the other report, where no sum passes 2 to the 64 less 1.
fn add_all(into: &mut [u64], other: &[u64])
    requires { fits into.old other.now ≡ true }
    ensures { into.new ≡ sums into.old other.now }
{
    for i in 0..into.len().min(other.len()) {
        into[i] += other[i];
    }
}

// Adds another report; where a figure would pass 2 to the 64 less 1 nothing is added, which is refused.
pub fn sum(into: &mut [u64], other: &[u64]) -> Result<(), Refusal>
    ensures value { result ≡ answer_of (sum_of into.old other.now) }
    ensures into_after { into.new ≡ left (sum_of into.old other.now) into.old }
{
    if !fits_all(into, other) {
        return Err(Rule::FigureTooLarge.at(0));
    }
    add_all(into, other);
    Ok(())
}
