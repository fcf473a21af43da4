// What is demanded of a report (02, Req 14), as contracts: each function calls the code, and is here for what it ensures (specs/Runs.antt),
// and the answer of the code itself, which fixes a refusal.
#![tactic(auto)]

ghost use Rattle.std.specs.Prelude.{◌≡◌, length};
ghost use Rattle.pack_figures.specs.Report.{sum_of};
ghost use Rattle.pack_sums.specs.Sum.{answer_of};
ghost use Rattle.pack_report.specs.Add.{added_as, add_under};
ghost use Rattle.pack_report_theorems.specs.Runs.{Carries, Joins};

use answers::Refusal;

// A pack that is added to a report.
pub fn add_exact(
    pack: &[u8],
    enums: &[u8],
    table: &mut [u64],
    words: &mut [u32],
    report: &mut [u64],
) -> Result<(), Refusal>
    ensures carries { Carries enums.now (length table.old) pack.now report.old report.new result }
    ensures value { result
        ≡ added_as (add_under enums.now (length words.old) (length table.old) report.old pack.now) }
{
    pack_report::add(pack, enums, table, words, report)
}

// A report that is added to a report.
pub fn sum_exact(into: &mut [u64], other: &[u64]) -> Result<(), Refusal>
    ensures joins { Joins into.old other.now into.new result }
    ensures value { result ≡ answer_of (sum_of into.old other.now) }
{
    pack_sums::sum(into, other)
}
