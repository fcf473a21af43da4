// The entries over reports of packs: each answers a refusal's number or 0.
ghost use Rattle.std.specs.Prelude.{◌≡◌, length, replicate};
ghost use Rattle.pack_figures.specs.Report.{sum_of, left, table_left};
ghost use Rattle.pack_report.specs.Add.{add_under};
ghost use Rattle.builder.specs.Reports.{add_told, sum_told};

// Adds a pack to a report under a list of enum types, and writes a refusal's place, or 0.
pub fn xnb_report_add(
    pack: &[u8],
    enums: &[u8],
    table: &mut [u64],
    words: &mut [u32],
    report: &mut [u64; 132],
    at: &mut u64,
) -> u32
    ensures at_after { (result, at.new)
        ≡ add_told (add_under enums.now (length words.old) (length table.old) report.old pack.now) }
    ensures report_after { report.new
        ≡ left (add_under enums.now (length words.old) (length table.old) report.old pack.now)
        report.old }
    ensures table_after { table.new
        ≡ table_left (add_under enums.now (length words.old) (length table.old) report.old pack.now)
        (length table.old) pack.now }
    ensures words_after { words.new ≡ replicate (length words.old) 0 }
{
    match pack_report::add(pack, enums, table, words, report) {
        Err(refusal) => {
            *at = refusal.place as u64;
            refusal.number
        }
        Ok(()) => {
            *at = 0;
            0
        }
    }
}

// Adds another report; 71 where a figure would pass 2 to the 64 less 1.
pub fn xnb_report_sum(into: &mut [u64; 132], other: &[u64; 132]) -> u32
    ensures value { result ≡ sum_told (sum_of into.old other.now) }
    ensures into_after { into.new ≡ left (sum_of into.old other.now) into.old }
{
    match pack_sums::sum(into, other) {
        Err(refusal) => refusal.number,
        Ok(()) => 0,
    }
}
