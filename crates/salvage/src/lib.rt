// Salvaging a damaged marked pack (Req 11): the records that it still holds, and the stretches that are skipped.
#![tactic(auto)]

ghost use Rattle.std.specs.Prelude.{◌≡◌, true, ◌+◌, ◌≤◌, length};
ghost use Rattle.pack_salvage.specs.Salvage.{salvage_for, output_for, list_for};
ghost use Rattle.salvage.specs.Salvaging.{NoLead, Next, gap_of, size_of, GapFits, gap_put, count_put, Fits, answer_of};

use answers::{Refusal, Rule};
use pack_records::record_at;

// Whether none of the 32 bytes from `from` on is FD hex, the first byte of a mark.
fn is_clear(pack: &[u8], from: usize) -> bool
    requires { from + 32 ≤ length pack.now }
    ensures { result ≡ true → NoLead pack.now from (from + 32) }
{
    let mut found = false;
    for i in 0..32 {
        found |= pack[from + i] == 0xFD;
    }
    !found
}

// Past the blocks of 32 bytes from `from` on that have no FD.
#[inline(always)]
fn past_clear(pack: &[u8], from: usize) -> usize
    requires { from ≤ length pack.now }
    ensures { NoLead pack.now from result }
{
    let blocks = (pack.len() - from) / 32;
    for block in 0..blocks {
        let at = from + 32 * block;
        if !is_clear(pack, at) {
            return at;
        }
    }
    from + 32 * blocks
}

// The first place from `from` on where FD stands, or the end of the pack: the first byte is looked at before blocks are.
#[inline(always)]
fn next_lead(pack: &[u8], from: usize) -> usize
    requires { from ≤ length pack.now }
    ensures { NoLead pack.now from result }
{
    if from < pack.len() && pack[from] == 0xFD {
        return from;
    }
    for at in past_clear(pack, from)..pack.len() {
        if pack[at] == 0xFD {
            return at;
        }
    }
    pack.len()
}

// A part of a pack.
#[derive(Clone, Copy)]
struct Span {
    start: usize,
    end: usize,
}

// The first record with its mark that stands at `from` or behind it.
#[inline(always)]
fn next_record(pack: &[u8], from: usize) -> Option<Span>
    requires { from ≤ length pack.now }
    ensures { Next pack.now from result }
{
    let mut at = next_lead(pack, from);
    // Kept: a turn goes on to the next lead, so no range or iterator fits.
    while at < pack.len() {
        match record_at(pack, at, true) {
            Err(_) => {
                at = next_lead(pack, at + 1);
            }
            Ok(file) => {
                return Some(Span {
                    start: at,
                    end: file.first + file.count,
                });
            }
        }
    }
    None
}

// How many stretches are skipped from one place to another: one, or none where nothing stands between.
fn gap(from: usize, to: usize) -> usize
    ensures value { result ≡ length (gap_of from to) }
    ensures upper_bound { result ≤ 1 }
{
    if from < to { 1 } else { 0 }
}

// How many records are kept, how many bytes the new pack has, and how many stretches are skipped.
#[derive(Clone, Copy)]
struct Size {
    records: usize,
    bytes: usize,
    stretches: usize,
}

// Measures what salvaging a pack gives.
fn measure(pack: &[u8]) -> Size
    requires { 4 ≤ length pack.now }
    ensures { result ≡ size_of pack.now }
{
    let mut size = Size {
        records: 0,
        bytes: 4,
        stretches: 0,
    };
    let mut at = 4;
    // Kept: the loop counts the records that it measures, and no index.
    while size.records < 4096 {
        let Some(next) = next_record(pack, at) else {
            break;
        };
        size.stretches += gap(at, next.start);
        size.bytes += next.end - next.start;
        size.records += 1;
        at = next.end;
    }
    size.stretches += gap(at, pack.len());
    size
}

// Puts the stretch from one place to another into the list as number `n`, where anything stands between, and answers how many there are then.
fn put_gap(list: &mut [u64], n: usize, from: usize, to: usize) -> usize
    requires { GapFits (length list.old) n from to }
    ensures { (result, list.new) ≡ gap_put list.old n from to }
{
    if to <= from {
        return n;
    }
    let at = 2 * n;
    list[at] = from as u64;
    list[at + 1] = (to - from) as u64;
    n + 1
}

// Puts the file count before the records.
fn put_count(out: &mut [u8], records: usize)
    requires { 4 ≤ length out.old }
    ensures { out.new ≡ count_put out.old records }
{
    numbers::little::put4(out, 0, records);
}

// Puts so many records and their count into the output, and the stretches into the list.
fn put_pieces(pack: &[u8], out: &mut [u8], list: &mut [u64], records: usize)
    requires { Fits pack.now (length out.old) (length list.old) records }
    ensures out_after { out.new ≡ output_for pack.now out.old list.old }
    ensures list_after { list.new ≡ list_for pack.now out.old list.old }
{
    put_count(out, records);
    let mut at = 4;
    let mut to = 4;
    let mut n = 0;
    for _i in 0..records {
        let next = next_record(pack, at).unwrap();
        let size = next.end - next.start;
        n = put_gap(list, n, at, next.start);
        fill::copy(out, to, pack, next.start, size);
        to += size;
        at = next.end;
    }
    put_gap(list, n, at, pack.len());
}

// The length of the new pack, and the number of stretches skipped.
#[derive(Clone, Copy, Debug, PartialEq, Eq)]
pub struct Salvaged {
    pub length: usize,
    pub stretches: usize,
}

// Writes a marked pack of the records that a damaged one still holds, and a list of the stretches that are skipped: start and length.
pub fn salvage(pack: &[u8], out: &mut [u8], list: &mut [u64]) -> Result<Salvaged, Refusal>
    ensures value { result ≡ answer_of (salvage_for pack.now out.old list.old) }
    ensures out_after { out.new ≡ output_for pack.now out.old list.old }
    ensures list_after { list.new ≡ list_for pack.now out.old list.old }
{
    if pack.len() < 4 {
        return Err(Rule::PastEnd.at(0));
    }
    let size = measure(pack);
    if out.len() < size.bytes {
        return Err(Rule::OutputTooSmall.at(size.bytes));
    }
    if list.len() / 2 < size.stretches {
        return Err(Rule::ListTooShort.at(size.stretches));
    }
    put_pieces(pack, out, list, size.records);
    Ok(Salvaged {
        length: size.bytes,
        stretches: size.stretches,
    })
}
