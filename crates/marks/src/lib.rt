// Converting a pack from one form to the other (Req 10): `marked` is the form of the new pack, and the pack given has the other.
#![tactic(auto)]

ghost use Rattle.std.specs.Prelude.{◌≡◌, ◌≤◌, length};
ghost use Rattle.pack_layout.specs.Pack.{mark_of};
ghost use Rattle.reading.specs.Output.{output_of};
ghost use Rattle.marks.specs.Converting.{walk_of, count_of, size_of, Measured, Placed, placed, Fits, converted, answer_of};

use answers::{Refusal, Rule};
use numbers::little::little;
use pack_records::record_at;

// Walks over so many records behind the file count, to the end of the pack.
fn walk(pack: &[u8], marked: bool, n: usize) -> Result<usize, Refusal>
    requires { n ≤ 4096 }
    ensures { result ≡ walk_of marked pack.now n }
{
    let mut at = 4;
    for _i in 0..n {
        let file = record_at(pack, at, marked)?;
        at = file.first + file.count;
    }
    if at != pack.len() {
        return Err(Rule::LeftOver.at(at));
    }
    Ok(n)
}

// Counts the files of a pack, or refuses it as its reader does where the table has room.
fn count(pack: &[u8], marked: bool) -> Result<usize, Refusal>
    ensures { result ≡ count_of marked pack.now }
{
    let files = little::<u32>(pack, 0)?;
    if 4096 < files.value {
        return Err(Rule::TooLarge.at(0));
    }
    walk(pack, marked, files.value as usize)
}

// How many bytes a mark has.
fn mark_size(marked: bool) -> usize
    ensures { result ≡ length (mark_of marked) }
{
    if marked { 2 } else { 0 }
}

// How many bytes the new pack has: a mark more or less for each file.
fn measure(size: usize, files: usize, marked: bool) -> usize
    requires { Measured size files marked }
    ensures { result ≡ size_of marked size files }
{
    if marked {
        size + 2 * files
    } else {
        size - 2 * files
    }
}

// Puts the record that stands from `at` to `end` into the output from `to` on, and answers where it ends.
fn put_record(pack: &[u8], out: &mut [u8], marked: bool, at: usize, end: usize, to: usize) -> usize
    requires { Placed marked pack.now out.old at end to }
    ensures { (result, out.new) ≡ placed marked pack.now out.old at end to }
{
    let mark = [0xFDu8, 0xFE];
    let skip = mark_size(!marked);
    let size = mark_size(marked);
    let first = at + skip;
    fill::copy(out, to, &mark, 0, size);
    let start = to + size;
    let n = end - first;
    fill::copy(out, start, pack, first, n);
    start + n
}

// Puts the file count and so many records into the output.
fn put_files(pack: &[u8], out: &mut [u8], marked: bool, n: usize)
    requires { Fits marked pack.now n (length out.old) }
    ensures { out.new ≡ output_of (converted marked pack.now (length out.old)) out.old }
{
    fill::copy(out, 0, pack, 0, 4);
    let mut at = 4;
    let mut to = 4;
    for _i in 0..n {
        let file = record_at(pack, at, !marked).unwrap();
        let end = file.first + file.count;
        to = put_record(pack, out, marked, at, end, to);
        at = end;
    }
}

// Converts a pack to the form `marked`, and answers the length of the new pack: the records in their order, each as it was found but for its mark.
pub fn convert(pack: &[u8], out: &mut [u8], marked: bool) -> Result<usize, Refusal>
    ensures value { result ≡ answer_of (converted marked pack.now (length out.old)) }
    ensures out_after { out.new ≡ output_of (converted marked pack.now (length out.old)) out.old }
{
    let files = count(pack, !marked)?;
    let size = measure(pack.len(), files, marked);
    if out.len() < size {
        return Err(Rule::OutputTooSmall.at(size));
    }
    put_files(pack, out, marked, files);
    Ok(size)
}
