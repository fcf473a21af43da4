// Judges the reader names in four files: for each file its name, then for each line 0, or the refusal's number and its place in the line.
#![tactic(auto)]

ghost use Rattle.std.specs.Prelude.{◌≡◌, ◌≤◌, length, IfOk};
ghost use Rattle.io.specs.Counts.{IsPrefixLen};
ghost use Rattle.reader_names.specs.Lines.{refusal, line_size, Judges};

use answers::Rule;
use std::io::Read;
use std::rt::Files;
use std::{fs, io};
use targets::Unresolved;

// A name's refusal in one number: 65536 for each of its number, and its place; or 0.
// Kept: one number and not a refusal, since fixed memory holds one for each of up to 65,536 lines.
fn judge(name: &[u8]) -> u32
    ensures { result ≡ refusal name.now }
{
    if name.len() == 0 {
        return 65536 * Rule::TooLarge.number();
    }
    if 1024 < name.len() {
        return 65536 * Rule::TooLarge.number();
    }
    let mut codes = [0u32; 187];
    match targets::resolve(name, 0, b"", &mut codes, 0) {
        Ok(_) => 0,
        Err(Unresolved::Broken(refusal)) => 65536 * refusal.number + refusal.place as u32,
        Err(Unresolved::Unknown(place)) => 65536 * Rule::NameHead.number() + place as u32,
        Err(Unresolved::NoRoom) => 65536 * Rule::TooLarge.number(),
    }
}

// How many bytes the first line has.
fn line_size(s: &[u8]) -> usize
    ensures { result ≡ line_size s.now }
{
    s.iter().take_while(|b| **b != b'\n').count()
}

// Leaves the refusal of each line in `numbers`, and answers how many lines there are.
fn judge_lines(s: &[u8], numbers: &mut [u32]) -> usize
    requires s_len_bound { length s.now ≤ 65536 }
    requires numbers_len { length numbers.old ≡ 65536 }
    ensures judges { Judges s.now numbers.old numbers.new result }
    ensures prefix_len { IsPrefixLen result numbers.new }
{
    let mut count = 0;
    let mut at = 0;
    // Kept: an index is plainer here, as `split` would have an empty line more where the text ends with a newline.
    while at < s.len() {
        let size = line_size(&s[at..]);
        let end = at + size;
        numbers[count] = judge(&s[at..end]);
        count += 1;
        at = end + 1;
    }
    count
}

fn print_refusal(rt: &impl Print, refusal: u32) -> io::Result<()> {
    print!(rt; "{}", refusal / 65536)?;
    if refusal != 0 {
        print!(rt; " {}", refusal % 65536)?;
    }
    println!(rt)
}

fn print_numbers(rt: &impl Print, numbers: &[u32]) -> io::Result<()> {
    for refusal in numbers {
        print_refusal(rt, *refusal)?;
    }
    Ok(())
}

// Reads until the space is full or the file ends: how many bytes.
fn read_full(file: &mut impl Read, space: &mut [u8]) -> io::Result<usize>
    ensures { IfOk result (λ n. n ≤ length space.old) }
{
    let mut done = 0;
    // Kept: it reads until the space is full or the file ends, as much at a time as the file gives.
    while done < space.len() {
        let n = file.read(&mut space[done..])?;
        if n == 0 {
            break;
        }
        done += n;
    }
    Ok(done)
}

// Judges the names in a file. A file that cannot be opened is told on standard error.
fn judge_file(rt: &(impl Files + Print + Eprint), path: &str) -> io::Result<()> {
    let mut file = match fs::open(rt, path) {
        Ok(file) => file,
        Err(error) => return eprintln!(rt; "{path}: {error}"),
    };
    let mut space = [0u8; 65536];
    let n = read_full(&mut file, &mut space)?;
    let mut numbers = [0u32; 65536];
    let count = judge_lines(&space[..n], &mut numbers);
    println!(rt; "{path}")?;
    print_numbers(rt, &numbers[..count])
}

fn main(rt: HostRuntime) -> io::Result<()> {
    judge_file(&rt, "good")?;
    judge_file(&rt, "broken")?;
    judge_file(&rt, "unknown")?;
    judge_file(&rt, "wrong_length")
}
