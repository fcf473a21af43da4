// Reading a seven-bit number in five steps, one for each byte that it may have: each is a turn of 000's loop under "7BitEncodedInt" (docs/SEVEN-BIT.md).
ghost use Rattle.std.specs.Prelude.{◌≡◌, ◌+◌, ◌*◌, ◌-◌, ◌≤◌, ◌<◌, slice_get};
ghost use Rattle.answers.specs.Told.{told};
ghost use Rattle.reading.specs.Seven.{seven_at};
ghost use Rattle.numbers.specs.Steps.{hands_on, joined, needed_by, group, step, last_group, last_step};
ghost use Rattle.numbers.specs.Padded.{told_padded, padded};

use answers::{Number, Read, Refusal, Rule};

// A seven-bit number: its value, the next place, and its padding, which is how many bytes it has beyond its shortest form.
#[derive(Clone, Copy, Debug, PartialEq, Eq)]
pub struct Padded {
    pub value: u64,
    pub next: usize,
    pub padding: u32,
}

// What a step says: the number ends; or the value so far is handed on, with how many bytes its shortest form has.
#[derive(Clone, Copy, Debug, PartialEq, Eq)]
pub enum Step {
    Ends(Padded),
    HandsOn { low: u64, needed: u32 },
}

// Step 1: the first byte ends the number if it is below 80 hex, else hands on its low seven bits, and refuses with 1 if the file ends before it.
pub fn first(s: &[u8], start: usize) -> Result<Step, Refusal>
    ensures { result ≡ step 0 s.now start (hands_on 0 1) }
{
    step_at(s, start, 0, 0, Ok(Step::HandsOn { low: 0, needed: 1 }))
}

// Kept: steps 2 to 4 are three functions, as 02, Req 03, has a step for each byte, and they share `step_at`.
// Step 2: the second byte joins its low seven bits above the 7 read,
// ends the number if it is below 80 hex, else hands on, and refuses with 1 if the file ends before it.
pub fn second(s: &[u8], start: usize, so_far: Result<Step, Refusal>) -> Result<Step, Refusal>
    ensures { result ≡ step 1 s.now start so_far }
{
    step_at(s, start, 1, 7, so_far)
}

// Step 3: the third byte joins its low seven bits above the 14 read,
// ends the number if it is below 80 hex, else hands on, and refuses with 1 if the file ends before it.
pub fn third(s: &[u8], start: usize, so_far: Result<Step, Refusal>) -> Result<Step, Refusal>
    ensures { result ≡ step 2 s.now start so_far }
{
    step_at(s, start, 2, 14, so_far)
}

// Step 4: the fourth byte joins its low seven bits above the 21 read,
// ends the number if it is below 80 hex, else hands on, and refuses with 1 if the file ends before it.
pub fn fourth(s: &[u8], start: usize, so_far: Result<Step, Refusal>) -> Result<Step, Refusal>
    ensures { result ≡ step 3 s.now start so_far }
{
    step_at(s, start, 3, 21, so_far)
}

// Step 5: the fifth byte joins its bits above the 28 read and ends the number, as no sixth may follow;
// it refuses with 8 if it is above 0F hex, and with 1 if the file ends before it.
pub fn fifth(s: &[u8], start: usize, so_far: Result<Step, Refusal>) -> Result<Padded, Refusal>
    ensures { told_padded result ≡ last_step s.now start so_far }
{
    match so_far? {
        Step::HandsOn { low, needed } => last_group(s, start, low, needed),
        Step::Ends(number) => Ok(number),
    }
}

// The five steps one after the other: the seven-bit number at a place, with its padding.
#[inline(never)]
fn all_steps(s: &[u8], start: usize) -> Result<Padded, Refusal>
    ensures { told_padded result ≡ padded start (seven_at s.now start) }
{
    let one = first(s, start);
    let two = second(s, start, one);
    let three = third(s, start, two);
    let four = fourth(s, start, three);
    fifth(s, start, four)
}

// The seven-bit number at a place, with its padding.
// Most numbers have one byte: those are read where they are asked for, without the other four steps.
#[inline(always)]
pub fn seven_padded(s: &[u8], start: usize) -> Result<Padded, Refusal>
    ensures { told_padded result ≡ padded start (seven_at s.now start) }
{
    match first(s, start)? {
        Step::Ends(number) => Ok(number),
        Step::HandsOn { low: _, needed: _ } => all_steps(s, start),
    }
}

// The seven-bit number at a place.
#[inline]
pub fn seven_at(s: &[u8], start: usize) -> Number
    ensures { told result ≡ seven_at s.now start }
{
    let number = seven_padded(s, start)?;
    Ok(Read {
        value: number.value,
        next: number.next,
    })
}

// One of the first four steps: what was handed on goes on with the byte with index k; what has ended or was refused stays.
fn step_at(
    s: &[u8],
    start: usize,
    k: usize,
    bits_read: u32,
    so_far: Result<Step, Refusal>,
) -> Result<Step, Refusal>
    requires { (k ≤ 3) × (bits_read ≡ 7 * k) }
    ensures { result ≡ step k s.now start so_far }
{
    match so_far? {
        Step::HandsOn { low, needed } => group_at(s, start, k, bits_read, low, needed),
        Step::Ends(number) => Ok(Step::Ends(number)),
    }
}

// The byte with index k of the number at `start`, where the bytes before it have the value `low`, whose shortest form has `needed` bytes.
fn group_at(
    s: &[u8],
    start: usize,
    k: usize,
    bits_read: u32,
    low: u64,
    needed: u32,
) -> Result<Step, Refusal>
    requires { (k ≤ 3) × (bits_read ≡ 7 * k) }
    ensures { result ≡ group k s.now start low needed }
{
    let byte = byte_at(s, start, k).ok_or(Rule::PastEnd.at(start))?;
    let short = needed_by(k, needed, byte);
    if byte < 0x80 {
        return Ok(Step::Ends(Padded {
            value: join(low, bits_read, byte),
            next: start + k + 1,
            padding: beyond(k, short),
        }));
    }
    Ok(Step::HandsOn {
        low: join(low, bits_read, byte & 0x7F),
        needed: short,
    })
}

// The fifth byte of the number at `start`, where the four before it have the value `low`, whose shortest form has `needed` bytes.
fn last_group(s: &[u8], start: usize, low: u64, needed: u32) -> Result<Padded, Refusal>
    ensures { told_padded result ≡ last_group s.now start low needed }
{
    let byte = byte_at(s, start, 4).ok_or(Rule::PastEnd.at(start))?;
    if byte <= 0x0F {
        let short = needed_by(4, needed, byte);
        return Ok(Padded {
            value: join(low, 28, byte),
            next: start + 5,
            padding: beyond(4, short),
        });
    }
    Err(Rule::BrokenNumber.at(start))
}

// How many bytes the shortest form of the value so far has: it ends with the last byte whose low seven bits are not all 0.
fn needed_by(k: usize, needed: u32, byte: u8) -> u32
    requires { k ≤ 4 }
    ensures { result ≡ needed_by k needed byte }
{
    if byte % 128 == 0 {
        return needed;
    }
    k as u32 + 1
}

// How many of the bytes with index 0 to k are more than are needed.
fn beyond(k: usize, needed: u32) -> u32
    requires { k ≤ 4 }
    ensures { result ≡ k + 1 - needed }
{
    let size = k as u32 + 1;
    if size < needed {
        return 0;
    }
    size - needed
}

// The byte with index k of the number at `start`, where the file has it.
fn byte_at(s: &[u8], start: usize, k: usize) -> Option<u8>
    ensures { result ≡ slice_get s.now (start + k) }
{
    s.get(start..)?.get(k).copied()
}

// 000: "result |= (value & 0x7f) << bitsRead", where `bits` are the byte's low seven.
fn join(low: u64, bits_read: u32, bits: u8) -> u64
    requires { (bits < 128) × (bits_read ≤ 28) }
    ensures { result ≡ joined low bits_read bits }
{
    low | ((bits as u64) << bits_read)
}
