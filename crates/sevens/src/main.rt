// Shows the steps of each seven-bit number that standard input holds: each step with its byte, the value so far and how it ended;
// where the number ends, with its padding: how many bytes it has beyond its shortest form.
#![tactic(auto)]

use answers::Refusal;
use numbers::seven::Step;

// The byte with index k of the number at `start`, where the input has it.
fn print_byte_at(rt: &impl Print, s: &[u8], start: usize, k: usize) -> std::io::Result<()> {
    let Some(number) = s.get(start..) else {
        return print!(rt; "no byte");
    };
    match number.get(k) {
        Some(byte) => print!(rt; "byte {byte:02x}"),
        None => print!(rt; "no byte"),
    }
}

// A step, its byte and the value so far.
fn print_taken(rt: &impl Print, s: &[u8], start: usize, k: u8, value: u64) -> std::io::Result<()> {
    print!(rt; "step {}: ", k as u64 + 1)?;
    print_byte_at(rt, s, start, k as usize)?;
    print!(rt; ", value {value}, ")
}

// A step and what it said; a step that refuses leaves the value as it was handed on.
fn show_said(
    rt: &(impl Print + Eprint),
    s: &[u8],
    start: usize,
    k: u8,
    low: u64,
    said: Result<Step, Refusal>,
) -> std::io::Result<()> {
    match said {
        Ok(Step::Ends(number)) => {
            print_taken(rt, s, start, k, number.value)?;
            println!(rt; "ends, padding {}", number.padding)
        }
        Ok(
            Step::HandsOn {
                low: value,
                needed: _,
            },
        ) => {
            print_taken(rt, s, start, k, value)?;
            println!(rt; "hands on")
        }
        Err(refusal) => {
            print_taken(rt, s, start, k, low)?;
            printing::print_refusal(rt, refusal)
        }
    }
}

// The step with index k, if the one before it handed on.
fn show_step(
    rt: &(impl Print + Eprint),
    s: &[u8],
    start: usize,
    k: u8,
    before: Result<Step, Refusal>,
    said: Result<Step, Refusal>,
) -> std::io::Result<()> {
    let Ok(Step::HandsOn { low, needed: _ }) = before else {
        return Ok(());
    };
    show_said(rt, s, start, k, low, said)
}

// The number at a place, step by step.
fn show(rt: &(impl Print + Eprint), s: &[u8], start: usize) -> std::io::Result<()> {
    let one = numbers::seven::first(s, start);
    let two = numbers::seven::second(s, start, one);
    let three = numbers::seven::third(s, start, two);
    let four = numbers::seven::fourth(s, start, three);
    let five = numbers::seven::fifth(s, start, four).map(Step::Ends);
    println!(rt; "number at {start}")?;
    let mut before = Ok(Step::HandsOn { low: 0, needed: 1 });
    let said = [one, two, three, four, five];
    for k in 0..5 {
        show_step(rt, s, start, k as u8, before, said[k])?;
        before = said[k];
    }
    Ok(())
}

// One number after the other, the missing one at the input's end too; where one is refused, the next place is tried.
fn list(rt: &(impl Print + Eprint), s: &[u8]) -> std::io::Result<()> {
    let mut at = 0;
    // Kept: a turn goes on by the size of a number, so a range is no plainer.
    while at <= s.len() {
        show(rt, s, at)?;
        at = match numbers::seven::seven_at(s, at) {
            Ok(number) => number.next,
            Err(_) => at + 1,
        };
    }
    Ok(())
}

fn main(rt: HostRuntime) -> std::io::Result<()> {
    let mut space = io::large_buffer();
    let n = io::read_full(0, &mut space);
    list(&rt, &space[..n])
}
