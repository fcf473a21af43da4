// What programs print.
#![tactic(auto)]

use answers::Refusal;
use std::io;

// Prints a refusal's line to standard output (01: "A refusal prints one line, as `refused 7 at 6`").
pub fn print_refusal(rt: &(impl Print + Eprint), refusal: Refusal) -> io::Result<()> {
    tell_unless(rt, put_refusal(rt, refusal))
}

// Prints a refusal's line to standard error, where standard output holds a file.
pub fn tell_refusal(rt: &HostRuntime, refusal: Refusal) -> io::Result<()> {
    put_refusal(&rt.stderr(), refusal)
}

// Writes the first bytes of a buffer to standard output; nothing where it has fewer. A failure is told.
pub fn write_start(rt: &(impl Print + Eprint), buffer: &[u8], n: usize) -> io::Result<()> {
    if buffer.len() < n {
        return Ok(());
    }
    tell_unless(rt, rt.write_all(&buffer[..n]))
}

// A refusal's line, and whether all of it was written.
fn put_refusal(to: &impl Print, refusal: Refusal) -> io::Result<()> {
    println!(to; "{refusal}")
}

// Tells on standard error that standard output failed.
fn tell_unless(rt: &impl Eprint, written: io::Result<()>) -> io::Result<()> {
    if written.is_ok() {
        return Ok(());
    }
    eprintln!(rt; "standard output could not be written")
}
