// Writes the file on standard input with its seven-bit numbers in their shortest forms; a refusal goes to standard error alone.
#![tactic(auto)]

use answers::Rule;
use table::WIDTH;

// Rewrites the file, with room for 1,024 rows.
fn shorten(rt: &HostRuntime, file: &[u8], out: &mut [u8]) -> std::io::Result<()> {
    let mut words = [0u32; 1024 * WIDTH as usize];
    match rewrite::rewrite(file, b"", &mut words, out) {
        Err(refusal) => printing::tell_refusal(rt, refusal),
        Ok(length) => printing::write_start(rt, out, length),
    }
}

fn main(rt: HostRuntime) -> std::io::Result<()> {
    let mut space = io::large_buffer();
    let mut out = io::large_buffer();
    let n = io::read_full(0, &mut space);
    if 32768 < n {
        return printing::tell_refusal(&rt, Rule::TooLarge.at(0));
    }
    shorten(&rt, &space[..n], &mut out)
}
