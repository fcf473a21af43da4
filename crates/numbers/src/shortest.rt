// The shortest form of a seven-bit number: its length, and writing it.
ghost use Rattle.std.specs.Prelude.{◌≡◌, ◌+◌, ◌≤◌, length};
ghost use Rattle.std.proofs.lemmas.List.Edits.{sets};
ghost use Rattle.layout.specs.Shortest.{shortest};
ghost use Rattle.numbers.specs.Shortest.{placed_at, written_at};

// How many bytes the shortest form of a number has.
pub fn shortest_len(n: u32) -> usize
    ensures { result ≡ length (shortest n) }
{
    if n < 128 {
        return 1;
    }
    if n < 16384 {
        return 2;
    }
    if n < 2097152 {
        return 3;
    }
    if n < 268435456 {
        return 4;
    }
    5
}

// Writes the shortest form from a place on, where it has room.
fn put(out: &mut [u8], at: usize, n: u32)
    requires { at + length (shortest n) ≤ length out.old }
    ensures { out.new ≡ sets out.old at (shortest n) }
{
    let mut i = at;
    let mut x = n;
    // Kept: what is left of the number ends the loop, and not the index, so a range is no plainer.
    while 128 <= x {
        out[i] = (x % 128 + 128) as u8;
        x /= 128;
        i += 1;
    }
    out[i] = x as u8;
}

// Writes the shortest form of a number into the lent bytes, if it has room there; the place behind it.
pub fn write_shortest(out: &mut [u8], at: usize, n: u32) -> Option<usize>
    ensures { (result ≡ placed_at out.old at n) × (out.new ≡ written_at out.old at n) }
{
    let size = shortest_len(n);
    if out.len() < at {
        return None;
    }
    if out.len() - at < size {
        return None;
    }
    put(out, at, n);
    Some(at + size)
}
