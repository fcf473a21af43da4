// Marks of names: a name has one cell of a table and some bits there, so a name whose bits are not all set was not noted.
#![tactic(auto)]

ghost use Rattle.std.specs.Prelude.{◌≡◌, ◌≤◌, ◌^◌, ◌%◌};
ghost use Rattle.seen_names.specs.Sum.{step_of, spread_of, sum_of};
ghost use Rattle.seen_names.specs.Seen.{bits_of, is_noted, noted};

// The sum over a name's bytes, with the next ones.
fn step(sum: u64, next: u64) -> u64
    requires { (sum ≤ 4294967295) × (next ≤ 4294967295) }
    ensures { (result ≡ step_of sum next) × (result ≤ 4294967295) }
{
    (sum * 2654435769 + next) % 4294967296
}

// The sum over all bytes of a name, four at once as long as there are four.
fn sum_of(name: &[u8]) -> u64
    ensures { (result ≡ sum_of name.now) × (result ≤ 4294967295) }
{
    let mut sum = 0;
    let mut rest = name;
    while let Some((four, behind)) = rest.split_first_chunk::<4>() {
        sum = step(sum, u32::from_le_bytes(*four) as u64);
        rest = behind;
    }
    for b in rest {
        sum = step(sum, *b as u64);
    }
    sum
}

// A sum that has each bit of another one in its upper bits.
fn spread(sum: u64) -> u64
    requires { sum ≤ 4294967295 }
    ensures { (result ≡ spread_of sum) × (result ≤ 4294967295) }
{
    step(sum, sum / 65536)
}

// One bit of 64, by a number's lowest six.
fn bit(n: u64) -> u64
    ensures { result ≡ 2 ^ (n % 64) }
{
    1u64 << (n % 64)
}

// At most four bits of 64, by the upper bits of a sum.
fn bits_of(sum: u64) -> u64
    ensures { result ≡ bits_of sum }
{
    bit(sum / 67108864) | bit(sum / 1048576) | bit(sum / 16384) | bit(sum / 256)
}

// Notes a name in a table of any length; whether its bits were all set before, as they are for each noted name. A table without cells has all set.
pub fn note(seen: &mut [u64], name: &[u8]) -> bool
    ensures value { result ≡ is_noted seen.old name.now }
    ensures seen_after { seen.new ≡ noted seen.old name.now }
{
    let cells = seen.len();
    if cells == 0 {
        return true;
    }
    let first = spread(sum_of(name));
    let second = spread(first);
    let cell = (first / 65536) as usize % cells;
    let old = seen[cell];
    let all = old | bits_of(second);
    seen[cell] = all;
    all == old
}
