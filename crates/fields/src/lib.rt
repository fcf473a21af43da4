// Fields that go by what stands before them: data bytes, and numbers that keep a rule (02, Req 05).
#![tactic(auto)]

ghost use Rattle.std.specs.Prelude.{◌≡◌, ◌≤◌};
ghost use Rattle.answers.specs.Told.{told};
ghost use Rattle.layout.specs.Slot.{at_most, multiple_of, blob};
ghost use Rattle.layout.specs.Mesh.{bone_leaf, code_leaf, size_leaf};
ghost use Rattle.reading.specs.Fixed.{sized};
ghost use Rattle.reading.specs.Heads.{leaf_at};
ghost use Rattle.fields.specs.Ruled.{ruled};

use answers::{Number, Read, Rule};

// A number of `size` bytes that was read at `at`: at most `most`, else 15.
fn at_most(read: Number, most: u64, size: u64, at: usize) -> Number
    ensures { told result ≡ ruled (at_most most) size at (told read) }
{
    let Read { value: n, next } = read?;
    if most < n {
        return Err(Rule::BadValue.at(at));
    }
    Ok(Read { value: size, next })
}

// A number of 4 bytes that was read at `at`: a multiple of `unit`, else 15.
fn multiple_of(read: Number, unit: u64, at: usize) -> Number
    requires { 1 ≤ unit }
    ensures { told result ≡ ruled (multiple_of unit) 4 at (told read) }
{
    let Read { value: n, next } = read?;
    if n % unit != 0 {
        return Err(Rule::BadValue.at(at));
    }
    Ok(Read { value: 4, next })
}

// A bone reference in a model of so many bones: one byte below 255 bones, else four. The value is the number of its bytes, as of the fields below.
pub fn bone_at(file: &[u8], bones: u32, at: usize) -> Number
    ensures { told result ≡ sized (leaf_at file.now (bone_leaf bones) at) }
{
    if bones < 255 {
        return at_most(numbers::little::little::<u8>(file, at), bones as u64, 1, at);
    }
    at_most(
        numbers::little::little::<u32>(file, at),
        bones as u64,
        4,
        at,
    )
}

// One of the codes 0 to `last`.
pub fn code_at(file: &[u8], last: u32, at: usize) -> Number
    ensures { told result ≡ sized (leaf_at file.now (code_leaf last) at) }
{
    at_most(numbers::little::little::<u32>(file, at), last as u64, 4, at)
}

// The size of index data: a multiple of 2 where the flag before it is 1, else of 4.
pub fn size_at(file: &[u8], flag: u32, at: usize) -> Number
    ensures { told result ≡ sized (leaf_at file.now (size_leaf flag) at) }
{
    if flag == 1 {
        return multiple_of(numbers::little::little::<u32>(file, at), 2, at);
    }
    multiple_of(numbers::little::little::<u32>(file, at), 4, at)
}

// Data bytes, so many.
pub fn data_at(file: &[u8], size: u64, at: usize) -> Number
    ensures { told result ≡ sized (leaf_at file.now (blob size) at) }
{
    let n = size as usize;
    if !numbers::little::has_bytes(file, at, n) {
        return Err(Rule::PastEnd.at(at));
    }
    Ok(Read {
        value: size,
        next: at + n,
    })
}
