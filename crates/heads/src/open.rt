// Reading the head of a raw value: a refusal, or where the head ends and what stands below it.
ghost use Rattle.std.specs.Prelude.{◌≡◌, ◌≤◌, max};
ghost use Rattle.answers.specs.Told.{told};
ghost use Rattle.numbers.specs.Padded.{beside, told_padded};
ghost use Rattle.layout.specs.Image.{digits};
ghost use Rattle.reading.specs.Little.{little_at};
ghost use Rattle.heads.specs.Opens.{headed, ranged_at};
ghost use Rattle.heads.specs.declared.nest.Below.TheVariants.{Nested};
ghost use Rattle.heads.specs.Total.{alone_as, leaf_as, each_as, pairs_as, flag_as, list_as, dictionary_as, levels_as, height_as, width_as, image_as, open_as};

use crate::nest::{Below, Nest};
use crate::slot::Slot;
use answers::{Number, Read, Refusal, Rule};
use leaves::run::Run;
use names::kinds;
use numbers::seven::Padded;

// A head: where it ends, and what stands below it.
#[derive(Clone, Copy, Debug, PartialEq, Eq)]
pub struct Opened {
    pub next: usize,
    pub below: Below,
}

// A value without children, once its bytes are read.
fn alone(read: Result<Padded, Refusal>) -> Result<Opened, Refusal>
    ensures { result ≡ alone_as (told_padded read) }
{
    let read = read?;
    Ok(Opened {
        next: read.next,
        below: Below::Nothing(read.padding),
    })
}

// A value that has no count, and so no padding.
fn unpadded(read: Number) -> Result<Padded, Refusal>
    ensures { told_padded result ≡ beside 0 (told read) }
{
    let read = read?;
    Ok(Padded {
        value: read.value,
        next: read.next,
        padding: 0,
    })
}

// The bytes of a value of a kind without children, and the padding of its count.
#[tactic(auto, unfolding(crate::specs::Total::leaf_as))]
fn leaf_at(file: &[u8], kind: u32, at: usize) -> Result<Padded, Refusal>
    ensures { told_padded result ≡ leaf_as file.now kind at }
{
    match kind {
        kinds::CHAR => unpadded(text::char_at(file, at)),
        kinds::STRING => leaves::read::text_at(file, at),
        _ => unpadded(values::fixed_at(file, kind, crate::slot::bytes_of(kind), at)),
    }
}

// n values that stand alike.
fn each_of(slot: Slot, n: u32) -> Below
    ensures { result ≡ each_as slot n }
{
    match slot {
        Slot::Simple(value) => Below::Simple(Run::Same(value, n)),
        _ => Below::Nested(Nest::Each(slot, n)),
    }
}

// n keys and values in turn.
fn pairs_of(key: Slot, value: Slot, n: u32) -> Below
    ensures { result ≡ pairs_as key value n }
{
    match (key, value) {
        (Slot::Simple(k), Slot::Simple(v)) => Below::Simple(Run::Turns(k, v, n)),
        _ => Below::Nested(Nest::Pairs(key, value, n)),
    }
}

// A nullable of the type at `a`: its first byte, and perhaps the value.
fn nullable_head(file: &[u8], codes: &[u32], a: usize, at: usize) -> Result<Opened, Refusal>
    ensures { result ≡ flag_as codes.now a at (little_at file.now 1 at at) }
{
    let flag = numbers::little::little::<u8>(file, at)?;
    let below = match flag.value {
        0 => Below::Nothing(0),
        1 => each_of(crate::slot::raw_of(codes, a), 1),
        _ => {
            return Err(Rule::BadValue.at(at));
        }
    };
    Ok(Opened {
        next: flag.next,
        below,
    })
}

// An array or a list of the type at `a`: its count.
fn list_head(file: &[u8], codes: &[u32], a: usize, at: usize) -> Result<Opened, Refusal>
    ensures { result ≡ list_as codes.now a (little_at file.now 4 at at) }
{
    let count = numbers::little::little::<u32>(file, at)?;
    Ok(Opened {
        next: count.next,
        below: each_of(crate::slot::slot_of(codes, a), count.value as u32),
    })
}

// A dictionary of the types at `a` and `b`: its count.
fn dictionary_head(
    file: &[u8],
    codes: &[u32],
    a: usize,
    b: usize,
    at: usize,
) -> Result<Opened, Refusal>
    ensures { result ≡ dictionary_as codes.now a b (little_at file.now 4 at at) }
{
    let count = numbers::little::little::<u32>(file, at)?;
    let key = crate::slot::slot_of(codes, a);
    let value = crate::slot::slot_of(codes, b);
    Ok(Opened {
        next: count.next,
        below: pairs_of(key, value, count.value as u32),
    })
}

// A field of four bytes from `low` to `high`.
fn ranged(file: &[u8], low: u64, high: u64, at: usize) -> Number
    ensures { told result ≡ ranged_at file.now low high at }
{
    let read = numbers::little::little::<u32>(file, at)?;
    if read.value < low || high < read.value {
        return Err(Rule::BadValue.at(at));
    }
    Ok(read)
}

// An image's level count.
fn image_levels(
    file: &[u8],
    format: u32,
    width: u32,
    height: u32,
    at: usize,
) -> Result<Opened, Refusal>
    requires { (format ≤ 18) × (1 ≤ width) × (width ≤ 4096) × (1 ≤ height) × (height ≤ 4096) }
    ensures { result ≡ levels_as format width height (ranged_at file.now 1 (digits 32 (max width height)) at) }
{
    let most = images::longest_chain(width, height) as u64;
    let levels = ranged(file, 1, most, at)?;
    let count = levels.value as u32;
    Ok(Opened {
        next: levels.next,
        below: Below::Simple(Run::Levels(format, width, height, count)),
    })
}

// An image's height, and what follows it.
fn image_height(file: &[u8], format: u32, width: u32, at: usize) -> Result<Opened, Refusal>
    requires { (format ≤ 18) × (1 ≤ width) × (width ≤ 4096) }
    ensures { result ≡ height_as file.now format width (ranged_at file.now 1 4096 at) }
{
    let height = ranged(file, 1, 4096, at)?;
    image_levels(file, format, width, height.value as u32, height.next)
}

// An image's width, and what follows it.
fn image_width(file: &[u8], format: u32, at: usize) -> Result<Opened, Refusal>
    requires { format ≤ 18 }
    ensures { result ≡ width_as file.now format (ranged_at file.now 1 4096 at) }
{
    let width = ranged(file, 1, 4096, at)?;
    image_height(file, format, width.value as u32, width.next)
}

// An image: format, width, height and level count, each judged before the next.
fn image_head(file: &[u8], at: usize) -> Result<Opened, Refusal>
    ensures { result ≡ image_as file.now (ranged_at file.now 0 18 at) }
{
    let format = ranged(file, 0, 18, at)?;
    image_width(file, format.value as u32, format.next)
}

// A head without bytes of its own, with such a nest below.
fn nested(nest: Nest, at: usize) -> Result<Opened, Refusal>
    ensures { result ≡ headed at (Nested nest) }
{
    Ok(Opened {
        next: at,
        below: Below::Nested(nest),
    })
}

// The head of a raw value of the type at `t`; Object and Texture have no raw values.
#[tactic(auto, unfolding(crate::specs::Total::open_as, crate::specs::Total::kind_as))]
pub fn open(file: &[u8], codes: &[u32], t: usize, at: usize) -> Result<Opened, Refusal>
    ensures { result ≡ open_as file.now codes.now t at }
{
    if codes.len() <= t {
        return Err(Rule::NoReader.at(at));
    }
    let kind = targets::kind_at(codes, t);
    let first = t + 1;
    match kind {
        kinds::OBJECT | kinds::TEXTURE => Err(Rule::NoReader.at(at)),
        kinds::NULLABLE_KIND => nullable_head(file, codes, first, at),
        kinds::ARRAY_KIND | kinds::LIST_KIND => list_head(file, codes, first, at),
        kinds::DICTIONARY_KIND => {
            let second = targets::after(codes, first);
            dictionary_head(file, codes, first, second, at)
        }
        kinds::TEXTURE_2D => image_head(file, at),
        kinds::SPRITE_FONT => nested(Nest::Font, at),
        kinds::PAGE => nested(Nest::Page, at),
        kinds::INDEX_BUFFER..=kinds::MODEL => nested(Nest::Mesh(kind), at),
        _ => alone(leaf_at(file, kind, at)),
    }
}
