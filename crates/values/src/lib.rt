// 01, "Values and kinds": values of fixed size.
#![tactic(auto)]

ghost use Rattle.std.specs.Prelude.{◌≡◌, ◌≤◌, length, get_or, take, drop};
ghost use Rattle.layout.specs.Fixed.{sizes};
ghost use Rattle.reading.specs.Fixed.{is_boolean, is_date_time, is_decimal, rule, fixed_at, sized};
ghost use Rattle.answers.specs.Told.{told};

use answers::{Number, Read, Rule};
use names::kinds::{BOOLEAN, DATE_TIME, DECIMAL};
use widen::wide;

// 01: "Each kind has a number and, where fixed, a size in bytes": 0 where none is fixed, and for Enum.
const SIZES: [u8; 31] = [
    0, 1, 1, 2, 2, 4, 4, 8, 8, 4, 8, 1, 0, 0, 0, 0, 0, 0, 0, 0, 8, 8, 16, 8, 12, 16, 64, 16, 4, 8,
    16,
];

pub fn size_of_kind(kind: u32) -> usize
    ensures { result ≡ get_or sizes kind 0 }
{
    match SIZES.get(kind as usize) {
        Some(size) => wide(*size) as usize,
        None => 0,
    }
}

fn boolean(own: &[u8]) -> bool
    ensures { result ≡ is_boolean own.now }
{
    if own.len() != 1 {
        return false;
    }
    own[0] <= 1
}

// The low 62 bits are ticks and the high two a kind.
fn date_time(own: &[u8]) -> bool
    ensures { result ≡ is_date_time own.now }
{
    if own.len() != 8 {
        return false;
    }
    let Ok(Read { value: n, next: _ }) = numbers::little::little::<u64>(own, 0) else {
        return false;
    };
    if 3155378975999999999 < n % 4611686018427387904 {
        return false;
    }
    n / 4611686018427387904 <= 2
}

fn decimal(own: &[u8]) -> bool
    ensures { result ≡ is_decimal own.now }
{
    if own.len() != 16 {
        return false;
    }
    if own[12] != 0 {
        return false;
    }
    if own[13] != 0 {
        return false;
    }
    if 28 < own[14] {
        return false;
    }
    own[15] % 128 == 0
}

// Whether a value's bytes keep the rule of its kind.
pub fn keeps_rule(kind: u32, own: &[u8]) -> bool
    ensures { result ≡ rule kind own.now }
{
    match kind {
        BOOLEAN => boolean(own),
        DATE_TIME => date_time(own),
        DECIMAL => decimal(own),
        _ => true,
    }
}

// How many bytes there are from `at` on.
fn left(file: &[u8], at: usize) -> usize
    ensures { result ≡ length (drop at file.now) }
{
    file.len().saturating_sub(at)
}

// The `size` bytes from `at` on, where there are as many; none past the end.
fn part(file: &[u8], at: usize, size: usize) -> &[u8]
    requires { size ≤ length (drop at file.now) }
    ensures { result.now ≡ take size (drop at file.now) }
{
    if file.len() < at {
        return &file[0..0];
    }
    let next = at + size;
    &file[at..next]
}

// A value of a kind that has a rule, whose bytes are there.
fn judged(file: &[u8], kind: u32, size: usize, at: usize) -> Number
    requires { size ≤ length (drop at file.now) }
    ensures { told result ≡ sized (fixed_at file.now kind size at) }
{
    if keeps_rule(kind, part(file, at, size)) {
        return Ok(Read {
            value: size as u64,
            next: at + size,
        });
    }
    Err(Rule::BadValue.at(at))
}

// The value of a kind at `at`: its size is found once for many values, by `size_of_kind`.
pub fn fixed_at(file: &[u8], kind: u32, size: usize, at: usize) -> Number
    ensures { told result ≡ sized (fixed_at file.now kind size at) }
{
    if left(file, at) < size {
        return Err(Rule::PastEnd.at(at));
    }
    let next = at + size;
    match kind {
        BOOLEAN | DATE_TIME | DECIMAL => judged(file, kind, size, at),
        _ => Ok(Read {
            value: size as u64,
            next,
        }),
    }
}
