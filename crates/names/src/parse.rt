// The parser of reader names.
ghost use Rattle.std.specs.Prelude.{◌≡◌, ◌≤◌, ◌<◌, ◌+◌, length, drop, set};
ghost use Rattle.answers.specs.Refusals.{refusal};
ghost use Rattle.names.specs.declared.parse.Unnamed.TheVariants.{Broken};
ghost use Rattle.names.specs.Parse.{tail_size, unopened_number, unopened_at};
ghost use Rattle.names.specs.Contract.{Inside, arguments, rule_behind, tailed, passed, closing, Parses, ReadsName};
ghost use Rattle.names.specs.Kind.{kind_in, word};
ghost use Rattle.names.specs.Entries.{enums_of};

use crate::bytes::Class;
use crate::{bytes, tables, texts};
use answers::{Refusal, Rule};

// Where a name ends, which rule a byte that cannot follow it breaks, and how many codes are used then.
#[derive(Clone, Copy, Debug, PartialEq, Eq)]
struct Parsed {
    wrong: Rule,
    end: usize,
    used: usize,
}

// A reader's name or a part of it, and the place of its first byte in the file, which codes have room for.
#[derive(Clone, Copy)]
struct Part<'a> {
    bytes: &'a [u8],
    at: usize,
    ghost placed: { at + length bytes.now ≤ 16777216 },
}

impl<'a> Part<'a> {
    // What stands behind the first n bytes.
    fn behind(self, n: usize) -> Part<'a>
        requires { n ≤ length self.bytes.now }
        ensures bytes { result.bytes.now ≡ drop n self.entry.bytes.now }
        ensures at { result.at ≡ self.entry.at + n }
    {
        Part {
            bytes: &self.bytes[n..],
            at: self.at + n,
        }
    }
}

// How many bytes a comma and a tail have, if they stand first.
fn tail_size(s: &[u8]) -> usize
    ensures { result ≡ tail_size s.now }
{
    if !texts::stands(s, 0, b",") {
        return 0;
    }
    bytes::long_run(&s[1..], Class::Tail) + 1
}

// Perhaps a tail at `at`. A byte that cannot follow is a bad one in the tail, or `bare` where there is no tail.
fn tailed_at(name: &[u8], at: usize, used: usize, bare: Rule) -> Parsed
    requires { at ≤ length name.now }
    ensures { result ≡ tailed name.now at used bare }
{
    let size = tail_size(&name[at..]);
    if size == 0 {
        return Parsed {
            wrong: bare,
            end: at,
            used,
        };
    }
    let end = at + size;
    Parsed {
        wrong: Rule::TailByte,
        end,
        used,
    }
}

// How many arguments a head has that ends at `h`, or the fault of a backquote that opens none.
fn arguments_at(part: Part, h: usize) -> Result<u32, Refusal>
    requires { h ≤ length part.bytes.now }
    ensures { result ≡ arguments part.entry.at h part.entry.bytes.now }
{
    if texts::stands(part.bytes, h, b"`1[[") {
        return Ok(1);
    }
    if texts::stands(part.bytes, h, b"`2[[") {
        return Ok(2);
    }
    if texts::stands(part.bytes, h, b"`") {
        return Err(unopened(part, h));
    }
    Ok(0)
}

// The fault behind a head of h bytes whose backquote opens no arguments.
fn unopened(part: Part, h: usize) -> Refusal
    requires { h ≤ length part.bytes.now }
    ensures { result ≡ refusal (unopened_number (drop h part.entry.bytes.now)) (part.entry.at + (h + unopened_at (drop h part.entry.bytes.now))) }
{
    let digit = texts::stands(part.bytes, h, b"`1") | texts::stands(part.bytes, h, b"`2");
    let bracket = texts::stands(part.bytes, h, b"`1[") | texts::stands(part.bytes, h, b"`2[");
    let first = part.at + h + 1;
    let second = part.at + h + 2;
    if !digit {
        return Rule::ArgumentDigit.at(first);
    }
    if !bracket {
        return Rule::ArgumentBrackets.at(second);
    }
    let third = part.at + h + 3;
    Rule::ArgumentBrackets.at(third)
}

// What is wrong behind an argument that ends at e, where a bracket is due: `other` if another byte stands there.
fn behind_at(name: &[u8], e: usize, other: Rule) -> Rule
    ensures { result ≡ rule_behind other (drop e name.now) }
{
    if name.len() <= e {
        return Rule::ArgumentBrackets;
    }
    if name[e] == b']' {
        return Rule::ArgumentBrackets;
    }
    other
}

// After an argument that was read from `a` on: where the text that must follow it ends.
fn past(part: Part, a: usize, argument: Parsed, text: &[u8]) -> Result<usize, Refusal>
    requires { Inside (length part.bytes.now) a argument }
    ensures { result ≡ passed text.now part.entry.at part.entry.bytes.now a argument }
{
    let e = a + argument.end;
    let m = texts::matched(part.bytes, e, text);
    let next = e + m;
    if m == text.len() {
        return Ok(next);
    }
    let place = part.at + next;
    Err(behind_at(part.bytes, e, argument.wrong).at(place))
}

// After the last argument, which was read from `a` on: two brackets, and perhaps a tail.
fn close(part: Part, a: usize, argument: Parsed) -> Result<Parsed, Refusal>
    requires { Inside (length part.bytes.now) a argument }
    ensures { result ≡ closing part.entry.at part.entry.bytes.now a argument }
{
    let end = past(part, a, argument, b"]]")?;
    Ok(tailed_at(part.bytes, end, argument.used, Rule::ArgumentBrackets))
}

// The code of a head with n arguments at a place: its kind, 64 times n and 256 times the place.
fn word_of(head: &[u8], own: bool, n: u32, at: usize, enums: &[u8]) -> u32
    requires { (n ≤ 2) × (at < 16777216) }
    ensures { result ≡ word (kind_in (enums_of enums.now) own head.now n) n at }
{
    tables::kind_in(head, own, n, enums) + 64 * n + 256 * at as u32
}

// Puts a code, if there is room for it.
fn put(codes: &mut [u32], i: usize, code: u32)
    ensures { codes.new ≡ set codes.old i code }
{
    if i < codes.len() {
        codes[i] = code;
    }
}

// The name that stands first in a part: where it ends, and its heads' codes into `codes` from `used` on.
fn parse(
    part: Part,
    own: bool,
    level: u32,
    enums: &[u8],
    codes: &mut [u32],
    used: usize,
) -> Result<Parsed, Refusal>
    requires { used + length part.bytes.now ≤ 33554432 }
    ensures { Parses (enums_of enums.now) own level part.entry.at part.entry.bytes.now codes.old codes.new used result }
{
    if level == 0 {
        return Err(Rule::NestedTooDeep.at(part.at));
    }
    let h = bytes::long_run(part.bytes, Class::Head);
    if h == 0 {
        return Err(Rule::EmptyHead.at(part.at));
    }
    let n = arguments_at(part, h)?;
    put(
        codes,
        used,
        word_of(&part.bytes[..h], own, n, part.at, enums),
    );
    let next = used + 1;
    if n == 0 {
        return Ok(tailed_at(part.bytes, h, next, Rule::HeadByte));
    }
    let a = h + 4;
    let first = parse(part.behind(a), false, level - 1, enums, codes, next)?;
    if n == 1 {
        return close(part, a, first);
    }
    let b = past(part, a, first, b"],[")?;
    let second = parse(part.behind(b), false, level - 1, enums, codes, first.used)?;
    close(part, b, second)
}

// Why a reader's name has no codes: it is refused, or there is no room for the codes of its heads or for their places.
#[derive(Clone, Copy, Debug, PartialEq, Eq)]
pub enum Unnamed {
    Broken(Refusal),
    NoRoom,
}

impl From<Refusal> for Unnamed {
    ghost from_gives = { λ refusal e. e ≡ Broken refusal };

    fn from(refusal: Refusal) -> Unnamed {
        Unnamed::Broken(refusal)
    }
}

// Reads a whole reader name, whose first byte is at `at` in the file, and leaves its heads' codes in `codes` from `used` on: how many codes are used then.
pub fn read_name(
    name: &[u8],
    at: usize,
    enums: &[u8],
    codes: &mut [u32],
    used: usize,
) -> Result<usize, Unnamed>
    ensures { ReadsName (enums_of enums.now) name.now at codes.old codes.new used result }
{
    if 16777216 < used {
        return Err(Unnamed::NoRoom);
    }
    if 16777216 < name.len() {
        return Err(Unnamed::NoRoom);
    }
    if 16777216 - name.len() < at {
        return Err(Unnamed::NoRoom);
    }
    let whole = parse(Part { bytes: name, at }, true, 8, enums, codes, used)?;
    if whole.end != name.len() {
        let place = at + whole.end;
        return Err(Unnamed::Broken(whole.wrong.at(place)));
    }
    if codes.len() < whole.used {
        return Err(Unnamed::NoRoom);
    }
    Ok(whole.used)
}
