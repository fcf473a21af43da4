// A character as it stands in the XML, and literals.
ghost use Rattle.std.specs.Prelude.{◌≡◌, true, ◌+◌, ◌≤◌, ◌<◌, length, drop, get_or, [], ◌∷◌};
ghost use Rattle.names.specs.Parse.{common};
ghost use Rattle.xml_layout.specs.Xml.{item_start, item_end};
ghost use Rattle.xml_import.specs.Places.{stands_alone, FourAt, RangesAt, TopAt, PlainAt, EntityAt};

// Whether four bytes stand from `at` on: they are compared at once.
fn four_at(xml: &[u8], at: usize, four: &[u8; 4]) -> bool
    requires { at + 4 ≤ length xml.now }
    ensures { result ≡ true → FourAt four.now xml.now at }
{
    let here = u32::from_le_bytes([xml[at], xml[at + 1], xml[at + 2], xml[at + 3]]);
    here == u32::from_le_bytes(*four)
}

// Whether an item's start stands in the XML from `at` on.
fn starts_at(xml: &[u8], at: usize) -> bool
    requires { at + 6 ≤ length xml.now }
    ensures { result ≡ true → 6 ≡ common item_start (drop at xml.now) }
{
    four_at(xml, at, b"<Ite") && four_at(xml, at + 2, b"tem>")
}

// How many bytes of it stand there, byte by byte.
fn other_start(xml: &[u8], at: usize) -> usize
    ensures { result ≡ common item_start (drop at xml.now) }
{
    names::texts::matched_at(xml, at, b"<Item>")
}

// The same: the whole start is told at once.
pub(crate) fn start_at(xml: &[u8], at: usize) -> usize
    requires { at < length xml.now }
    ensures { result ≡ common item_start (drop at xml.now) }
{
    if 6 <= xml.len() - at {
        if starts_at(xml, at) {
            return 6;
        }
    }
    other_start(xml, at)
}

// Whether an item's end stands in the XML from `at` on.
pub(crate) fn ends_at(xml: &[u8], at: usize) -> bool
    requires { at + 7 ≤ length xml.now }
    ensures { result ≡ true → 7 ≡ common item_end (drop at xml.now) }
{
    four_at(xml, at, b"</It") && four_at(xml, at + 3, b"tem>")
}

// How many bytes of it stand there, byte by byte.
fn other_end(xml: &[u8], at: usize) -> usize
    ensures { result ≡ common item_end (drop at xml.now) }
{
    names::texts::matched_at(xml, at, b"</Item>")
}

// The same: the whole end is told at once.
pub(crate) fn end_at(xml: &[u8], at: usize) -> usize
    requires { at < length xml.now }
    ensures { result ≡ common item_end (drop at xml.now) }
{
    if 7 <= xml.len() - at {
        if ends_at(xml, at) {
            return 7;
        }
    }
    other_end(xml, at)
}

// Where bytes that are looked for end, or where they fail.
type Matched = Result<usize, usize>;

// A byte from `low` to `high`.
fn byte_at(xml: &[u8], at: usize, low: u8, high: u8) -> Matched
    requires { at ≤ length xml.now }
    ensures { RangesAt ((low, high) ∷ []) xml.now at result }
{
    if xml.len() <= at {
        return Err(at);
    }
    let b = xml[at];
    if b < low {
        return Err(at);
    }
    if high < b {
        return Err(at);
    }
    Ok(at + 1)
}

// A byte from `low` to `high`, and one from 80 hex to `most`.
fn two_at(xml: &[u8], at: usize, low: u8, high: u8, most: u8) -> Matched
    requires { at ≤ length xml.now }
    ensures { RangesAt ((low, high) ∷ (0x80, most) ∷ []) xml.now at result }
{
    let next = byte_at(xml, at, low, high)?;
    byte_at(xml, next, 0x80, most)
}

// A byte from `low` to `high`, and two from 80 to BF hex.
fn three_at(xml: &[u8], at: usize, low: u8, high: u8) -> Matched
    requires { at ≤ length xml.now }
    ensures { RangesAt ((low, high) ∷ (0x80, 0xBF) ∷ (0x80, 0xBF) ∷ []) xml.now at result }
{
    let next = byte_at(xml, at, low, high)?;
    two_at(xml, next, 0x80, 0xBF, 0xBF)
}

// The two bytes behind EF hex, which are not those of U+FFFE and U+FFFF.
fn top_at(xml: &[u8], at: usize) -> Matched
    requires { at ≤ length xml.now }
    ensures { TopAt xml.now at result }
{
    match byte_at(xml, at, 0x80, 0xBE) {
        Err(_) => two_at(xml, at, 0xBF, 0xBF, 0xBD),
        Ok(next) => byte_at(xml, next, 0x80, 0xBF),
    }
}

// Whether a byte is an ASCII character that stands as it is; letters are told by two tests.
pub(crate) fn ordinary(b: u8) -> bool
    ensures { result ≡ stands_alone b }
{
    if b'>' < b {
        if 0x7F < b {
            return false;
        }
        return true;
    }
    if b < 0x20 {
        return false;
    }
    if b == b'"' {
        return false;
    }
    if b == b'&' {
        return false;
    }
    if b == b'<' {
        return false;
    }
    b != b'>'
}

// A character that is not ASCII, by its first byte.
fn wide_at(xml: &[u8], at: usize) -> Matched
    requires { (at < length xml.now) × (0x80 ≤ get_or xml.now at 0) }
    ensures { PlainAt xml.now at result }
{
    let next = at + 1;
    match xml[at] {
        0xC2..=0xDF => byte_at(xml, next, 0x80, 0xBF),
        0xE0 => two_at(xml, next, 0xA0, 0xBF, 0xBF),
        0xE1..=0xEC => two_at(xml, next, 0x80, 0xBF, 0xBF),
        0xED => two_at(xml, next, 0x80, 0x9F, 0xBF),
        0xEE => two_at(xml, next, 0x80, 0xBF, 0xBF),
        0xEF => top_at(xml, next),
        0xF0 => three_at(xml, next, 0x90, 0xBF),
        0xF1..=0xF3 => three_at(xml, next, 0x80, 0xBF),
        0xF4 => three_at(xml, next, 0x80, 0x8F),
        _ => Err(at),
    }
}

// A character that stands as it is.
pub(crate) fn plain_at(xml: &[u8], at: usize) -> Matched
    requires { at < length xml.now }
    ensures { PlainAt xml.now at result }
{
    let b = xml[at];
    if ordinary(b) {
        return Ok(at + 1);
    }
    if b < 0x80 {
        return Err(at);
    }
    wide_at(xml, at)
}

// An entity's character, and where the entity ends.
#[derive(Clone, Copy, Debug, PartialEq, Eq)]
pub struct Entity {
    pub byte: u8,
    pub next: usize,
}

// One of the four entities, or where none stands.
#[inline(never)]
fn other_entity(xml: &[u8], at: usize) -> Result<Entity, usize>
    requires { (at < length xml.now) × (get_or xml.now at 0 ≡ 0x26) }
    ensures { EntityAt xml.now at result }
{
    let a = names::texts::matched_at(xml, at, b"&amp;");
    if a == 5 {
        return Ok(Entity {
            byte: b'&',
            next: at + 5,
        });
    }
    let l = names::texts::matched_at(xml, at, b"&lt;");
    if l == 4 {
        return Ok(Entity {
            byte: b'<',
            next: at + 4,
        });
    }
    let g = names::texts::matched_at(xml, at, b"&gt;");
    if g == 4 {
        return Ok(Entity {
            byte: b'>',
            next: at + 4,
        });
    }
    let q = names::texts::matched_at(xml, at, b"&quot;");
    if q == 6 {
        return Ok(Entity {
            byte: b'"',
            next: at + 6,
        });
    }
    Err(at + a.max(l).max(g).max(q))
}

// The same: four bytes are compared at once. In its callers no answer goes through memory.
#[inline(always)]
pub(crate) fn entity_at(xml: &[u8], at: usize) -> Result<Entity, usize>
    requires { (at < length xml.now) × (get_or xml.now at 0 ≡ 0x26) }
    ensures { EntityAt xml.now at result }
{
    if xml.len() - at < 6 {
        return other_entity(xml, at);
    }
    if four_at(xml, at + 1, b"amp;") {
        return Ok(Entity {
            byte: b'&',
            next: at + 5,
        });
    }
    if four_at(xml, at, b"&lt;") {
        return Ok(Entity {
            byte: b'<',
            next: at + 4,
        });
    }
    if four_at(xml, at, b"&gt;") {
        return Ok(Entity {
            byte: b'>',
            next: at + 4,
        });
    }
    if four_at(xml, at, b"&quo") && four_at(xml, at + 2, b"uot;") {
        return Ok(Entity {
            byte: b'"',
            next: at + 6,
        });
    }
    other_entity(xml, at)
}
