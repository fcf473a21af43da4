// Importing XML as a file (Req 13): the texts of the XML's items, in a file with an Array of String.
#![tactic(auto)]

mod character;
mod known;
mod standing;

ghost use Rattle.std.specs.Prelude.{◌≡◌, ◌+◌, ◌^◌, ◌≤◌, ◌<◌, length};
ghost use Rattle.layout.specs.Shortest.{shortest};
ghost use Rattle.reading.specs.Output.{output_of};
ghost use Rattle.xml_reading.specs.Answers.{import_of};
ghost use Rattle.xml_import.specs.Places.{Known, TextAt, Measures};
ghost use Rattle.xml_import.specs.Puts.{front_put, TextOf, LastIf, Ready, VerbatimIf, TextPut, StringPut, Fits, StringsPut, answer_of};

use answers::{Refusal, Rule};

// How many bytes the text of an item has, and where the item ends.
#[derive(Clone, Copy, Debug, PartialEq, Eq)]
pub struct Texted {
    pub size: usize,
    pub next: usize,
}

// The text of an item from `at` on, and the item's end.
fn filled_at(xml: &[u8], at: usize) -> Result<Texted, usize>
    requires { at ≤ length xml.now }
    ensures { TextAt xml.now at result }
{
    let mut i = standing::opening(xml, at);
    let mut size = i - at;
    // Kept: a turn passes more than one byte, so no range or iterator fits.
    while i < xml.len() {
        if xml[i] == b'&' {
            let entity = character::entity_at(xml, i)?;
            size += 1;
            i = entity.next;
        } else {
            let run = standing::standing(xml, i);
            if i < run {
                size += run - i;
                i = run;
            } else {
                let n = character::end_at(xml, i);
                if n == 7 {
                    return Ok(Texted { size, next: i + 7 });
                }
                match character::plain_at(xml, i) {
                    Err(place) => {
                        return Err(place.max(i + n));
                    }
                    Ok(next) => {
                        size += next - i;
                        i = next;
                    }
                }
            }
        }
    }
    Err(i)
}

// The same: an empty text is told at once.
fn text_at(xml: &[u8], at: usize) -> Result<Texted, usize>
    requires { at ≤ length xml.now }
    ensures { TextAt xml.now at result }
{
    if 7 <= xml.len() - at {
        if character::ends_at(xml, at) {
            return Ok(Texted {
                size: 0,
                next: at + 7,
            });
        }
    }
    filled_at(xml, at)
}

// The same for a text that was taken before: it is only measured.
fn known_at(xml: &[u8], at: usize) -> Result<Texted, usize>
    requires { (at ≤ length xml.now) × Known xml.now at }
    ensures { TextAt xml.now at result }
{
    if at < xml.len() {
        if xml[at] == b'<' {
            return Ok(Texted {
                size: 0,
                next: at + 7,
            });
        }
    }
    let mut i = known::unmarked_rest(xml, at);
    let mut size = i - at;
    // Kept: a turn passes more than one byte, so no range or iterator fits.
    while i < xml.len() {
        let b = xml[i];
        if b == b'<' {
            return Ok(Texted { size, next: i + 7 });
        }
        if b == b'&' {
            let entity = character::entity_at(xml, i)?;
            size += 1;
            i = entity.next;
        } else {
            let run = known::unmarked_run(xml, i);
            size += run - i;
            i = run;
        }
    }
    Err(i)
}

// How many bytes a text has whose length and bytes have n together.
fn text_bytes(n: usize) -> usize
    requires { 1 ≤ n }
    ensures { TextOf n result }
{
    if n < 129 {
        return n - 1;
    }
    if n < 16386 {
        return n - 2;
    }
    if n < 2097155 {
        return n - 3;
    }
    n - 4
}

// The same as `known_at` where so many items are left, which have so many bytes in the file: the last is not measured.
fn item_at(xml: &[u8], at: usize, items: usize, bytes: usize) -> Result<Texted, usize>
    requires { (at ≤ length xml.now) × Known xml.now at × LastIf xml.now at items bytes }
    ensures { TextAt xml.now at result }
{
    if items == 1 {
        return Ok(Texted {
            size: text_bytes(bytes - 1),
            next: xml.len() - 21,
        });
    }
    known_at(xml, at)
}

// How many bytes the shortest form of a text's length has.
fn length_size(n: usize) -> usize
    ensures { result ≡ length (shortest n) }
{
    if n < 128 {
        return 1;
    }
    if n < 16384 {
        return 2;
    }
    if n < 2097152 {
        return 3;
    }
    if n < 268435456 {
        return 4;
    }
    5
}

// How many texts the XML has, and how many bytes their file.
#[derive(Clone, Copy, Debug, PartialEq, Eq)]
pub struct Measured {
    pub count: usize,
    pub size: usize,
}

// Matches the whole XML; its error is the place at which the XML is not of the form.
fn measure(xml: &[u8]) -> Result<Measured, usize>
    ensures { Measures xml.now result }
{
    let start = b"<?xml version=\"1.0\" encoding=\"utf-8\"?><XnaContent><Asset Type=\"string[]\">";
    let n = names::texts::matched_at(xml, 0, start);
    if n != 73 {
        return Err(n);
    }
    let mut i = 73;
    let mut count = 0;
    let mut size = 133;
    // Kept: a turn passes more than one byte, so no range or iterator fits.
    while i < xml.len() {
        let s = character::start_at(xml, i);
        if s != 6 {
            let e = names::texts::matched_at(xml, i, b"</Asset></XnaContent>");
            if e == 21 {
                let end = i + 21;
                if end != xml.len() {
                    return Err(end);
                }
                return Ok(Measured { count, size });
            }
            return Err(i + e.max(s));
        }
        match text_at(xml, i + 6) {
            Err(place) => {
                let e = names::texts::matched_at(xml, i, b"</Asset></XnaContent>");
                return Err(place.max(i + e));
            }
            Ok(text) => {
                count += 1;
                size += 1 + length_size(text.size) + text.size;
                i = text.next;
            }
        }
    }
    Err(i)
}

// Two readers and no shared objects, and the type id of an Array that the first reads.
const LISTS: [u8; 119] = *b"\
        \x02\
        \x3eMicrosoft.Xna.Framework.Content.ArrayReader`1[[System.String]]\x00\x00\x00\x00\
        \x2cMicrosoft.Xna.Framework.Content.StringReader\x00\x00\x00\x00\
        \x00\
        \x01";

// What stands before the texts: the header with the file's length, the readers, and the Array with its count.
fn put_front(out: &mut [u8], size: usize, count: usize)
    ensures { out.new ≡ front_put size count out.old }
{
    let header = *b"XNBw\x05\x00";
    let lists = LISTS;
    fill::copy(out, 0, &header, 0, 6);
    numbers::little::put4(out, 6, size);
    fill::copy(out, 10, &lists, 0, 119);
    numbers::little::put4(out, 129, count);
}

// The text of an item that was taken: where it stands in the XML, how many bytes it has, and whether it stands there as it is.
#[derive(Clone, Copy)]
struct Text<'a> {
    xml: &'a [u8],
    at: usize,
    size: usize,
    plain: bool,
}

// Such a text into the output from `to` on.
fn put_text(text: Text, out: &mut [u8], to: usize)
    requires { Ready text.xml.now text.at text.size × (to + text.size ≤ length out.old) }
    ensures { TextPut text.entry.xml.now text.entry.at to text.entry.size out.old out.new }
{
    let xml = text.xml;
    let end = to + text.size;
    let mut i = text.at;
    let mut j = to;
    // Kept: a turn passes more than one byte, so no range or iterator fits.
    while j < end {
        if xml[i] == b'&' {
            let Ok(entity) = character::entity_at(xml, i) else {
                return;
            };
            out[j] = entity.byte;
            j += 1;
            i = entity.next;
        } else {
            let run = known::put_run(xml, out, i, j);
            j += run - i;
            i = run;
        }
    }
}

// The same, at once where the text stands as it is; an empty one is put without a copy.
fn put_taken(text: Text, out: &mut [u8], to: usize)
    requires { Ready text.xml.now text.at text.size × (to + text.size ≤ length out.old)
        × VerbatimIf text.plain text.xml.now text.at text.size }
    ensures { TextPut text.entry.xml.now text.entry.at to text.entry.size out.old out.new }
{
    if text.size == 0 {
        return;
    }
    if text.plain {
        fill::copy(out, to, text.xml, text.at, text.size);
        return;
    }
    put_text(text, out, to);
}

// The same as a String: its type id, its length and the text; answers where it ends.
fn put_string(text: Text, out: &mut [u8], to: usize) -> usize
    requires { Ready text.xml.now text.at text.size × (text.size < 2 ^ 32)
        × (to + 1 + length (shortest text.size) + text.size ≤ length out.old)
        × VerbatimIf text.plain text.xml.now text.at text.size }
    ensures { StringPut text.entry.xml.now text.entry.at to text.entry.size out.old out.new result }
{
    let size = text.size;
    out[to] = 2;
    let next = to + 1;
    if size < 128 {
        out[next] = size as u8;
        let start = next + 1;
        put_taken(text, out, start);
        return start + size;
    }
    numbers::shortest::write_shortest(out, next, size as u32);
    let start = next + length_size(size);
    put_taken(text, out, start);
    start + size
}

// So many items from byte 73 on, as Strings into the output from byte 133 on, of a file of so many bytes.
fn put_strings(xml: &[u8], out: &mut [u8], count: usize, size: usize)
    requires { Fits xml.now count size (length out.old) }
    ensures { StringsPut xml.now out.old out.new }
{
    let mut i = 73;
    let mut to = 133;
    for k in 0..count {
        let at = i + 6;
        let Ok(item) = item_at(xml, at, count - k, size - to) else {
            return;
        };
        let text = Text {
            xml,
            at,
            size: item.size,
            plain: item.next - at == item.size + 7,
        };
        to = put_string(text, out, to);
        i = item.next;
    }
}

// Imports XML: the shortest file with its texts, into the output; answers its length.
pub fn import(xml: &[u8], out: &mut [u8]) -> Result<usize, Refusal>
    ensures value { result ≡ answer_of (import_of xml.now (length out.old)) }
    ensures out_after { out.new ≡ output_of (import_of xml.now (length out.old)) out.old }
{
    let texts = match measure(xml) {
        Ok(texts) => texts,
        Err(place) => return Err(Rule::NotExported.at(place)),
    };
    if 65535 < texts.count {
        return Err(Rule::TooLarge.at(0));
    }
    if 16777216 < texts.size {
        return Err(Rule::TooLarge.at(0));
    }
    if out.len() < texts.size {
        return Err(Rule::OutputTooSmall.at(texts.size));
    }
    put_front(out, texts.size, texts.count);
    put_strings(xml, out, texts.count, texts.size);
    Ok(texts.size)
}
