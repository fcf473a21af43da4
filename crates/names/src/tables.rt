// Which kinds heads name: lists of entries, the tables of heads, and the kind of a head.
ghost use Rattle.std.specs.Prelude.{◌≡◌};
ghost use Rattle.layout.specs.Kind.{lookup, readers, targets};
ghost use Rattle.layout.specs.EnumList.{size_in};
ghost use Rattle.names.specs.Kind.{listed, enum_kind, kind_in};
ghost use Rattle.names.specs.Entries.{entries_of, enums_of};

use crate::kinds::{ENUM_OF_1, ENUM_OF_2, ENUM_OF_4, ENUM_OF_8};
use crate::texts;

// What a list of entries has for a head: a name length byte, a name and a byte for each; 0 if no whole entry has this name.
// Kept: 0 and not an option, here and for kinds below, since what may not change, `size_in` and `lookup` of
// layout/ and `kind_in` of specs/Kind.antt, has 0 there.
pub fn find(entries: &[u8], head: &[u8]) -> u8
    ensures { result ≡ size_in (entries_of entries.now) head.now }
{
    let mut rest = entries;
    while let Some((size, behind)) = rest.split_first() {
        let size = *size as usize;
        if behind.len() <= size {
            return 0;
        }
        let name = &behind[..size];
        if texts::same_text(head, name) {
            return behind[size];
        }
        rest = &behind[size + 1..];
    }
    0
}

// The tables of layout/Kind as bytes, in the form of a lent list: for each entry the head's length, the head and the kind.
// They stand in parts by the heads' lengths, since code makes a table anew at each use. The proofs of `reader_kind` and `target_kind` compare them.
const TARGETS_TO_12: [u8; 82] = *b"\
        \x0bSystem.Byte\x01\
        \x0cSystem.SByte\x02\
        \x0cSystem.Int16\x03\
        \x0cSystem.Int32\x05\
        \x0cSystem.Int64\x07\
        \x0bSystem.Char\x0c";

const TARGETS_OF_13_TO_15: [u8; 188] = *b"\
        \x0dSystem.UInt16\x04\
        \x0dSystem.UInt32\x06\
        \x0dSystem.UInt64\x08\
        \x0dSystem.Single\x09\
        \x0dSystem.Double\x0a\
        \x0eSystem.Boolean\x0b\
        \x0dSystem.String\x0d\
        \x0dSystem.Object\x0e\
        \x0fSystem.Nullable\x10\
        \x0fSystem.TimeSpan\x14\
        \x0fSystem.DateTime\x15\
        \x0eSystem.Decimal\x16";

const TARGETS_OF_16_TO_32: [u8; 246] = *b"\
        \x1fSystem.Collections.Generic.List\x12\
        \x1fMicrosoft.Xna.Framework.Vector2\x17\
        \x1fMicrosoft.Xna.Framework.Vector3\x18\
        \x1fMicrosoft.Xna.Framework.Vector4\x19\
        \x1eMicrosoft.Xna.Framework.Matrix\x1a\
        \x1dMicrosoft.Xna.Framework.Color\x1c\
        \x1dMicrosoft.Xna.Framework.Point\x1d\
        \x12Coach.Console.Page\x22";

const TARGETS_FROM_33: [u8; 426] = *b"\
        \x25System.Collections.Generic.Dictionary\x13\
        \x22Microsoft.Xna.Framework.Quaternion\x1b\
        \x21Microsoft.Xna.Framework.Rectangle\x1e\
        \x28Microsoft.Xna.Framework.Graphics.Texture\x1f\
        \x2aMicrosoft.Xna.Framework.Graphics.Texture2D\x20\
        \x2bMicrosoft.Xna.Framework.Graphics.SpriteFont\x21\
        \x2cMicrosoft.Xna.Framework.Graphics.IndexBuffer\x25\
        \x32Microsoft.Xna.Framework.Graphics.VertexDeclaration\x26\
        \x2dMicrosoft.Xna.Framework.Graphics.VertexBuffer\x27\
        \x26Microsoft.Xna.Framework.Graphics.Model\x28";

const READERS_TO_43: [u8; 562] = *b"\
        \x2aMicrosoft.Xna.Framework.Content.ByteReader\x01\
        \x2bMicrosoft.Xna.Framework.Content.SByteReader\x02\
        \x2bMicrosoft.Xna.Framework.Content.Int16Reader\x03\
        \x2bMicrosoft.Xna.Framework.Content.Int32Reader\x05\
        \x2bMicrosoft.Xna.Framework.Content.Int64Reader\x07\
        \x2aMicrosoft.Xna.Framework.Content.CharReader\x0c\
        \x2aMicrosoft.Xna.Framework.Content.EnumReader\x0f\
        \x2bMicrosoft.Xna.Framework.Content.ArrayReader\x11\
        \x2aMicrosoft.Xna.Framework.Content.ListReader\x12\
        \x2bMicrosoft.Xna.Framework.Content.ColorReader\x1c\
        \x2bMicrosoft.Xna.Framework.Content.PointReader\x1d\
        \x18Coach.Console.PageReader\x22\
        \x2bMicrosoft.Xna.Framework.Content.ModelReader\x28";

const READERS_OF_44: [u8; 368] = *b"\
        \x2cMicrosoft.Xna.Framework.Content.UInt16Reader\x04\
        \x2cMicrosoft.Xna.Framework.Content.UInt32Reader\x06\
        \x2cMicrosoft.Xna.Framework.Content.UInt64Reader\x08\
        \x2cMicrosoft.Xna.Framework.Content.SingleReader\x09\
        \x2cMicrosoft.Xna.Framework.Content.DoubleReader\x0a\
        \x2cMicrosoft.Xna.Framework.Content.StringReader\x0d\
        \x2cMicrosoft.Xna.Framework.Content.ObjectReader\x0e\
        \x2cMicrosoft.Xna.Framework.Content.MatrixReader\x1a";

const READERS_OF_45_AND_46: [u8; 426] = *b"\
        \x2dMicrosoft.Xna.Framework.Content.BooleanReader\x0b\
        \x2eMicrosoft.Xna.Framework.Content.NullableReader\x10\
        \x2eMicrosoft.Xna.Framework.Content.TimeSpanReader\x14\
        \x2eMicrosoft.Xna.Framework.Content.DateTimeReader\x15\
        \x2dMicrosoft.Xna.Framework.Content.DecimalReader\x16\
        \x2dMicrosoft.Xna.Framework.Content.Vector2Reader\x17\
        \x2dMicrosoft.Xna.Framework.Content.Vector3Reader\x18\
        \x2dMicrosoft.Xna.Framework.Content.Vector4Reader\x19\
        \x2dMicrosoft.Xna.Framework.Content.TextureReader\x1f";

const READERS_FROM_47: [u8; 408] = *b"\
        \x30Microsoft.Xna.Framework.Content.DictionaryReader\x13\
        \x30Microsoft.Xna.Framework.Content.QuaternionReader\x1b\
        \x2fMicrosoft.Xna.Framework.Content.RectangleReader\x1e\
        \x2fMicrosoft.Xna.Framework.Content.Texture2DReader\x20\
        \x30Microsoft.Xna.Framework.Content.SpriteFontReader\x21\
        \x31Microsoft.Xna.Framework.Content.IndexBufferReader\x25\
        \x37Microsoft.Xna.Framework.Content.VertexDeclarationReader\x26\
        \x32Microsoft.Xna.Framework.Content.VertexBufferReader\x27";

// The kind that a reader's own head names; 0 if it is not listed.
fn reader_kind(head: &[u8]) -> u8
    ensures { result ≡ lookup head.now readers }
{
    match head.len() {
        0..=43 => find(&READERS_TO_43, head),
        44 => find(&READERS_OF_44, head),
        45..=46 => find(&READERS_OF_45_AND_46, head),
        _ => find(&READERS_FROM_47, head),
    }
}

// The kind that an argument's head names; 0 if it is not listed.
fn target_kind(head: &[u8]) -> u8
    ensures { result ≡ lookup head.now targets }
{
    match head.len() {
        0..=12 => find(&TARGETS_TO_12, head),
        13..=15 => find(&TARGETS_OF_13_TO_15, head),
        16..=32 => find(&TARGETS_OF_16_TO_32, head),
        _ => find(&TARGETS_FROM_33, head),
    }
}

// The kind that a head names, the reader's own or an argument's; 0 if it is not listed.
pub fn kind_of(head: &[u8], own: bool) -> u8
    ensures { result ≡ lookup head.now (listed own) }
{
    if own {
        return reader_kind(head);
    }
    target_kind(head)
}

// The kind of an enum type's code by its size, 0 for every other number.
pub fn enum_kind(size: u8) -> u32
    ensures { result ≡ enum_kind size }
{
    match size {
        1 => ENUM_OF_1,
        2 => ENUM_OF_2,
        4 => ENUM_OF_4,
        8 => ENUM_OF_8,
        _ => 0,
    }
}

// The kind of a head with n arguments, under a lent list of enum types.
pub(crate) fn kind_in(head: &[u8], own: bool, n: u32, enums: &[u8]) -> u32
    ensures { result ≡ kind_in (enums_of enums.now) own head.now n }
{
    let kind = kind_of(head, own) as u32;
    if own {
        return kind;
    }
    if kind != 0 {
        return kind;
    }
    if n != 0 {
        return 0;
    }
    enum_kind(find(enums, head))
}
