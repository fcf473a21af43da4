// Kinds that code names, as 01, "Values and kinds", numbers them, and the first bytes of the codes of heads with arguments.
// Kept: kinds are numbers and no enum, as a row's word holds one for C (C interface), and a code one with 64 for each argument.
pub const NULL: u32 = 0;

pub const BYTE: u32 = 1;

pub const SBYTE: u32 = 2;

pub const INT_16: u32 = 3;

pub const UINT_16: u32 = 4;

pub const INT_32: u32 = 5;

pub const UINT_32: u32 = 6;

pub const INT_64: u32 = 7;

pub const UINT_64: u32 = 8;

pub const SINGLE: u32 = 9;

pub const DOUBLE: u32 = 10;

pub const BOOLEAN: u32 = 11;

pub const CHAR: u32 = 12;

pub const STRING: u32 = 13;

pub const OBJECT: u32 = 14;

pub const ENUM_KIND: u32 = 15;

pub const NULLABLE_KIND: u32 = 16;

pub const ARRAY_KIND: u32 = 17;

pub const LIST_KIND: u32 = 18;

pub const DICTIONARY_KIND: u32 = 19;

pub const TIME_SPAN: u32 = 20;

pub const DATE_TIME: u32 = 21;

pub const DECIMAL: u32 = 22;

pub const VECTOR_2: u32 = 23;

pub const VECTOR_3: u32 = 24;

pub const VECTOR_4: u32 = 25;

pub const MATRIX: u32 = 26;

pub const QUATERNION: u32 = 27;

pub const COLOR: u32 = 28;

pub const POINT: u32 = 29;

pub const RECTANGLE: u32 = 30;

pub const TEXTURE: u32 = 31;

pub const TEXTURE_2D: u32 = 32;

pub const SPRITE_FONT: u32 = 33;

pub const PAGE: u32 = 34;

pub const IMAGE_LEVEL: u32 = 35;

pub const SHARED_REFERENCE: u32 = 36;

pub const INDEX_BUFFER: u32 = 37;

pub const VERTEX_DECLARATION: u32 = 38;

pub const VERTEX_BUFFER: u32 = 39;

pub const MODEL: u32 = 40;

pub const DATA_BYTES: u32 = 41;

pub const BONE_REFERENCE: u32 = 42;

// In codes an enum type has a kind by its size in bytes.
pub const ENUM_OF_1: u32 = 60;

pub const ENUM_OF_2: u32 = 61;

pub const ENUM_OF_4: u32 = 62;

pub const ENUM_OF_8: u32 = 63;

// A kind, and 64 times its number of arguments.
pub const ENUM_READER: u32 = 79;

pub const NULLABLE: u32 = 80;

pub const ARRAY: u32 = 81;

pub const LIST: u32 = 82;

pub const DICTIONARY: u32 = 147;
