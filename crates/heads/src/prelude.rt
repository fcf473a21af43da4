// The types that fonts, pages and meshes declare, by their places at the start of the codes; an argument is behind its type.
// Kept: a type is a place in an array of codes and no tree of boxes, as there is no heap (a rule of the project).
pub const TEXTURE_2D: usize = 0;

// A list of Rectangle.
pub const RECTANGLES: usize = 1;

pub const LISTED_RECTANGLE: usize = 2;

// A list of Char.
pub const CHARS: usize = 3;

pub const LISTED_CHAR: usize = 4;

// A list of Vector3.
pub const VECTORS: usize = 5;

pub const LISTED_VECTOR: usize = 6;

pub const STRING: usize = 7;

pub const NULLABLE_CHAR: usize = 8;

pub const WRAPPED_CHAR: usize = 9;

pub const OBJECT: usize = 10;

pub const VERTEX_DECLARATION: usize = 11;
