// 01, "Texture2D": how many levels an image may have, and the size of each.
#![tactic(auto)]

ghost use Rattle.std.specs.Prelude.{◌≡◌, ◌+◌, ◌/◌, ◌^◌, ◌<◌, ◌≤◌, max, get_or};
ghost use Rattle.layout.specs.Image.{pixel_bytes, block_bytes, level_bytes, digits};
ghost use Rattle.images.specs.Level.{level_size_of};

use widen::wide;

// 01: bytes per pixel by surface format, and 0 for the formats in blocks.
const PIXEL_BYTES: [u8; 19] = [4, 2, 2, 2, 0, 0, 0, 2, 4, 4, 4, 8, 1, 4, 8, 16, 2, 4, 8];

pub fn pixel_bytes(format: u32) -> u64
    ensures { result ≡ get_or pixel_bytes format 0 }
{
    match PIXEL_BYTES.get(format as usize) {
        Some(bytes) => wide(*bytes),
        None => 0,
    }
}

// The surface formats in blocks.
const DXT1: u32 = 4;

const DXT3: u32 = 5;

const DXT5: u32 = 6;

// Bytes per block of 4 by 4 pixels, and 0 for the formats in pixels.
pub fn block_bytes(format: u32) -> u64
    ensures { result ≡ get_or block_bytes format 0 }
{
    // Kept: two arms for 16, as one with an or-pattern left goals with no name.
    match format {
        DXT1 => 8,
        DXT3 => 16,
        DXT5 => 16,
        _ => 0,
    }
}

// The number of binary digits of the larger side.
pub fn longest_chain(width: u32, height: u32) -> u32
    ensures { result ≡ digits 32 (max width height) }
{
    32 - width.max(height).leading_zeros()
}

// A side halved `level` times, rounded down, at least 1.
fn halved(side: u32, level: u32) -> u64
    requires { level < 32 }
    ensures { result ≡ max 1 (side / 2 ^ level) }
{
    u64::from((side >> level).max(1))
}

// How many blocks a side takes, rounded up.
fn in_blocks(side: u64) -> u64
    requires { side ≤ 4096 }
    ensures { result ≡ (side + 3) / 4 }
{
    (side + 3) / 4
}

// The bytes of a level of these sides.
fn level_bytes(format: u32, w: u64, h: u64) -> u64
    requires { (w ≤ 4096) × (h ≤ 4096) }
    ensures { result ≡ level_bytes format w h }
{
    let pixels = w * h;
    let blocks = in_blocks(w) * in_blocks(h);
    pixel_bytes(format) * pixels + block_bytes(format) * blocks
}

// The size of level `level` of an image, or 0 where the format, a side or the level is out of its bounds.
pub fn level_size(format: u32, width: u32, height: u32, level: u32) -> u64
    ensures { result ≡ level_size_of format width height level }
{
    if 18 < format {
        return 0;
    }
    if width < 1 {
        return 0;
    }
    if 4096 < width {
        return 0;
    }
    if height < 1 {
        return 0;
    }
    if 4096 < height {
        return 0;
    }
    if 12 < level {
        return 0;
    }
    level_bytes(format, halved(width, level), halved(height, level))
}
