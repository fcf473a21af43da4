// The text of a row as a part of the file.
ghost use Rattle.std.specs.Prelude.{◌≡◌, take, drop};
ghost use Rattle.reading.specs.Seven.{seven_at};
ghost use Rattle.key_order.specs.RowText.{text_from};
ghost use Rattle.profile.specs.Stand.{counted_text};

use number_rules::behind;
use numbers::seven::seven_at;

// So many bytes of the file from a place on, or as many as there are.
fn bytes_from(file: &[u8], start: usize, n: usize) -> &[u8]
    ensures { result.now ≡ take n (drop start file.now) }
{
    if file.len() <= start {
        return &[];
    }
    let left = file.len() - start;
    if left <= n {
        return &file[start..];
    }
    &file[start..start + n]
}

// The bytes behind a count at a place, as many as it says.
fn counted(file: &[u8], at: usize) -> &[u8]
    ensures { result.now ≡ counted_text file.now (seven_at file.now at) at }
{
    match seven_at(file, at) {
        Err(_) => bytes_from(file, at, 0),
        Ok(count) => bytes_from(file, count.next, count.value as usize),
    }
}

// The text of a row of kind 13 by its first byte and its detail.
pub fn row_text(file: &[u8], first: usize, detail: u32) -> &[u8]
    ensures { result.now ≡ text_from file.now first detail }
{
    if detail == 0 {
        return counted(file, first);
    }
    counted(file, behind(file, first))
}
