// 44 over a loaded file (02, Req 07): two readers with equal targets, at the name of the later.
#![tactic(auto)]

ghost use Rattle.std.specs.Prelude.{◌≡◌, ◌≤◌, length, get_or};
ghost use Rattle.names.specs.Entries.{enums_of};
ghost use Rattle.target_rules.specs.Doubled.{AmongEarlier, FirstDouble, DoubledReader, DoubledIn};

use number_rules::{behind, entry_at};

// The place of a reader's target in the codes.
fn target_at(targets: &[u16], i: u32) -> usize
    ensures { result ≡ get_or targets.now i 0 }
{
    targets.get(i as usize).copied().unwrap_or(0) as usize
}

// A reader's target is that of an earlier one, the nearest first.
fn among_earlier(file: &[u8], codes: &[u32], targets: &[u16], j: u32) -> bool
    ensures { AmongEarlier file.now codes.now targets.now j result }
{
    let own = target_at(targets, j);
    for i in (0..j).rev() {
        let other = target_at(targets, i);
        if targets::equal(file, codes, other, own) {
            return true;
        }
    }
    false
}

// The name of the first reader whose target is that of an earlier one.
fn first_double(file: &[u8], codes: &[u32], targets: &[u16], count: u32) -> Option<usize>
    ensures { FirstDouble file.now codes.now targets.now count result }
{
    let mut at = behind(file, readers::START);
    for j in 0..count {
        let reader = entry_at(file, at);
        if among_earlier(file, codes, targets, j) {
            return Some(reader.name);
        }
        at = reader.next;
    }
    None
}

// The same of a file that the plain loader accepts, under a list of enum types, where the codes suffice for its readers.
fn doubled_in(file: &[u8], enums: &[u8], codes: &mut [u32]) -> Option<usize>
    ensures { DoubledIn (enums_of enums.now) file.now (length codes.old) result }
{
    let mut targets = [0u16; 64];
    let mut starts = [0u16; 64];
    match readers::read_lists(file, enums, codes, &mut targets, &mut starts) {
        Ok(lists) => first_double(file, codes, &targets, lists.readers),
        Err(_) => None,
    }
}

// The same with so many codes: no more are cleared than the readers need.
fn doubled_with<const CODES: usize>(file: &[u8], enums: &[u8]) -> Option<usize>
    requires { CODES ≤ 6058 }
    ensures { DoubledIn (enums_of enums.now) file.now CODES result }
{
    let mut codes = [0u32; CODES];
    doubled_in(file, enums, &mut codes)
}

// The same of a file that the plain loader accepts, under a list of enum types: 850 codes suffice for 8 readers, and 6058 for 64.
pub fn doubled_reader(file: &[u8], enums: &[u8]) -> Option<usize>
    ensures { DoubledReader (enums_of enums.now) file.now result }
{
    match readers::reader_count(file, readers::START) {
        Err(_) => doubled_with::<850>(file, enums),
        Ok(count) => {
            if count.value <= 8 {
                return doubled_with::<850>(file, enums);
            }
            doubled_with::<6058>(file, enums)
        }
    }
}
