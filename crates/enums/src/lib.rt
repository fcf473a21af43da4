// Lists of enum types that a caller lends: for each a name length byte, the name, a size byte.
#![tactic(auto)]

ghost use Rattle.std.specs.Prelude.{◌≡◌, ◌≤◌};
ghost use Rattle.names.specs.Entries.{is_size};
ghost use Rattle.enums.specs.Judge.{is_enum_type, enums_at};
ghost use Rattle.enums.specs.Contract.{answer_of};
ghost use Rattle.enums.specs.Noted.{AllNoted, is_listed};
ghost use Rattle.names.specs.Entries.{entries_of};
ghost use Rattle.seen_names.specs.Seen.{noted};

use answers::{Refusal, Rule};
use names::bytes::Class;
use seen_names::note;

// A size that an entry may have.
fn is_size(size: u8) -> bool
    ensures { result ≡ is_size size }
{
    names::tables::enum_kind(size) != 0
}

// A name and a size as an entry by itself may have them.
fn is_enum_type(name: &[u8], size: u8) -> bool
    ensures { result ≡ is_enum_type name.now size }
{
    if !is_size(size) {
        return false;
    }
    if name.len() == 0 {
        return false;
    }
    if names::bytes::run(name, Class::Head) != name.len() {
        return false;
    }
    names::tables::kind_of(name, false) == 0
}

// Whether an earlier entry has a name, which is noted then: the entries are looked through only where the table of marks does not rule it out.
fn listed(earlier: &[u8], seen: &mut [u64], name: &[u8]) -> bool
    ensures value { AllNoted seen.old (entries_of earlier.now)
        → result ≡ is_listed (entries_of earlier.now) name.now }
    ensures seen_after { seen.new ≡ noted seen.old name.now }
{
    if note(seen, name) {
        return names::tables::find(earlier, name) != 0;
    }
    false
}

// Judges a list by means of a table of marks, whatever its length and content are. Its refusal is at the number, from 0, of its first entry that is not lawful.
fn judge_by(enums: &[u8], seen: &mut [u64]) -> Result<(), Refusal>
    ensures { result ≡ answer_of (enums_at enums.now) }
{
    let mut entry = 0;
    let mut rest = enums;
    while let Some((count, behind)) = rest.split_first() {
        let count = *count as usize;
        if behind.len() <= count {
            return Err(Rule::EnumEntry.at(entry));
        }
        let name = &behind[..count];
        if !is_enum_type(name, behind[count]) {
            return Err(Rule::EnumEntry.at(entry));
        }
        let earlier = &enums[..enums.len() - rest.len()];
        if listed(earlier, seen, name) {
            return Err(Rule::EnumEntry.at(entry));
        }
        rest = &behind[count + 1..];
        entry += 1;
    }
    Ok(())
}

// How many entries a list has, by the lengths of their names.
fn entries_in(enums: &[u8]) -> usize {
    let mut count = 0;
    let mut rest = enums;
    while let Some((size, behind)) = rest.split_first() {
        let size = *size as usize + 1;
        if behind.len() < size {
            return count;
        }
        rest = &behind[size..];
        count += 1;
    }
    count
}

// Judges a list by a table of so many cells.
fn judge_in<const CELLS: usize>(enums: &[u8]) -> Result<(), Refusal>
    requires { CELLS ≤ 3000 }
    ensures { result ≡ answer_of (enums_at enums.now) }
{
    let mut seen = [0u64; CELLS];
    judge_by(enums, &mut seen)
}

// Judges a list of any length. Few names are compared with each other, and have no table to clear.
pub fn judge(enums: &[u8]) -> Result<(), Refusal>
    ensures { result ≡ answer_of (enums_at enums.now) }
{
    let count = entries_in(enums);
    if count <= 12 {
        return judge_in::<0>(enums);
    }
    if count <= 2048 {
        return judge_in::<512>(enums);
    }
    judge_in::<3000>(enums)
}
