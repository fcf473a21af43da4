// Whether a value may have a row.
ghost use Rattle.std.specs.Prelude.{◌≡◌};
ghost use Rattle.walked.specs.Room.{room_as};

use answers::{Refusal, Rule};

// 18 where no depth is left, then 19 where no row is.
pub fn room_for(depth: u32, room: u32, used: u32, at: usize) -> Result<(), Refusal>
    ensures { result ≡ room_as depth room used at }
{
    if depth == 0 {
        return Err(Rule::TooDeep.at(at));
    }
    if room <= used {
        return Err(Rule::NoRowLeft.at(at));
    }
    Ok(())
}
