// Who wins a position, as far as a solve has told: `None` where the position is open.
ghost use Rattle.std.specs.Prelude.{◌≡◌};
ghost use Rattle.case_rules.specs.Numbers.{verdict_number};

use game::Player;

// The number of a verdict.
pub fn verdict_number(verdict: Option<Player>) -> usize
    ensures { result ≡ verdict_number verdict }
{
    match verdict {
        Some(player) => usize::from(u8::from(player)),
        None => 2,
    }
}
