// Why bytes are refused as a plan.
ghost use Rattle.std.specs.Prelude.{◌≡◌};
ghost use Rattle.plans.specs.declared.fault.PlanFault.TheVariants.{Owner};
ghost use Rattle.plans.specs.Refusals.{number_of, place_of};

use game::NoPlayer;
use text::Fault;

// Each fault has a number, and a place: 0 or a position.
#[derive(Clone, Copy, PartialEq, Eq, Debug)]
pub enum PlanFault {
    // not two bytes more than there are positions
    Length,
    // byte 0 is no player
    Owner,
    // byte 1 is not the number of positions
    Size,
    // the byte of a position that does not fit, the lowest such position
    Choice(usize),
}

// by hand: clauses name the fault that `?` makes
impl From<NoPlayer> for PlanFault {
    ghost from_gives = { λ _ fault. fault ≡ Owner };

    fn from(_: NoPlayer) -> PlanFault {
        PlanFault::Owner
    }
}

impl Fault for PlanFault {
    ghost number_of = { number_of };

    ghost place_of = { place_of };

    fn number(&self) -> usize {
        match *self {
            PlanFault::Length => 20,
            PlanFault::Owner => 21,
            PlanFault::Size => 22,
            PlanFault::Choice(_) => 23,
        }
    }

    fn place(&self) -> usize {
        match *self {
            PlanFault::Length | PlanFault::Owner | PlanFault::Size => 0,
            PlanFault::Choice(v) => v,
        }
    }
}
