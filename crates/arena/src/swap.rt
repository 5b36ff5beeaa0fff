// Swap: the movers exchanged, and each priority and top one higher, so that what was Odd's to win is Even's.
ghost use Rattle.std.specs.Prelude.{◌≡◌, ◌<◌, ◌≤◌, MatchOption};
ghost use Rattle.game.specs.Layers.{raised, swapped};
ghost use Rattle.game.proofs.Layers.{swapped_lawful};

use super::named::{Name, Named};
use super::questions::Arena;
use game::{Arc, Player};

#[derive(Drop)]
pub struct Swap<A> {
    pub below: A,
}

impl<A: Arena> Swap<A> {
    // The arena below, where the layer stands. Over an arena with top 250 a raised priority would break the laws, so the layer has no
    // positions there.
    fn standing(&self) -> Option<&A>
        ensures { MatchOption result (250 ≤ (A.game self.now.below).top) (λ a. ((A.game self.now.below).top < 250) × (a.now ≡ self.now.below)) }
    {
        if self.below.top() < 250 {
            Some(&self.below)
        } else {
            None
        }
    }
}

fn raised(arc: Arc) -> Arc
    requires { arc.priority < 250 }
    ensures { result ≡ raised arc }
{
    Arc {
        priority: arc.priority + 1,
        ..arc
    }
}

impl<A: Arena> Arena for Swap<A> {
    ghost game = { λ s. swapped (A.Arena.game s.below) };

    ghost lawful = { λ s. swapped_lawful (A.Arena.game s.below) (A.Arena.lawful s.below) };

    fn size(&self) -> usize {
        self.standing().map_or(0, |below| below.size())
    }

    fn top(&self) -> u8 {
        self.standing().map_or(0, |below| below.top() + 1)
    }

    fn mover(&self, v: usize) -> Option<Player> {
        let mover = self.standing()?.mover(v)?;
        Some(mover.rival())
    }

    fn arc_count(&self, v: usize) -> Option<usize> {
        self.standing()?.arc_count(v)
    }

    fn arc(&self, v: usize, i: usize) -> Option<Arc> {
        let arc = self.standing()?.arc(v, i)?;
        Some(raised(arc))
    }
}

impl<A: Named> Named for Swap<A> {
    ghost names = { λ s. A.Named.names s.below };

    fn name(&self, v: usize) -> Option<Name> {
        self.standing()?.name(v)
    }
}
