// Where a plan leaves and where it loses.
ghost use Rattle.std.specs.Prelude.{◌≡◌, ◌%◌, ◌≤◌, ◌==◌};
ghost use Rattle.game.specs.Game.{parity, rival};
ghost use Rattle.plans.specs.Bytes.{plan_of};
ghost use Rattle.plans.specs.Findings.{ClosedWalkAt, LosingWalkAt, lower_of};
ghost use Rattle.plans.specs.Marks.{Found, StepsOut, OnLosingWalk};

use super::moves::Priorities;
use super::plan::FormedPlan;
use arena::Arena;
use game::Player;

// Whether a priority has the parity of the player's rival.
fn wrong(player: Player, priority: u8) -> bool
    ensures { result ≡ (priority % 2 == parity (rival player)) }
{
    priority % 2 != u8::from(player)
}

// The lower of two positions, where there are any.
fn lower(a: Option<usize>, b: Option<usize>) -> Option<usize>
    ensures { result ≡ lower_of a b }
{
    match (a, b) {
        (Some(x), Some(y)) => Some(x.min(y)),
        (None, b) => b,
        (a, None) => a,
    }
}

// That the arena has at most 16 positions is asked by the contracts from here to `judge` and is no field of the plan: a plan is read on an arena of any size.
impl<A: Arena> FormedPlan<'_, A> {
    // The search for it: the lowest position from which a following move ends unclaimed.
    fn first_out(&self) -> Option<usize>
        ensures { let g = A.game self.now.arena.now in Found (StepsOut g (plan_of g.size self.now.bytes.now)) result }
    {
        (0..self.arena.size()).find(|p| self.steps_out(*p))
    }

    // The lowest claimed position from which a following move ends unclaimed.
    pub fn leaves_at(&self) -> Option<usize>
        ensures { let g = A.game self.now.arena.now in Found (StepsOut g (plan_of g.size self.now.bytes.now)) result }
    {
        self.first_out()
    }

    // The lowest position from which a closed walk has this highest priority: one with a move of that priority and none above it.
    fn closed_walk_at(&self, priority: u8) -> Option<usize>
        requires few { (A.game self.now.arena.now).size ≤ 16 }
        ensures { let g = A.game self.now.arena.now in Found (ClosedWalkAt g (plan_of g.size self.now.bytes.now) priority) result }
    {
        let reach = self
            .moves_between(Priorities {
                low: 0,
                high: priority,
            })
            .closed();
        let peaks = self.moves_between(Priorities {
            low: priority,
            high: priority,
        });
        reach.first_closed(&peaks, self.arena.size())
    }

    // The same, where the priority has the wrong parity; by any other no walk loses.
    #[tactic(auto, using(crate::proofs::Choices::loses_by, crate::proofs::Choices::loses_by_none))]
    fn losing_walk_at(&self, priority: u8) -> Option<usize>
        requires few { (A.game self.now.arena.now).size ≤ 16 }
        ensures { let g = A.game self.now.arena.now in Found (LosingWalkAt g (plan_of g.size self.now.bytes.now) priority) result }
    {
        if !wrong(self.player, priority) {
            return None;
        }
        self.closed_walk_at(priority)
    }

    // The search for it: the lowest of the positions that are found for each priority.
    fn lowest_losing(&self) -> Option<usize>
        requires few { (A.game self.now.arena.now).size ≤ 16 }
        ensures { let g = A.game self.now.arena.now in Found (OnLosingWalk g (plan_of g.size self.now.bytes.now)) result }
    {
        (0..=self.arena.top())
            .map(|q| self.losing_walk_at(q))
            .fold(None, |a, b| lower(a, b))
    }

    // The lowest position on a closed walk of following moves whose highest priority has the wrong parity.
    pub fn loses_at(&self) -> Option<usize>
        requires few { (A.game self.now.arena.now).size ≤ 16 }
        ensures { let g = A.game self.now.arena.now in Found (OnLosingWalk g (plan_of g.size self.now.bytes.now)) result }
    {
        self.lowest_losing()
    }
}
