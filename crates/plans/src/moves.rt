// The moves that follow a plan.
ghost use Rattle.std.specs.Prelude.{◌≡◌, ◌<◌, not, ◌&&◌, ◌==◌, nat_le};
ghost use Rattle.plans.specs.Bytes.{plan_of};
ghost use Rattle.plans.specs.Findings.{Tells, TellsSomeMove, MovesBetween, HasMoves};
ghost use Rattle.plans.specs.Marks.{StepsOut};

use super::plan::FormedPlan;
use super::relation::Relation;
use arena::{Arcs, Arena};
use game::Arc;

// The priorities from low to high.
#[derive(Clone, Copy)]
pub(crate) struct Priorities {
    pub(crate) low: u8,
    pub(crate) high: u8,
}

// Whether an arc leads to w with one of the priorities.
fn leads_to(arc: Arc, w: usize, by: Priorities) -> bool
    ensures { result ≡ (arc.target == w && (nat_le by.low arc.priority && nat_le arc.priority by.high)) }
{
    arc.target == w && (by.low..=by.high).contains(&arc.priority)
}

// That a position is there is asked where it is not tested: positions are numbers, as the rules and the formats have them.
impl<A: Arena> FormedPlan<'_, A> {
    // Whether some following move from position v is by an arc that passes the test.
    fn some_move<F: Fn(Arc) -> bool>(&self, v: usize, test: F) -> bool
        requires there { v < (A.game self.now.arena.now).size }
        requires callable { F.IsAlwaysCallable test }
        ensures { let g = A.game self.now.arena.now in TellsSomeMove g (plan_of g.size self.now.bytes.now) v (F.post test) result }
    {
        let choice = self.choice(v);
        Arcs::of(self.arena, v)
            .enumerate()
            .any(|(i, arc)| choice.allows(i) && test(arc))
    }

    // Whether an arc leads to a position that is not claimed.
    fn leads_out(&self, arc: Arc) -> bool
        ensures { result ≡ not ((plan_of (A.game self.now.arena.now).size self.now.bytes.now).claims arc.target) }
    {
        !self.claims(arc.target)
    }

    // Whether a following move from v ends unclaimed.
    pub(crate) fn steps_out(&self, v: usize) -> bool
        requires { v < (A.game self.now.arena.now).size }
        ensures { let g = A.game self.now.arena.now in Tells result (StepsOut g (plan_of g.size self.now.bytes.now) v) }
    {
        self.some_move(v, |arc| self.leads_out(arc))
    }

    // Whether a following move with one of the priorities leads from u to w.
    fn leads(&self, by: Priorities, u: usize, w: usize) -> bool
        ensures { let g = A.game self.now.arena.now in Tells result (MovesBetween g (plan_of g.size self.now.bytes.now) by.low by.high u w) }
    {
        u < self.arena.size() && self.some_move(u, |arc| leads_to(arc, w, by))
    }

    pub(crate) fn moves_between(&self, by: Priorities) -> Relation
        ensures { let g = A.game self.now.arena.now in HasMoves g (plan_of g.size self.now.bytes.now) by.low by.high result }
    {
        Relation::of(|u, w| self.leads(by, u, w))
    }
}
