// Judging a plan.
ghost use Rattle.std.specs.Prelude.{◌≡◌, ◌≤◌, ◌↔◌, Some, Ok, MatchResult};
ghost use Rattle.plans.specs.declared.mark.Mark.TheVariants.{Passes};
ghost use Rattle.plans.specs.Bytes.{plan_of};
ghost use Rattle.plans.specs.Judging.{FormedAndMarked, Judges, WinningBytes};
ghost use Rattle.plans.specs.Marks.{Marks};
ghost use Rattle.plans.specs.Refusals.{Refuses};

use super::fault::PlanFault;
use super::mark::Mark;
use super::plan::FormedPlan;
use arena::Arena;

impl<A: Arena> FormedPlan<'_, A> {
    // Its mark. Where the plan both leaves and loses, it leaves.
    pub(crate) fn mark(&self) -> Mark
        requires few { (A.game self.now.arena.now).size ≤ 16 }
        ensures { let g = A.game self.now.arena.now in Marks g (plan_of g.size self.now.bytes.now) result }
    {
        match (self.leaves_at(), self.loses_at()) {
            (None, None) => Mark::Passes,
            (Some(p), _) => Mark::Leaves(p),
            (None, Some(p)) => Mark::Loses(p),
        }
    }
}

// The mark of the plan that the bytes are, or why they are none.
fn judged<A: Arena>(arena: &A, bytes: &[u8]) -> Result<Mark, PlanFault>
    requires few { (A.game arena.now).size ≤ 16 }
    ensures { MatchResult result (FormedAndMarked (A.game arena.now) bytes.now) (Refuses (A.game arena.now) bytes.now) }
{
    let plan = FormedPlan::read(arena, bytes)?;
    Ok(plan.mark())
}

// Judges the bytes on an arena of at most 16 positions; nothing is said of them on any other. A plan passes exactly when it wins.
pub fn judge<A: Arena>(arena: &A, bytes: &[u8]) -> Option<Result<Mark, PlanFault>>
    ensures answers { Judges (A.game arena.now) bytes.now result }
    ensures passes { (result ≡ Some (Ok Passes)) ↔ WinningBytes (A.game arena.now) bytes.now }
{
    if arena.size() > 16 {
        return None;
    }
    Some(judged(arena, bytes))
}
