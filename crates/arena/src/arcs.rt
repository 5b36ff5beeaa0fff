// The arcs of a position, one after the other.
ghost use Rattle.std.specs.Prelude.{◌≡◌};
ghost use Rattle.std.specs.Iterator.{YieldsFirst, item_count};
ghost use Rattle.arena.specs.Arcs.{arcs_from};

use super::questions::Arena;
use game::Arc;

// What is left of the arcs of a position: those from `next` on.
#[derive(Drop)]
pub struct Arcs<'a, A> {
    pub arena: &'a A,
    pub position: usize,
    pub next: usize,
}

impl<'a, A: Arena> Arcs<'a, A> {
    // All arcs of position v in order; none where there is no such position.
    pub fn of(arena: &'a A, v: usize) -> Arcs<'a, A>
        ensures { arcs_from (A.game result.arena.now) result.position result.next ≡ arcs_from (A.game arena.now) v 0 }
    {
        Arcs {
            arena,
            position: v,
            next: 0,
        }
    }
}

impl<A: Arena> Iterator for Arcs<'_, A> {
    type Item = Arc;

    ghost next_gives = { YieldsFirst (λ s. arcs_from (A.game s.arena.now) s.position s.next) };

    ghost remaining = { item_count (λ s. arcs_from (A.game s.arena.now) s.position s.next) };

    #[tactic(auto, using(crate::proofs::Left::one_more, crate::proofs::Left::none_left, crate::proofs::Left::few_before))]
    fn next(&mut self) -> Option<Arc> {
        let arc = self.arena.arc(self.position, self.next)?;
        // counted by hand: this is what others go by
        self.next += 1;
        Some(arc)
    }
}
