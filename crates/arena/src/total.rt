// How many arcs an arena has.
ghost use Rattle.std.specs.Prelude.{◌≡◌};
ghost use Rattle.arena.specs.Totals.{arcs_at, arcs_in};

use super::questions::Arena;

// The arcs of all positions together.
pub fn arc_total<A: Arena>(arena: &A) -> usize
    ensures { result ≡ arcs_in (A.game arena.now) }
{
    (0..arena.size()).map(|v| count_at(arena, v)).sum()
}

// The arcs of a position; none where there is no such position.
fn count_at<A: Arena>(arena: &A, v: usize) -> usize
    ensures { result ≡ arcs_at (A.game arena.now) v }
{
    arena.arc_count(v).unwrap_or(0)
}
