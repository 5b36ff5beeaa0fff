// The least closed heights of an arena, in lent cells.
ghost use Rattle.std.specs.Prelude.{◌≡◌, ℕ, ◌+◌, ◌*◌, ◌<◌, ◌≤◌, length, if◌then◌else◌, nat_lt, slice_set, unwrap_or, IfSome};
ghost use Rattle.heights.specs.Climb.{lost};
ghost use Rattle.heights.specs.Heights.{asked, due};
ghost use Rattle.heights.specs.Sweeps.{height_in, swept_to, raises_to, Swept};
ghost use Rattle.heights.specs.Replies.{better, Reply};

use super::cleared::clear;
use super::scale::Scale;
use arena::{Arcs, Arena};
use game::{Arc, Player};

// Of two heights Even takes the lower one, Odd the higher one.
fn better(mover: Player, x: u32, y: u32) -> u32
    ensures { result ≡ better mover x y }
{
    match mover {
        Player::Even => x.min(y),
        Player::Odd => x.max(y),
    }
}

// Heights on their way up: lent cells, one for each position of the arena, and the scale that they climb by.
#[derive(Drop)]
struct Ascent<'a, A: Arena> {
    cells: &'a mut [u32],
    arena: &'a A,
    scale: Scale,
    ghost low: { (A.game arena.now).top ≤ 2 * scale.r + 1 },
    ghost room: { (A.game arena.now).size ≤ length cells.now },
    ghost bounded: { (v : ℕ) → v < (A.game arena.now).size → height_in cells.now v ≤ lost scale.n scale.r },
}

impl<A: Arena> Ascent<'_, A> {
    // What an arc asks of the position that it leaves.
    fn asked(&self, arc: Arc) -> u32
        requires inside { arc.target < (A.game self.now.arena.now).size }
        requires low { arc.priority ≤ (A.game self.now.arena.now).top }
        ensures { result ≡ asked self.now.scale.n self.now.scale.r (height_in self.now.cells.now) arc }
    {
        self.scale.climb(self.cells[arc.target], arc.priority)
    }

    // The due height of position v.
    fn due(&self, v: usize) -> u32
        requires { v < (A.game self.now.arena.now).size }
        ensures { result ≡ due self.now.scale.n self.now.scale.r (A.game self.now.arena.now) (height_in self.now.cells.now) v }
    {
        let Some(mover) = self.arena.mover(v) else {
            unreachable()
        };
        Arcs::of(self.arena, v).map(|arc| self.asked(arc)).fold(
            self.scale.unasked(mover),
            |best, height| better(mover, best, height),
        )
    }

    // Raises position v to the height wanted if it is low, and says whether it was. (What this and the next calls leave alone is said clause
    // by clause: no field can hold it.)
    fn lift(&mut self, v: usize, wanted: u32) -> bool
        requires there { v < (A.game self.old.arena.now).size }
        requires most { wanted ≤ lost self.old.scale.n self.old.scale.r }
        ensures low { result ≡ nat_lt (height_in self.old.cells.now v) wanted }
        ensures cells { self.new.cells.now ≡ (if nat_lt (height_in self.old.cells.now v) wanted then slice_set self.old.cells.now v wanted else self.old.cells.now) }
        ensures same_cells { self.new.cells.ghost_name ≡ self.old.cells.ghost_name }
        ensures same_arena { self.new.arena ≡ self.old.arena }
        ensures same_scale { self.new.scale ≡ self.old.scale }
    {
        if self.cells[v] >= wanted {
            return false;
        }
        self.cells[v] = wanted;
        true
    }

    // Raises each position that is low to its due height, and counts the raises.
    fn raise_low(&mut self) -> usize
        ensures cells { self.new.cells.now ≡ swept_to self.old.scale.n self.old.scale.r (A.game self.old.arena.now) (A.game self.old.arena.now).size self.old.cells.now }
        ensures raises { result ≡ raises_to self.old.scale.n self.old.scale.r (A.game self.old.arena.now) (A.game self.old.arena.now).size self.old.cells.now }
        ensures same_cells { self.new.cells.ghost_name ≡ self.old.cells.ghost_name }
        ensures same_arena { self.new.arena ≡ self.old.arena }
        ensures same_scale { self.new.scale ≡ self.old.scale }
    {
        // a loop: each raise is seen by the positions after it
        let mut raises = 0;
        for v in 0..self.arena.size() {
            let wanted = self.due(v);
            if self.lift(v, wanted) {
                raises += 1;
            }
        }
        raises
    }

    // One sweep: how many raises it took, if any.
    fn sweep(&mut self) -> Option<usize>
        ensures cells { self.new.cells.now ≡ swept_to self.old.scale.n self.old.scale.r (A.game self.old.arena.now) (A.game self.old.arena.now).size self.old.cells.now }
        ensures raises { unwrap_or result 0 ≡ raises_to self.old.scale.n self.old.scale.r (A.game self.old.arena.now) (A.game self.old.arena.now).size self.old.cells.now }
        ensures some { IfSome result (λ raises. 1 ≤ raises) }
        ensures same_cells { self.new.cells.ghost_name ≡ self.old.cells.ghost_name }
        ensures same_arena { self.new.arena ≡ self.old.arena }
        ensures same_scale { self.new.scale ≡ self.old.scale }
    {
        let raises = self.raise_low();
        if raises > 0 { Some(raises) } else { None }
    }

    // Sweeps until a sweep raises nothing, and counts the raises.
    fn settle(&mut self) -> usize
        ensures swept { Swept self.old.scale.n self.old.scale.r (A.game self.old.arena.now) self.old.cells.now self.new.cells.now result }
        ensures same_cells { self.new.cells.ghost_name ≡ self.old.cells.ghost_name }
    {
        // a loop: each sweep works on what the last one left
        let mut total = 0;
        while let Some(raises) = self.sweep() {
            total += raises;
        }
        total
    }
}

// The least closed heights of the arena, for base n and r registers, in its first cells; the reply is the number of raises.
pub fn least_heights<A: Arena>(arena: &A, n: usize, r: usize, cells: &mut [u32]) -> Option<usize>
    ensures { Reply n r (A.game arena.now) cells.old cells.new result }
{
    if n == 0 || n > 16 || r == 0 || r > 5 {
        return None;
    }
    let size = arena.size();
    if usize::from(arena.top()) > 2 * r + 1 || cells.len() < size {
        return None;
    }
    clear(cells, size);
    let mut ascent = Ascent {
        cells,
        arena,
        scale: Scale::new(n, r),
    };
    Some(ascent.settle())
}
