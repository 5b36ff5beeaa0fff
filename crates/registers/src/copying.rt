// Copying an arena, and reading the copy.
ghost use Rattle.std.specs.Prelude.{◌≡◌, ◌<◌, length};
ghost use Rattle.registers.specs.Copies.{arc_number, position_in};
ghost use Rattle.registers.specs.Views.{Taken};

use super::copied::Copied;
use super::position::Position;
use arena::{Arcs, Arena};
use arrayvec::ArrayVec;
use game::Player;

impl Copied {
    // A copy of the arena, where it fits.
    pub(crate) fn of<A: Arena>(arena: &A) -> Option<Copied>
        ensures { Taken (A.game arena.now) result }
    {
        let size = arena.size();
        let top = arena.top();
        if size > 16 || top > 9 {
            return None;
        }
        let mut positions = ArrayVec::new();
        let mut arcs = ArrayVec::new();
        // a loop: each position's arcs go behind those before it
        for v in 0..size {
            let mover = arena.mover(v).unwrap();
            let first = arcs.len();
            arcs.extend(Arcs::of(arena, v)).ok()?;
            positions.push(Position {
                mover,
                first,
                count: arcs.len() - first,
            });
        }
        Some(Copied {
            top,
            positions,
            arcs,
        })
    }

    // Who moves at a place of the layer: at a position as below, and Even behind the positions, at the arcs.
    pub(crate) fn mover(&self, place: usize) -> Player
        ensures { result ≡ (position_in self.now.positions.items self.now.arcs.items place).mover }
    {
        match self.positions.get(place) {
            Some(position) => position.mover,
            None => Player::Even,
        }
    }

    // The number of arc i of position v.
    #[tactic(auto, using(crate::proofs::Reading::arcs_end))]
    pub(crate) fn number(&self, v: usize, i: usize) -> Option<usize>
        requires { v < length self.now.positions.items }
        ensures { result ≡ arc_number self.now.positions.items self.now.arcs.items v i }
    {
        let position = &self.positions[v];
        (i < position.count).then(|| position.first + i)
    }
}
