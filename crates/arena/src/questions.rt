// The questions of an arena. Each reply is the one that its game gives; a question changes nothing.
ghost use Rattle.std.specs.Prelude.{◌≡◌};
ghost use Rattle.game.specs.Game.{Game, Lawful, mover_at, arc_count_at, arc_at};

use game::{Arc, Player};

pub trait Arena {
    // the game that this arena is
    ghost game: { Self → Game };

    // its laws: at most 200,000 positions, top at most 250, 1 to 64 arcs at each position, every target there, no priority above top
    ghost lawful: { (x : Self) → Lawful (game x) };

    fn size(&self) -> usize
        ensures { result ≡ (game self.now).size };

    fn top(&self) -> u8
        ensures { result ≡ (game self.now).top };

    fn mover(&self, v: usize) -> Option<Player>
        ensures { result ≡ mover_at (game self.now) v };

    fn arc_count(&self, v: usize) -> Option<usize>
        ensures { result ≡ arc_count_at (game self.now) v };

    fn arc(&self, v: usize, i: usize) -> Option<Arc>
        ensures { result ≡ arc_at (game self.now) v i };
}

// A borrowed arena is the arena that it points to.
impl<A: Arena> Arena for &A {
    ghost game = { λ s. A.Arena.game s.now };

    ghost lawful = { λ s. A.Arena.lawful s.now };

    fn size(&self) -> usize {
        (**self).size()
    }

    fn top(&self) -> u8 {
        (**self).top()
    }

    fn mover(&self, v: usize) -> Option<Player> {
        (**self).mover(v)
    }

    fn arc_count(&self, v: usize) -> Option<usize> {
        (**self).arc_count(v)
    }

    fn arc(&self, v: usize, i: usize) -> Option<Arc> {
        (**self).arc(v, i)
    }
}
