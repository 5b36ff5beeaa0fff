// An arena whose positions have names of four bytes.
ghost use Rattle.std.specs.Prelude.{◌≡◌, ℕ};
ghost use Rattle.arena.specs.declared.named.Name.{Name};
ghost use Rattle.arena.specs.Names.{name_at};

use super::questions::Arena;

#[derive(Clone, Copy, PartialEq, Eq, Debug)]
pub struct Name {
    pub bytes: [u8; 4],
}

pub trait Named: Arena {
    // the name of each position
    ghost names: { Self → ℕ → Name };

    fn name(&self, v: usize) -> Option<Name>
        ensures { result ≡ name_at (Self.Arena.game self.now).size (names self.now) v };
}

impl<A: Named> Named for &A {
    ghost names = { λ s. A.Named.names s.now };

    fn name(&self, v: usize) -> Option<Name> {
        (**self).name(v)
    }
}
