// Hold: positions below 16 may be restricted to one of their arcs.
ghost use Rattle.std.specs.Prelude.{◌≡◌, replicate, if◌then◌else◌, Some, None, is_ok, nat_lt, slice_set};
ghost use Rattle.game.specs.Layers.{held, entry_at};
ghost use Rattle.game.proofs.Layers.{held_lawful};
ghost use Rattle.arena.specs.Entries.{left_of};

use super::named::{Name, Named};
use super::questions::Arena;
use game::{Arc, Player};

// The position is not below 16, so it has no entry.
#[derive(Clone, Copy, PartialEq, Eq, Debug)]
pub struct NoEntry;

// The entry of a position is free (`None`) or numbers an arc. A position whose entry numbers one of its arcs has only that arc,
// as arc 0; an entry that numbers none of them changes nothing.
#[derive(Drop)]
pub struct Hold<A> {
    pub below: A,
    pub entries: [Option<usize>; 16],
}

impl<A> Hold<A> {
    // All entries free.
    pub fn over(below: A) -> Hold<A>
        ensures below { result.below ≡ below }
        ensures entries { result.entries ≡ replicate 16 None }
    {
        Hold {
            below,
            entries: [None; 16],
        }
    }

    // Sets the entry of a position. One that has no entry is refused, and nothing changed. (The three clauses of this call and the next are
    // those of `enter`: a reader finds them at the call.)
    pub fn set(&mut self, v: usize, i: usize) -> Result<(), NoEntry>
        ensures done { is_ok result ≡ nat_lt v 16 }
        ensures below { self.new.below ≡ self.old.below }
        ensures entries { self.new.entries ≡ (if nat_lt v 16 then slice_set self.old.entries v (Some i) else self.old.entries) }
    {
        self.enter(v, Some(i))
    }

    // Frees the entry of a position, or refuses it as `set` does.
    pub fn clear(&mut self, v: usize) -> Result<(), NoEntry>
        ensures done { is_ok result ≡ nat_lt v 16 }
        ensures below { self.new.below ≡ self.old.below }
        ensures entries { self.new.entries ≡ (if nat_lt v 16 then slice_set self.old.entries v None else self.old.entries) }
    {
        self.enter(v, None)
    }

    // Writes the entry of a position, set or free.
    fn enter(&mut self, v: usize, entry: Option<usize>) -> Result<(), NoEntry>
        ensures done { is_ok result ≡ nat_lt v 16 }
        ensures below { self.new.below ≡ self.old.below }
        ensures entries { self.new.entries ≡ (if nat_lt v 16 then slice_set self.old.entries v entry else self.old.entries) }
    {
        if v >= self.entries.len() {
            return Err(NoEntry);
        }
        self.entries[v] = entry;
        Ok(())
    }

    fn entry(&self, v: usize) -> Option<usize>
        ensures { result ≡ entry_at self.now.entries v }
    {
        self.entries.get(v).copied().flatten()
    }
}

// How many of a position's arcs its entry leaves.
fn left_of(entry: Option<usize>, count: usize) -> usize
    ensures { result ≡ left_of entry count }
{
    match entry {
        Some(i) if i < count => 1,
        _ => count,
    }
}

impl<A: Arena> Arena for Hold<A> {
    ghost game = { λ s. held s.entries (A.Arena.game s.below) };

    ghost lawful = { λ s. held_lawful s.entries (A.Arena.game s.below) (A.Arena.lawful s.below) };

    fn size(&self) -> usize {
        self.below.size()
    }

    fn top(&self) -> u8 {
        self.below.top()
    }

    fn mover(&self, v: usize) -> Option<Player> {
        self.below.mover(v)
    }

    fn arc_count(&self, v: usize) -> Option<usize> {
        let count = self.below.arc_count(v)?;
        Some(left_of(self.entry(v), count))
    }

    fn arc(&self, v: usize, i: usize) -> Option<Arc> {
        let Some(held) = self.entry(v) else {
            return self.below.arc(v, i);
        };
        match self.below.arc(v, held) {
            Some(arc) if i == 0 => Some(arc),
            Some(_) => None,
            None => self.below.arc(v, i),
        }
    }
}

impl<A: Named> Named for Hold<A> {
    ghost names = { λ s. A.Named.names s.below };

    fn name(&self, v: usize) -> Option<Name> {
        self.below.name(v)
    }
}
