// What a table answers, as an arena and as one with names. Its top is always 7.
ghost use Rattle.std.specs.Prelude.{◌≡◌, ◌<◌, ◌≤◌, [], length, MatchOption, slice_index_or};
ghost use Rattle.table.specs.Tables.{sites, table_lawful};
ghost use Rattle.table.specs.Sites.{game_of, names_of, nowhere, site_of};

use super::position::Position;
use super::table::Table;
use arena::{Arena, Name, Named};
use game::{Arc, Player};
use std::alloc::Global;

impl Table {
    // A table with no positions.
    pub fn new(heap: Global) -> Table
        ensures { sites result ≡ [] }
    {
        Table {
            positions: Vec::new(heap),
        }
    }

    fn position(&self, v: usize) -> Option<&Position>
        ensures { MatchOption result (length (sites self.now) ≤ v) (λ p. (v < length (sites self.now)) × (slice_index_or (sites self.now) v nowhere ≡ site_of p.now)) }
    {
        self.positions.get(v)
    }
}

impl Arena for Table {
    ghost game = { λ t. game_of (sites t) };

    ghost lawful = { table_lawful };

    fn size(&self) -> usize {
        self.positions.len()
    }

    fn top(&self) -> u8 {
        7
    }

    fn mover(&self, v: usize) -> Option<Player> {
        self.position(v).map(|position| position.mover)
    }

    fn arc_count(&self, v: usize) -> Option<usize> {
        self.position(v).map(|position| position.arcs.len())
    }

    fn arc(&self, v: usize, i: usize) -> Option<Arc> {
        self.position(v)?.arcs.get(i).copied()
    }
}

impl Named for Table {
    ghost names = { λ t. names_of (sites t) };

    fn name(&self, v: usize) -> Option<Name> {
        self.position(v).map(|position| position.name)
    }
}
