// The table, with the laws of an arena as its invariant.
ghost use Rattle.std.specs.Prelude.{◌≤◌, length};
ghost use Rattle.game.specs.Game.{Lawful};
ghost use Rattle.table.specs.Sites.{game_of, sites_of};

use super::position::Position;

// At most 16 positions; each has 1 to 64 arcs, which lead to positions of the table and have priorities up to 7.
#[derive(Drop)]
pub struct Table {
    pub positions: Vec<Position>,
    ghost few: { length (sites_of positions.items) ≤ 16 },
    ghost lawful: { Lawful (game_of (sites_of positions.items)) },
}
