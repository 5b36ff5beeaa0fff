// A position of the arena below: who moves there, the number of its first arc, and how many arcs it has (all arcs are one list, as the
// rules number them).
use game::Player;

#[derive(Clone, Copy, Drop)]
pub(crate) struct Position {
    pub(crate) mover: Player,
    pub(crate) first: usize,
    pub(crate) count: usize,
}

// What fills the unused places of a list of positions. It is not derived, since no player is a default.
impl Default for Position {
    fn default() -> Position {
        Position {
            mover: Player::Even,
            first: 0,
            count: 0,
        }
    }
}
