// The arena below the layer, copied: at most 16 positions, priorities up to 9, and 64 arcs altogether.
ghost use Rattle.std.specs.Prelude.{◌≡◌, ℕ, ◌+◌, ◌<◌, ◌≤◌, length};
ghost use Rattle.registers.specs.Copies.{ArcInside, Spans};

use super::position::Position;
use arrayvec::ArrayVec;
use game::Arc;

// `arcs` are those of all positions, one after the other.
// One list: the rules number the arcs through, and a list for each position would take 16 times the places
#[derive(Drop)]
pub(crate) struct Copied {
    pub(crate) top: u8,
    pub(crate) positions: ArrayVec<Position, 16>,
    pub(crate) arcs: ArrayVec<Arc, 64>,
    ghost few: { length positions.items ≤ 16 },
    ghost low: { top ≤ 9 },
    ghost narrow: { length arcs.items ≤ 64 },
    ghost spans: { Spans positions.items arcs.items },
    ghost inside: { (e : ℕ) → e < length arcs.items → ArcInside (length positions.items) top arcs.items e },
}
