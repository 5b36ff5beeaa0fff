// The layer, where it stands, and the layer that has no positions.
ghost use Rattle.std.specs.Prelude.{◌≡◌};

use super::copied::Copied;
use super::moves::Moves;

#[derive(Drop)]
pub(crate) struct Layer {
    pub(crate) below: Copied,
    pub(crate) moves: Moves,
    ghost same: { moves.shape.top ≡ below.top },
}

// The registers over an arena; `None` where it is too large for them, or their number is not from 1 to 5.
#[derive(Drop)]
pub struct Registers {
    pub(crate) layer: Option<Layer>,
}
