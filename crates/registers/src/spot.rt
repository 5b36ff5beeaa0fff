// Where a position of the layer stands: at position v below, or at arc e below, each with the number of a row.
#[derive(Clone, Copy, Drop)]
pub(crate) enum Spot {
    AtPosition { v: usize, row: usize },
    AtArc { e: usize, row: usize },
}
