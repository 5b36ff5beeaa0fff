// What moves do to one row.

// A step that changes no position below: the number of the row that it leads to, and its priority.
#[derive(Clone, Copy, Drop)]
pub(crate) struct Step {
    pub(crate) row: u16,
    pub(crate) priority: u8,
}

// `updates` has the number of the row after the update by each priority, and `steps` the steps from it: none of the registers reset,
// or one.
#[derive(Clone, Copy, Default, Drop)]
pub(crate) struct RowMoves {
    pub(crate) updates: [u16; 10],
    pub(crate) steps: [Option<Step>; 6],
}
