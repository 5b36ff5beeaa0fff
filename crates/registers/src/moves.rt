// What moves do to the numbers of rows.
ghost use Rattle.std.specs.Prelude.{◌≡◌, ℕ, ◌≤◌, length, Some, slice_get};
ghost use Rattle.rows.specs.Rows.{rows};
ghost use Rattle.registers.specs.declared.row_moves.RowMoves.{RowMoves};
ghost use Rattle.registers.specs.Tables.{MovesOf};

use super::row_moves::RowMoves;
use arrayvec::ArrayVec;
use rows::Shape;

// `by_row` has the moves of each row, by its number; with contents up to 9 there are at most 2002 rows. The list is held by value,
// about 112 KB.
#[derive(Drop)]
pub(crate) struct Moves {
    pub(crate) shape: Shape,
    pub(crate) by_row: ArrayVec<RowMoves, 2002>,
    ghost low: { shape.top ≤ 9 },
    ghost counted: { length by_row.items ≡ length (rows shape.registers shape.top) },
    ghost each: { (k : ℕ) (m : RowMoves) → slice_get by_row.items k ≡ Some m → MovesOf shape.registers shape.top k m },
}
