// The moves of each row: made, and read.
ghost use Rattle.std.specs.Prelude.{◌≡◌, ℕ, ◌+◌, ◌<◌, ◌≤◌, length, is_some, IfSome};
ghost use Rattle.rows.specs.Registers.{updated, reset, reset_priority};
ghost use Rattle.rows.specs.Rows.{IsRow, rows, place};
ghost use Rattle.rows.specs.Views.{contents_of, has_register};
ghost use Rattle.registers.specs.Tables.{step_in, updated_at, step_at, MovesOf};

use super::moves::Moves;
use super::row_moves::{RowMoves, Step};
use arrayvec::ArrayVec;
use rows::{Row, Shape};
use std::array;

// The number of a row, whatever the top.
fn number(row: Row) -> u16
    ensures { (top : ℕ) → IsRow top (contents_of row) → result ≡ place (contents_of row) (rows (length (contents_of row)) top) }
{
    row.number() as u16
}

// The row updated by p.
fn update(row: Row, p: u8) -> Row
    requires { p ≤ 10 }
    ensures { contents_of result ≡ updated p (contents_of row) }
{
    let Some(next) = row.updated(p) else {
        unreachable()
    };
    next
}

// The number of the row updated by p.
fn updated_number(row: Row, p: u8) -> u16
    requires { p ≤ 10 }
    ensures { (top : ℕ) → IsRow top (contents_of row) → p ≤ top → result ≡ place (updated p (contents_of row)) (rows (length (contents_of row)) top) }
{
    number(update(row, p))
}

// The row after a reset of register j, and the priority of that step; none where there is no register j.
fn reset(row: Row, j: usize) -> Option<(Row, u8)>
    ensures register { is_some result ≡ has_register j (contents_of row) }
    ensures row { IfSome result (λ step. contents_of step.0 ≡ reset j (contents_of row)) }
    ensures priority { IfSome result (λ step. step.1 ≡ reset_priority j (contents_of row)) }
{
    let next = row.reset(j)?;
    let priority = row.reset_priority(j)?;
    Some((next, priority))
}

// Step j from the row: step 0 leaves it alone.
fn step(row: Row, j: usize) -> Option<Step>
    ensures { (top : ℕ) → IsRow top (contents_of row) → result ≡ step_in (rows (length (contents_of row)) top) (contents_of row) j }
{
    if j == 0 {
        return Some(Step {
            row: number(row),
            priority: 1,
        });
    }
    let (next, priority) = reset(row, j)?;
    Some(Step {
        row: number(next),
        priority,
    })
}

// How many steps a row has: none of its registers is reset, or one.
pub(crate) fn step_count(shape: Shape) -> usize
    ensures { result ≡ shape.registers + 1 }
{
    shape.registers + 1
}

// The moves of row number k.
fn moves_of(shape: Shape, k: usize) -> RowMoves
    requires there { k < length (rows shape.registers shape.top) }
    requires low { shape.top ≤ 9 }
    ensures { MovesOf shape.registers shape.top k result }
{
    let row = shape.row(k);
    RowMoves {
        updates: array::from_fn(|p| updated_number(row, p as u8)),
        steps: array::from_fn(|j| step(row, j)),
    }
}

impl Moves {
    // The moves of all rows of a shape.
    pub(crate) fn new(shape: Shape) -> Moves
        requires { shape.top ≤ 9 }
        ensures { result.shape ≡ shape }
    {
        // a loop: extend of a fixed vector may be refused, push is proved to fit
        let mut by_row = ArrayVec::new();
        for k in 0..shape.count() {
            by_row.push(moves_of(shape, k));
        }
        Moves { shape, by_row }
    }

    // The number of row k updated by p. Rows go by number, as the layer's positions do.
    pub(crate) fn updated(&self, k: usize, p: u8) -> u16
        requires there { k < length self.now.by_row.items }
        requires fits { p ≤ self.now.shape.top }
        ensures { result ≡ updated_at self.now.shape.registers self.now.shape.top k p }
    {
        self.by_row[k].updates[usize::from(p)]
    }

    // Step j from row k; none where there is no register j.
    pub(crate) fn step(&self, k: usize, j: usize) -> Option<Step>
        requires { k < length self.now.by_row.items }
        ensures { result ≡ step_at self.now.shape.registers self.now.shape.top k j }
    {
        *self.by_row[k].steps.get(j)?
    }
}
