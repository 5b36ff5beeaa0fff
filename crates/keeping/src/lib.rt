// Which positions the registers keep, for Even: the least heights over the register layer, in lent cells.
#![tactic(auto)]

ghost use Rattle.std.specs.Prelude.{◌≡◌, ℕ, ◌*◌, ◌<◌, ◌≤◌, false, ◌&&◌, length, drop, nat_le, nat_lt, slice_index, slice_index_or};
ghost use Rattle.heights.specs.Climb.{lost};
ghost use Rattle.registers.specs.Layer.{registers};
ghost use Rattle.registers.specs.Views.{game_of};
ghost use Rattle.keeping.specs.Keeping.{Told, Reply};

use arena::Arena;
use heights::{Cleared, Scale, least_heights};
use registers::Registers;
use rows::row_count;
use std::array;

mod answer;

pub use answer::Keeping;

// Says with r registers which positions are kept. Absent where the arena has no positions, the layer does not stand or its positions
// outnumber the cells; the cells are then untouched. Else those that the layer took are zero.
pub fn kept<A: Arena>(arena: &A, r: usize, cells: &mut [u32]) -> Option<Keeping>
    ensures { Reply r (A.game arena.now) cells.old cells.new result }
{
    let layer = Registers::over(arena, r);
    let used = layer.size();
    if !served(used, cells) {
        return None;
    }
    let guard = Cleared { cells, used };
    Some(measured(arena, &layer, r, &mut *guard.cells))
}

// Whether a layer of so many positions is served with these cells: it has positions, and there is a cell for each.
fn served(used: usize, cells: &[u32]) -> bool
    ensures { result ≡ nat_le 1 used && nat_le used (length cells.now) }
{
    used != 0 && cells.len() >= used
}

// The same over the layer, which has positions and a cell for each; the heights are left in the cells.
fn measured<A: Arena>(arena: &A, layer: &Registers, r: usize, cells: &mut [u32]) -> Keeping
    requires over { game_of layer.now ≡ registers r (A.game arena.now) }
    requires some { 1 ≤ (game_of layer.now).size }
    requires room { (game_of layer.now).size ≤ length cells.old }
    ensures told { Told r (A.game arena.now) cells.old result }
    ensures others_stay { drop (game_of layer.now).size cells.new ≡ drop (game_of layer.now).size cells.old }
{
    let size = arena.size();
    let rows = row_count(r, arena.top()).unwrap();
    let raises = least_heights(layer, size, r, cells).unwrap();
    let positions = below(cells, size, rows, lost_height(size, r));
    Keeping { positions, raises }
}

// The height that means lost, with r registers over so many positions.
fn lost_height(size: usize, r: usize) -> u32
    requires some { 1 ≤ size }
    requires low { size ≤ 16 }
    requires few { r ≤ 5 }
    ensures { result ≡ lost size r }
{
    Scale::new(size, r).limit()
}

// For each position whether its height with the row of zeros is below the limit; these heights stand `rows` apart, as
// the rules number the layer's positions.
fn below(cells: &[u32], size: usize, rows: usize, limit: u32) -> [bool; 16]
    requires few { size ≤ 16 }
    requires room { (v : ℕ) → v < size → v * rows < length cells.now }
    ensures { (v : ℕ) → v < size → slice_index_or result v false ≡ nat_lt (slice_index cells.now (v * rows)) limit }
{
    array::from_fn(|v| v < size && cells[v * rows] < limit)
}
