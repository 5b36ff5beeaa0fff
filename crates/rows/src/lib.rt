// Rows of registers: their numbering, and what updates and resets do to them.
#![tactic(auto)]

ghost use Rattle.std.specs.Prelude.{◌≡◌, ℕ, [], ◌∷◌, ◌++◌, ◌+◌, ◌-◌, ◌^◌, ◌<◌, ◌≤◌, if◌then◌else◌, length, max, replicate, Some, None, nat_le, slice_index};
ghost use Rattle.std.specs.List.{remove, slice_get};
ghost use Rattle.rows.specs.Choose.{choose};
ghost use Rattle.rows.specs.Rows.{IsRow, rows, place};
ghost use Rattle.rows.specs.Registers.{content, updated, reset, reset_priority};
ghost use Rattle.rows.specs.Views.{contents_of, found, some_registers, in_range, is_number, has_register};
ghost use Rattle.rows.specs.Theorems.{RowsListed, RowsAscend, RowsCounted, RowsNumbered, RowsKept, ContentsMoved};

mod row;
mod shape;
mod table;

pub use row::Row;
pub use shape::Shape;
use std::array;
pub use table::binomial;

// How many rows there are of r registers with contents from 0 to top.
pub fn row_count(r: usize, top: u8) -> Option<usize>
    ensures { result ≡ (if in_range r top then Some (choose (top + r) r) else None) }
{
    Some(Shape::new(r, top)?.count())
}

// Takes the content at the index out: those behind it move up by one place, and a 0 comes in at the end.
#[tactic(auto, using(crate::proofs::Held::turned))]
fn take_out(contents: &mut [u8], index: usize)
    requires { index < length contents.old }
    ensures { contents.new ≡ remove contents.old index ++ 0 ∷ [] }
{
    contents[index] = 0;
    contents[index..].rotate_left(1);
}

// Contents, each raised to p where it is lower.
fn raised(contents: [u8; 5], p: u8) -> [u8; 5]
    requires { length contents ≡ 5 }
    ensures whole { length result ≡ 5 }
    ensures each { (i : ℕ) → i < 5 → slice_index result i ≡ max (slice_index contents i) p }
{
    array::from_fn(|i| contents[i].max(p))
}

impl Row {
    // The row with 0 in each of r registers.
    pub fn zeros(r: usize) -> Option<Row>
        ensures { found result ≡ (if some_registers r then Some (replicate r 0) else None) }
    {
        if !(1..=5).contains(&r) {
            return None;
        }
        Some(Row {
            registers: r,
            contents: [0; 5],
        })
    }

    // Row number k of r registers with contents from 0 to top: none where there are no more than k.
    pub fn from_number(r: usize, top: u8, k: usize) -> Option<Row>
        ensures { found result ≡ (if is_number r top k then slice_get (rows r top) k else None) }
    {
        let shape = Shape::new(r, top)?;
        (k < shape.count()).then(|| shape.row(k))
    }

    // The number of the row, whatever the top.
    pub fn number(self) -> usize
        ensures row { IsRow 10 (contents_of self) }
        ensures value { (top : ℕ) → IsRow top (contents_of self) → result ≡ place (contents_of self) (rows (length (contents_of self)) top) }
    {
        (0..self.registers).map(|i| self.share(i)).sum()
    }

    // What the content at index i adds: how many rows of the registers from there on begin with less.
    fn share(self, i: usize) -> usize
        requires { i < self.registers }
        ensures value { result ≡ choose (slice_index self.contents i + (self.registers - i) - 1) (self.registers - i) }
        ensures small { result < 2 ^ 16 }
    {
        let rest = Shape {
            registers: self.registers - i,
            top: 10,
        };
        rest.before(self.contents[i])
    }

    // The index of what register j holds, if there is one.
    fn index(self, j: usize) -> Option<usize>
        ensures { result ≡ (if has_register j (contents_of self) then Some (self.registers - j) else None) }
    {
        (1..=self.registers)
            .contains(&j)
            .then(|| self.registers - j)
    }

    // What register j holds.
    pub fn content(self, j: usize) -> Option<u8>
        ensures { result ≡ (if has_register j (contents_of self) then Some (content j (contents_of self)) else None) }
    {
        Some(self.contents[self.index(j)?])
    }

    // The row after a move of priority p, before any reset.
    pub fn updated(mut self, p: u8) -> Option<Row>
        ensures { found result ≡ (if nat_le p 10 then Some (updated p (contents_of self)) else None) }
    {
        if p > 10 {
            return None;
        }
        self.contents = raised(self.contents, p);
        Some(self)
    }

    // The row after a reset of register j.
    pub fn reset(mut self, j: usize) -> Option<Row>
        ensures { found result ≡ (if has_register j (contents_of self) then Some (reset j (contents_of self)) else None) }
    {
        let index = self.index(j)?;
        let mut contents = self.contents;
        take_out(&mut contents[..self.registers], index);
        self.contents = contents;
        Some(self)
    }

    // The priority of a reset of register j.
    pub fn reset_priority(self, j: usize) -> Option<u8>
        ensures { result ≡ (if has_register j (contents_of self) then Some (reset_priority j (contents_of self)) else None) }
    {
        let c = self.content(j)?;
        Some(2 * j as u8 + c % 2)
    }
}

// The list of rows has exactly the rows.
pub fn rows_listed()
    ensures { RowsListed }
{}

// The list of rows ascends in dictionary order.
pub fn rows_ascend()
    ensures { RowsAscend }
{}

// The number of rows is a binomial.
pub fn rows_counted()
    ensures { RowsCounted }
{}

// Rows and numbers are inverse to each other, and the formula gives the number.
pub fn rows_numbered()
    ensures { RowsNumbered }
{}

// Updates and resets lead from rows to rows.
pub fn rows_kept()
    ensures { RowsKept }
{}

// What each register holds after a move.
pub fn contents_moved()
    ensures { ContentsMoved }
{}
