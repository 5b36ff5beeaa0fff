// The shape of rows: how many registers they have, and the largest content. Its rows are numbered from 0.
ghost use Rattle.std.specs.Prelude.{◌≡◌, ◌+◌, ◌-◌, ◌^◌, ◌<◌, ◌≤◌, is_some, Some, IfSome};
ghost use Rattle.std.specs.List.{slice_get};
ghost use Rattle.rows.specs.Choose.{choose};
ghost use Rattle.rows.specs.Rows.{rows};
ghost use Rattle.rows.specs.Views.{contents_of, in_range};

use crate::row::Row;
use crate::table::entry;

#[derive(Clone, Copy)]
pub struct Shape {
    pub registers: usize,
    pub top: u8,
    ghost some: { 1 ≤ registers },
    ghost few: { registers ≤ 5 },
    ghost low: { top ≤ 10 },
}

impl Shape {
    // The shape of r registers with contents from 0 to top, where rows have them.
    pub fn new(r: usize, top: u8) -> Option<Shape>
        ensures range { is_some result ≡ in_range r top }
        ensures same { IfSome result (λ shape. (shape.registers ≡ r) × (shape.top ≡ top)) }
    {
        if !(1..=5).contains(&r) || top > 10 {
            return None;
        }
        Some(Shape { registers: r, top })
    }

    // How many rows there are.
    pub fn count(self) -> usize
        ensures { result ≡ choose (self.top + self.registers) self.registers }
    {
        entry(usize::from(self.top) + self.registers, self.registers)
    }

    // How many of them begin with less than c.
    pub(crate) fn before(self, c: u8) -> usize
        requires { c ≤ self.top }
        ensures value { result ≡ choose (c + self.registers - 1) self.registers }
        ensures small { result < 2 ^ 16 }
    {
        entry(usize::from(c) + self.registers - 1, self.registers)
    }

    // What row number k begins with: the largest content such that no more than k rows begin with less.
    fn first(self, k: usize) -> u8
        requires { k < choose (self.top + self.registers) self.registers }
        ensures under { result ≤ self.top }
        ensures reached { choose (result + self.registers - 1) self.registers ≤ k }
        ensures passed { k < choose (result + self.registers) self.registers }
    {
        // from the top down: the contents of a row fall, so what is passed over here is tried for no later register
        let passed_over = (0..self.top)
            .find(|d| self.before(self.top - d) <= k)
            .unwrap_or(self.top);
        self.top - passed_over
    }

    // Row number k: its contents are found from the last register down.
    pub fn row(self, k: usize) -> Row
        requires { k < choose (self.top + self.registers) self.registers }
        ensures { slice_get (rows self.registers self.top) k ≡ Some (contents_of result) }
    {
        let mut contents = [0; 5];
        let mut top = self.top;
        let mut rest = k;
        for (i, content) in contents[..self.registers].iter_mut().enumerate() {
            let shape = Shape {
                registers: self.registers - i,
                top,
            };
            top = shape.first(rest);
            rest -= shape.before(top);
            *content = top;
        }
        Row {
            registers: self.registers,
            contents,
        }
    }
}
