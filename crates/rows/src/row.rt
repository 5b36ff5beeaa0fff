// A row: what up to five registers hold, the last register's content first. The entries past the registers mean nothing.
ghost use Rattle.std.specs.Prelude.{◌≡◌, ◌≤◌, length, take};
ghost use Rattle.rows.specs.Rows.{IsRow};

// An array with a count beside it: rows are copied, which a vector is not.
#[derive(Clone, Copy)]
pub struct Row {
    pub(crate) registers: usize,
    pub(crate) contents: [u8; 5],
    ghost some: { 1 ≤ registers },
    ghost few: { registers ≤ 5 },
    ghost whole: { length contents ≡ 5 },
    ghost ordered: { ∥ IsRow 10 (take registers contents) ∥₁ },
}
