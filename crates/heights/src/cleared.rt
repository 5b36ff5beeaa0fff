// Cells that are zero again when their borrower lets them go.
ghost use Rattle.std.specs.Prelude.{◌≡◌, ◌≤◌, length};
ghost use Rattle.heights.specs.Sweeps.{zeroed};

// Writes 0 into the first `used` cells.
pub fn clear(cells: &mut [u32], used: usize)
    requires { used ≤ length cells.old }
    ensures { cells.new ≡ zeroed used cells.old }
{
    cells[..used].fill(0);
}

// A guard over lent cells: dropped, it clears the first `used` of them. A slice of just these would be no
// plainer: its callers promise something of the cells behind, and would have to join the two again.
pub struct Cleared<'a> {
    pub cells: &'a mut [u32],
    pub used: usize,
}

impl Drop for Cleared<'_> {
    fn drop(self)
        requires { self.used ≤ length self.cells.now }
        ensures { self.exit.0.now ≡ zeroed self.entry.used self.entry.cells.now }
    {
        let Cleared { cells, used } = self;
        clear(cells, used);
    }
}
