// The marks that a well-formed plan may get.
ghost use Rattle.std.specs.Prelude.{◌≡◌};
ghost use Rattle.plans.specs.Marks.{mark_number};

#[derive(Clone, Copy, PartialEq, Eq, Debug)]
pub enum Mark {
    Passes,
    // the lowest claimed position from which a following move ends unclaimed
    Leaves(usize),
    // the lowest position on a closed walk of following moves whose highest priority has the wrong parity
    Loses(usize),
}

impl Mark {
    pub fn number(self) -> usize
        ensures { result ≡ mark_number self }
    {
        match self {
            Mark::Passes => 0,
            Mark::Leaves(_) => 1,
            Mark::Loses(_) => 2,
        }
    }
}
