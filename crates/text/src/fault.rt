// Faults as the rules number them, and an output that is too short for what a call may write.
ghost use Rattle.std.specs.Prelude.{◌≡◌, ℕ};
ghost use Rattle.text.specs.Output.{number_of, place_of};

// A fault has a number, and a place: 0, a position, an arc record, or how much was wanted.
pub trait Fault {
    ghost number_of: { Self → ℕ };

    ghost place_of: { Self → ℕ };

    fn number(&self) -> usize
        ensures { result ≡ number_of self.now };

    fn place(&self) -> usize
        ensures { result ≡ place_of self.now };
}

#[derive(Clone, Copy, PartialEq, Eq, Debug)]
pub enum OutputFault {
    // fewer bytes than the call wants, with how many it wants
    Short(usize),
}

impl Fault for OutputFault {
    ghost number_of = { number_of };

    ghost place_of = { place_of };

    fn number(&self) -> usize {
        match *self {
            OutputFault::Short(_) => 15,
        }
    }

    fn place(&self) -> usize {
        match *self {
            OutputFault::Short(wanted) => wanted,
        }
    }
}
