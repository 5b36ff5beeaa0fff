// What a plan says of one position.
ghost use Rattle.std.specs.Prelude.{◌≡◌};
ghost use Rattle.plans.specs.Choices.{choice_of, allows};

#[derive(Clone, Copy, PartialEq, Eq, Debug)]
pub(crate) enum Choice {
    // the plan does not claim the position
    Unclaimed,
    // claimed, where the other player moves, by any arc
    Claimed,
    // claimed, where the plan's player moves by the arc with this number
    Arc(u8),
}

impl Choice {
    // Whether the plan's moves from the position may be by arc i.
    pub(crate) fn allows(self, i: usize) -> bool
        ensures { result ≡ allows self i }
    {
        match self {
            Choice::Unclaimed => false,
            Choice::Claimed => true,
            Choice::Arc(chosen) => i == usize::from(chosen),
        }
    }
}

impl From<u8> for Choice {
    ghost from_gives = { λ byte choice. choice ≡ choice_of byte };

    fn from(byte: u8) -> Choice {
        match byte {
            255 => Choice::Unclaimed,
            254 => Choice::Claimed,
            number => Choice::Arc(number),
        }
    }
}
