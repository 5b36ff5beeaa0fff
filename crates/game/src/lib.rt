// The two players and an arc of a game; the game itself, plans and winning are definitions in specs/.
#![tactic(auto)]

ghost use Rattle.std.specs.Prelude.{◌≡◌, Some};
ghost use Rattle.game.specs.Game.{rival};
ghost use Rattle.game.specs.Loops.{LoneLoopsDecided};
ghost use Rattle.game.specs.Players.{byte_of, Decodes, word_of};

use std::fmt;

// Even wins where the highest priority that keeps returning is even, Odd where it is odd.
#[derive(Clone, Copy, PartialEq, Eq, Debug)]
pub enum Player {
    Even,
    Odd,
}

// A byte that is neither player's.
#[derive(Clone, Copy, PartialEq, Eq, Debug)]
pub struct NoPlayer(pub u8);

impl Player {
    pub fn rival(self) -> Player
        ensures { result ≡ rival self }
    {
        match self {
            Player::Even => Player::Odd,
            Player::Odd => Player::Even,
        }
    }
}

// Byte 0 is Even and byte 1 is Odd, in sheets and in plans.
impl TryFrom<u8> for Player {
    type Error = NoPlayer;

    ghost try_from_gives = { Decodes };

    fn try_from(byte: u8) -> Result<Player, NoPlayer> {
        match byte {
            0 => Ok(Player::Even),
            1 => Ok(Player::Odd),
            _ => Err(NoPlayer(byte)),
        }
    }
}

impl From<Player> for u8 {
    ghost from_gives = { λ player byte. byte ≡ byte_of player };

    fn from(player: Player) -> u8 {
        match player {
            Player::Even => 0,
            Player::Odd => 1,
        }
    }
}

impl fmt::Display for Player {
    ghost output = { λ player. Some (word_of player) };

    fn fmt<W: fmt::Write>(&self, f: &mut fmt::Formatter<W>) -> fmt::Result {
        f.write_str(match self {
            Player::Even => "even",
            Player::Odd => "odd",
        })
    }
}

// A move that a position offers: where it leads, and its priority. The default fills the unused places of lists of fixed capacity.
#[derive(Clone, Copy, PartialEq, Eq, Debug, Default)]
pub struct Arc {
    pub target: usize,
    pub priority: u8,
}

// A loop of priority 0 is Even's to win and a loop of priority 7 is Odd's, by the definition of winning alone.
pub fn lone_loops_decided()
    ensures { LoneLoopsDecided }
{}
