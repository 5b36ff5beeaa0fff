// Least heights: the progress measure of a game, reached by sweeps; and the theorems that they rest on, each the contract of a
// function that does nothing else.
#![tactic(auto)]

ghost use Rattle.std.specs.Prelude.{◌≡◌, ℕ, ◌+◌, ◌*◌, ◌<◌, ◌≤◌, List, length};
ghost use Rattle.game.specs.Game.{Game, Lawful};
ghost use Rattle.heights.specs.Heights.{Closed, LeastClosed};
ghost use Rattle.heights.specs.Sweeps.{Swept};
ghost use Rattle.heights.specs.Ladder.{Ladder, LadderLaws, counters};
ghost use Rattle.heights.specs.Theorems.{ClimbLaws, Sound, SweepsEnd, SweepsTake};

mod cleared;
mod scale;
mod sweeps;

pub use cleared::{Cleared, clear};
pub use scale::Scale;
pub use sweeps::least_heights;

// By steps up to T a climb is monotone and at most T.
pub fn climb_laws()
    ensures { (n r : ℕ) → 1 ≤ n → ClimbLaws n r (r + 1) }
{}

// On any ladder: moves that heights keep have no closed walk with an odd highest priority.
pub fn ladders_sound<Value>()
    ensures { (limit : ℕ) (l : Ladder Value) → LadderLaws limit l → Sound limit l }
{}

// The heights from 0 to T are a ladder, for the priorities that r registers are meant for.
pub fn counters_lawful()
    ensures { (n r : ℕ) → 1 ≤ n → LadderLaws (2 * r + 1) (counters n r) }
{}

// Two least closed assignments agree at each position.
pub fn least_unique()
    ensures { (n r : ℕ) (g : Game) (h k : ℕ → ℕ) → LeastClosed n r g h → LeastClosed n r g k → (v : ℕ) → v < g.size → h v ≡ k v }
{}

// From the same start the sweeps end in the same cells, with as many raises.
pub fn sweeps_agree()
    ensures { (n r : ℕ) (g : Game) (start last other : List ℕ) (k m : ℕ) → Swept n r g start last k → Swept n r g start other m → (last ≡ other) × (k ≡ m) }
{}

// From all zeros the sweeps end, in the least closed heights.
pub fn sweeps_end()
    ensures { (n r : ℕ) (g : Game) (cells : List ℕ) → 1 ≤ n → Lawful g → g.top ≤ 2 * r + 1 → g.size ≤ length cells → SweepsEnd n r g cells }
{}

// From all zeros the sweeps take one number of raises, whatever lies in the cells behind, and at most T for each position.
pub fn sweeps_take()
    ensures { SweepsTake }
{}
