// The theory of the register layer: what its least heights keep is won, more registers keep no less, and enough registers keep
// all that is won. Each function does nothing but have its theorem for a contract.
#![tactic(auto)]

ghost use Rattle.std.specs.Prelude.{◌≡◌, ℕ, ◌%◌, ◌^◌, ◌<◌, ◌≤◌, true, ◌↔◌, List, Option};
ghost use Rattle.game.specs.declared.Player.{Player};
ghost use Rattle.game.specs.Game.{Game, Lawful};
ghost use Rattle.game.specs.Layers.{swapped, held};
ghost use Rattle.game.specs.Plans.{Plan, Winnable};
ghost use Rattle.determinacy.specs.Layers.{OwnEntries};
ghost use Rattle.registers.specs.Layer.{stands};
ghost use Rattle.register_theory.specs.Doubling.{ClosedDoubleWalk, StepsAreMoves, MovesAreSteps};
ghost use Rattle.register_theory.specs.Groups.{SmallGroups};
ghost use Rattle.register_theory.specs.Kept.{HeightsExist, KeptByLeast, KeptIsWon, KeptSwappedIsWon, NeverBoth, StillKept, WonIsKept, Exact};
ghost use Rattle.register_theory.specs.First.{KeptFor, Solvable, KeepsAll, SomePlanAgrees, FoundByHolding, FirstPlan};

// A double step is two moves of the layer, and two moves from a state are a double step.
pub fn steps_are_moves()
    ensures moves { (g : Game) (r : ℕ) → Lawful g → stands r g ≡ true → StepsAreMoves g r }
    ensures steps { (g : Game) (r : ℕ) → Lawful g → stands r g ≡ true → MovesAreSteps g r }
{}

// A closed walk of the layer whose highest priority is even has an even highest priority below.
pub fn even_above_even_below()
    ensures { (g : Game) (r below above : ℕ) → ClosedDoubleWalk g r below above → above % 2 ≡ 0 → below % 2 ≡ 0 }
{}

// The layer has least closed heights.
pub fn least_heights_exist()
    ensures { (r : ℕ) (g : Game) → Lawful g → stands r g ≡ true → HeightsExist r g }
{}

// Any least closed heights tell what is kept.
pub fn least_heights_tell()
    ensures { (r : ℕ) (g : Game) → stands r g ≡ true → KeptByLeast r g }
{}

// What is kept belongs to Even.
pub fn kept_is_won()
    ensures { (r : ℕ) (g : Game) → Lawful g → stands r g ≡ true → KeptIsWon r g }
{}

// What is kept on the swapped game belongs to Odd.
pub fn kept_swapped_is_won()
    ensures { (r : ℕ) (g : Game) → Lawful g → g.top < 250 → stands r (swapped g) ≡ true → KeptSwappedIsWon r g }
{}

// No position is kept for both players.
pub fn never_kept_for_both()
    ensures { (r s : ℕ) (g : Game) → Lawful g → stands r g ≡ true → stands s (swapped g) ≡ true → NeverBoth r s g }
{}

// More registers keep what fewer keep.
pub fn more_registers_keep()
    ensures { (r s : ℕ) (g : Game) → Lawful g → stands r g ≡ true → stands s g ≡ true → r ≤ s → StillKept r s g }
{}

// With r registers, where every group has fewer than 2^r positions, all that is won is kept.
pub fn won_is_kept()
    ensures { (r : ℕ) (g : Game) → Lawful g → stands r g ≡ true → SmallGroups r g → WonIsKept r g }
{}

// Fewer than 2^r positions have groups of fewer than 2^r, and neither swapping nor holding makes a group larger.
pub fn groups_small()
    ensures few { (r : ℕ) (g : Game) → g.size < 2 ^ r → SmallGroups r g }
    ensures swap { (r : ℕ) (g : Game) → g.top < 250 → SmallGroups r g → SmallGroups r (swapped g) }
    ensures hold { (r : ℕ) (entries : List (Option ℕ)) (g : Game) → SmallGroups r g → SmallGroups r (held entries g) }
{}

// So then each position is kept for exactly one player, the one to whom it belongs.
pub fn kept_exactly()
    ensures { (r : ℕ) (g : Game) → Lawful g → stands r g ≡ true → stands r (swapped g) ≡ true → SmallGroups r g → (v : ℕ) → v < g.size → Exact r g v }
{}

// The same for one player alone: what the player can win is kept for the player, and nothing else.
pub fn kept_for_exactly()
    ensures { (r : ℕ) (g : Game) (player : Player) → Lawful g → Solvable r g player → (v : ℕ) → v < g.size → Winnable g player v ↔ KeptFor r g player v }
{}

// Holding arcs takes nothing from this.
pub fn held_solvable()
    ensures { (r : ℕ) (entries : List (Option ℕ)) (g : Game) (player : Player) → Solvable r g player → Solvable r (held entries g) player }
{}

// With some of the player's arcs held all of the player's positions are kept still exactly if a plan that wins them all has these arcs.
pub fn holding_asks()
    ensures { (r : ℕ) (entries : List (Option ℕ)) (g : Game) (player : Player) → Lawful g → OwnEntries entries g player → Solvable r (held entries g) player → KeepsAll r entries g player ↔ SomePlanAgrees entries g player }
{}

// So the plan found by holding the first arc that passes, at one own position after the other, is the first.
pub fn found_first()
    ensures { (r : ℕ) (g : Game) (player : Player) (s : Plan) → Lawful g → FoundByHolding r g player s → FirstPlan g player s }
{}

// There is a first plan wherever the entries reach every position.
pub fn first_exists()
    ensures { (g : Game) (player : Player) → Lawful g → g.size ≤ 16 → (s : Plan) × FirstPlan g player s }
{}
