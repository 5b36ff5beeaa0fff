// Theorems over every lawful game, of whatever size: each position belongs to exactly one player, by one winning plan for
// each player, and what swap and hold do to winning plans. Each function does nothing but have its theorem for a contract.
#![tactic(auto)]

ghost use Rattle.std.specs.Prelude.{ℕ, ◌<◌, List, Option};
ghost use Rattle.game.specs.declared.Player.{Player};
ghost use Rattle.game.specs.declared.Player.TheVariants.{Even, Odd};
ghost use Rattle.game.specs.Game.{Game, Lawful, rival};
ghost use Rattle.game.specs.Layers.{held};
ghost use Rattle.game.specs.Plans.{Plan, Wins, Belongs};
ghost use Rattle.determinacy.specs.Statements.{Disjoint, Determined, EachBelongs, RivalsExclude, WinsRegion};
ghost use Rattle.determinacy.specs.Layers.{Exchanged, OwnEntries, Agrees, renumbered, numbered_back, GivesNothing};
ghost use Rattle.determinacy.specs.Example.{example, even_plan, odd_plan};

// No position is claimed by winning plans of both players.
pub fn regions_disjoint()
    ensures { (g : Game) → Lawful g → Disjoint g Even Odd }
{}

// The positions can be divided between the players, each with one plan that wins all of its own.
pub fn games_determined()
    ensures { (g : Game) → Lawful g → Determined g }
{}

// Each position belongs to Even or to Odd.
pub fn positions_belong()
    ensures { (g : Game) → Lawful g → EachBelongs g }
{}

// A player can win from a position exactly if the rival cannot.
pub fn rivals_exclude()
    ensures { (g : Game) → Lawful g → RivalsExclude g }
{}

// Each player has one winning plan that claims every position which any of its winning plans claims, and no other.
pub fn region_won()
    ensures { (g : Game) (player : Player) → Lawful g → (s : Plan) × WinsRegion g player s }
{}

// Swap exchanges the players: what wins for the one on a game wins for the other on the swapped game.
pub fn swap_exchanges()
    ensures { (g : Game) (player : Player) → Lawful g → g.top < 250 → Exchanged g player (rival player) }
{}

// Holding positions of a player gives that player nothing new.
pub fn hold_gives_nothing()
    ensures { (g : Game) (entries : List (Option ℕ)) (player : Player) → OwnEntries entries g player → GivesNothing entries g player }
{}

// A winning plan that agrees with the entries wins on the held game, renumbered.
pub fn wins_held()
    ensures { (g : Game) (entries : List (Option ℕ)) (s : Plan) → Wins g s → Agrees entries g s → Wins (held entries g) (renumbered entries g s) }
{}

// A winning plan on the held game, where only its player's positions are held, wins below, numbered back, and agrees with
// the entries.
pub fn wins_below()
    ensures { (g : Game) (entries : List (Option ℕ)) (s : Plan) → OwnEntries entries g s.player → Wins (held entries g) s → Wins g (numbered_back entries g s) × Agrees entries g (numbered_back entries g s) }
{}

// A lawful game of four positions: two belong to Even and two to Odd, as its plans show from the definition of winning.
pub fn example_decided()
    ensures lawful { Lawful example }
    ensures wins { (Wins example even_plan) × (Wins example odd_plan) }
    ensures evens { (Belongs example Even 0) × (Belongs example Even 2) }
    ensures odds { (Belongs example Odd 1) × (Belongs example Odd 3) }
{}
