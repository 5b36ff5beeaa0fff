// The first plan, by its bytes.
#![tactic(auto)]

ghost use Rattle.std.specs.Prelude.{ℕ, List};
ghost use Rattle.game.specs.declared.Player.{Player};
ghost use Rattle.game.specs.Game.{Game};
ghost use Rattle.plan_order.specs.Order.{FirstInBytes};

// The first of the plans that win a player's region has the first bytes in dictionary order.
pub fn first_in_bytes()
    ensures { (g : Game) (player : Player) (bytes others : List ℕ) → FirstInBytes g player bytes others }
{}
