// The theorems on a case: any list of its calls keeps the promises. Each function does nothing but have its theorem for a contract.
#![tactic(auto)]

ghost use Rattle.std.specs.Prelude.{ℕ};
ghost use Rattle.game.specs.Game.{Game, Lawful};
ghost use Rattle.case_rules.specs.Binary.{Log2Law};
ghost use Rattle.case_rules.specs.Promises.{Trust, SomeReply, OneReply};

// The logarithm by which the registers needed are counted is the one to base two.
pub fn logarithm_lawful()
    ensures { (n : ℕ) → Log2Law n }
{}

// Wherever a call may stand it has a reply and leaves a state, and only one of each.
pub fn replies_complete()
    ensures some { (g : Game) → Lawful g → SomeReply g }
    ensures one { (g : Game) → Lawful g → OneReply g }
{}

// Every list of calls on a case, opened on whatever arena, keeps the promises.
pub fn promises_kept()
    ensures { (g : Game) → Lawful g → Trust g }
{}
