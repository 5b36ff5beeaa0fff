// The worked examples of the rules, together: each follows from the definitions that the contracts of the code cite.
#![tactic(auto)]

ghost use Rattle.game.specs.Loops.{LoneLoopsDecided};
ghost use Rattle.rows.specs.Theorems.{WorkedRows};
ghost use Rattle.plans.specs.Examples.{WorkedPlans};
ghost use Rattle.worked.specs.Climbs.{WorkedClimbs};
ghost use Rattle.worked.specs.Measures.{WorkedMeasures};

// Rows updated and reset and how many there are, climbs, registers needed and the cells they take, three plans, and the two games with one loop.
pub fn worked_examples()
    ensures rows { WorkedRows }
    ensures climbs { WorkedClimbs }
    ensures measures { WorkedMeasures }
    ensures plans { WorkedPlans }
    ensures loops { LoneLoopsDecided }
{}
