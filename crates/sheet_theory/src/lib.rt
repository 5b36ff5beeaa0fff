// The numbered faults of a sheet are complete.
#![tactic(auto)]

ghost use Rattle.sheet_theory.specs.Complete.{FaultsComplete};

// A sheet fits the layout exactly when none of the numbered faults applies; it has one fault at most, and describes one arena.
pub fn sheet_faults_complete()
    ensures { FaultsComplete }
{}
