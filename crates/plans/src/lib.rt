// Plans given as bytes are judged on any arena with at most 16 positions.
#![tactic(auto)]

ghost use Rattle.plans.specs.Theorems.{FaultsComplete, MarksComplete};

mod choice;
mod fault;
mod findings;
mod judging;
mod mark;
mod moves;
mod plan;
mod relation;

pub use fault::PlanFault;
pub use judging::judge;
pub use mark::Mark;
pub use plan::FormedPlan;

// Bytes are well-formed exactly when none of the numbered faults applies; they have one fault at most.
pub fn plan_faults_complete()
    ensures { FaultsComplete }
{}

// Every well-formed plan has exactly one mark, and passes exactly when it wins.
pub fn plan_marks_complete()
    ensures { MarksComplete }
{}
