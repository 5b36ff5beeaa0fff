// The rules of a case: what each of its calls answers, as a relation between states, and what is promised of any list of them. These are
// definitions in specs/; here are the faults of the calls, with their numbers and places, and the numbers of verdicts.
#![tactic(auto)]

mod fault;
mod verdict;

pub use fault::{CaseFault, IssueFault};
pub use verdict::verdict_number;
