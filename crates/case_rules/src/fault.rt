// Why a call on a case is refused. Each fault has a number and a place.
ghost use Rattle.case_rules.specs.Numbers.{case_number, case_place, issue_number, issue_place};

use plans::PlanFault;
use text::Fault;

// The faults of hold, free, verdict and check.
#[derive(Clone, Copy, PartialEq, Eq, Debug)]
pub enum CaseFault {
    // the arena is outside the limits of a case
    Limits,
    // there is no such position
    Position(usize),
    // the position has no such arc in the arena as opened
    Arc(usize),
    // the bytes are no plan
    Plan(PlanFault),
}

impl Fault for CaseFault {
    ghost number_of = { case_number };

    ghost place_of = { case_place };

    fn number(&self) -> usize {
        match *self {
            CaseFault::Limits => 10,
            CaseFault::Position(_) => 11,
            CaseFault::Arc(_) => 12,
            CaseFault::Plan(fault) => fault.number(),
        }
    }

    fn place(&self) -> usize {
        match *self {
            CaseFault::Limits => 0,
            CaseFault::Position(v) | CaseFault::Arc(v) => v,
            CaseFault::Plan(fault) => fault.place(),
        }
    }
}

// The faults of issue.
#[derive(Clone, Copy, PartialEq, Eq, Debug)]
pub enum IssueFault {
    // the arena is outside the limits of a case
    Limits,
    // neither 0 nor 1
    Player,
    // the solve was not full
    NotFull,
    // the output is shorter than the bytes wanted
    Output(usize),
    // there are fewer cells than wanted
    Cells(usize),
}

impl Fault for IssueFault {
    ghost number_of = { issue_number };

    ghost place_of = { issue_place };

    fn number(&self) -> usize {
        match *self {
            IssueFault::Limits => 10,
            IssueFault::Player => 13,
            IssueFault::NotFull => 14,
            IssueFault::Output(_) => 15,
            IssueFault::Cells(_) => 16,
        }
    }

    fn place(&self) -> usize {
        match *self {
            IssueFault::Limits | IssueFault::Player | IssueFault::NotFull => 0,
            IssueFault::Output(wanted) | IssueFault::Cells(wanted) => wanted,
        }
    }
}
