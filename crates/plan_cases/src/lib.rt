// A table of plans and how each of them is judged.
#![tactic(auto)]

use arena::Arena;
use plans::{FormedPlan, Mark, judge};
use table::Table;
use text::Fault;

// How a plan is judged: the number and place of the refusal, or the mark; one flat value, so that the table below can be read.
#[derive(Clone, Copy, PartialEq, Eq, Debug)]
enum Outcome {
    Outside,
    Refused(usize, usize),
    Passes,
    Leaves(usize),
    Loses(usize),
}

fn judging(table: &Table, bytes: &[u8]) -> Outcome {
    match judge(table, bytes) {
        None => Outcome::Outside,
        Some(Err(fault)) => Outcome::Refused(fault.number(), fault.place()),
        Some(Ok(Mark::Passes)) => Outcome::Passes,
        Some(Ok(Mark::Leaves(p))) => Outcome::Leaves(p),
        Some(Ok(Mark::Loses(p))) => Outcome::Loses(p),
    }
}

// Where a well-formed plan leaves, and where it loses.
fn places(table: &Table, bytes: &[u8]) -> Option<(Option<usize>, Option<usize>)> {
    let plan = FormedPlan::read(table, bytes).ok()?;
    Some((plan.leaves_at(), plan.loses_at()))
}

#[cfg(test)]
mod tests {
    use super::*;
    use sheet::read_sheet;
    use std::test::Fail;

    // Position 0: Even moves, arcs to 1 with priority 1 and to 0 with priority 2. Position 1: Odd moves, one arc to 0 with priority 0.
    const ROOF: [u8; 25] = [
        1, 2, 3, 0, 0, 1, 115, 104, 117, 116, 1, 3, 114, 97, 105, 110, 1, 1, 2, 2, 0, 0, 0, 0, 0,
    ];

    // The four bytes of a plan on it, and how it is judged.
    const ROOF_PLANS: [(u8, u8, u8, u8, Outcome); 19] = [
        (0, 2, 1, 254, Outcome::Passes),
        (0, 2, 0, 254, Outcome::Loses(0)),
        (0, 2, 255, 254, Outcome::Leaves(1)),
        (0, 2, 1, 255, Outcome::Passes),
        (0, 2, 0, 255, Outcome::Leaves(0)),
        (0, 2, 255, 255, Outcome::Passes),
        (1, 2, 255, 255, Outcome::Passes),
        (1, 2, 254, 0, Outcome::Loses(0)),
        (1, 2, 255, 0, Outcome::Leaves(1)),
        (1, 2, 254, 255, Outcome::Leaves(0)),
        (2, 2, 1, 254, Outcome::Refused(21, 0)),
        (2, 9, 9, 9, Outcome::Refused(21, 0)),
        (0, 1, 1, 254, Outcome::Refused(22, 0)),
        (0, 3, 9, 9, Outcome::Refused(22, 0)),
        (0, 2, 2, 254, Outcome::Refused(23, 0)),
        (0, 2, 254, 254, Outcome::Refused(23, 0)),
        (0, 2, 255, 253, Outcome::Refused(23, 1)),
        (0, 2, 255, 0, Outcome::Refused(23, 1)),
        (1, 2, 254, 1, Outcome::Refused(23, 1)),
    ];

    #[test]
    fn roof_plans(rt: HostRuntime) {
        let mut table = Table::new(rt.alloc());
        assert!(rt; read_sheet(&mut table, rt.alloc(), &ROOF).is_ok());
        for (player, size, first, second, expected) in ROOF_PLANS {
            let plan = [player, size, first, second];
            assert_eq!(rt; judging(&table, &plan), expected);
        }
    }

    #[test]
    fn lengths(rt: HostRuntime) {
        let mut table = Table::new(rt.alloc());
        // no positions
        assert_eq!(rt; judging(&table, &[0, 0]), Outcome::Passes);
        assert_eq!(rt; judging(&table, &[1, 1]), Outcome::Refused(22, 0));
        assert!(rt; read_sheet(&mut table, rt.alloc(), &ROOF).is_ok());
        assert_eq!(rt; judging(&table, &[]), Outcome::Refused(20, 0));
        assert_eq!(rt; judging(&table, &[0]), Outcome::Refused(20, 0));
        assert_eq!(rt; judging(&table, &[0, 2, 1]), Outcome::Refused(20, 0));
        assert_eq!(rt;
            judging(&table, &[0, 2, 1, 254, 255]),
            Outcome::Refused(20, 0)
        );
    }

    // Position 0: Even moves, a loop with priority 1. Position 1: Odd moves, an arc to 2. Position 2: Even moves, a loop.
    const TWO_LOOPS: [u8; 31] = [
        1, 3, 3, 0, 0, 1, 97, 97, 97, 97, 1, 2, 98, 98, 98, 98, 0, 3, 99, 99, 99, 99, 1, 0, 0, 0,
        2, 0, 0, 2, 0,
    ];

    #[test]
    fn leaves_and_loses(rt: HostRuntime) -> Result<(), Fail> {
        let mut table = Table::new(rt.alloc());
        assert!(rt; read_sheet(&mut table, rt.alloc(), &TWO_LOOPS).is_ok());
        let both = [0, 3, 0, 254, 255];
        let found = places(&table, &both).ok_or("no plan")?;
        assert_eq!(rt; found, (Some(1), Some(0)));
        assert_eq!(rt; judging(&table, &both), Outcome::Leaves(1));
        assert_eq!(rt; judging(&table, &[0, 3, 0, 254, 0]), Outcome::Loses(0));
        assert_eq!(rt; judging(&table, &[0, 3, 255, 254, 0]), Outcome::Passes);
        Ok(())
    }

    // Sixteen positions without arc records: each has a loop by which its mover loses.
    #[test]
    fn sixteen_positions(rt: HostRuntime) -> Result<(), Fail> {
        let mut sheet = [33u8; 100];
        sheet[0] = 1;
        sheet[1] = 16;
        sheet[2] = 0;
        sheet[3] = 0;
        // by index: the offsets are those of the format
        for v in 0..16usize {
            sheet[4 + 6 * v] = (v % 2) as u8;
            sheet[5 + 6 * v] = 0;
        }
        let mut table = Table::new(rt.alloc());
        assert!(rt; read_sheet(&mut table, rt.alloc(), &sheet).is_ok());
        let mut plan = [255u8; 18];
        plan[0] = 0;
        plan[1] = 16;
        // Odd moves at position 15
        plan[17] = 254;
        assert_eq!(rt; judging(&table, &plan), Outcome::Passes);
        // Even moves at position 14
        plan[16] = 0;
        assert_eq!(rt; judging(&table, &plan), Outcome::Loses(14));
        Ok(())
    }
}
