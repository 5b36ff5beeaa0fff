// A table of sheets and what reading each of them gives.
#![tactic(auto)]

use arena::{Arena, arc_total};
use game::Player;
use sheet::{ReadFault, read_sheet};
use std::alloc::Global;
use table::Table;
use text::Fault;

// What reading gives: the number and place of the refusal, or how many positions and arcs there are; one flat value, so that the table
// below can be read.
#[derive(Clone, Copy, PartialEq, Eq, Debug)]
enum Outcome {
    Refused(usize, usize),
    Holds(usize, usize),
    Memory,
}

fn reading(table: &mut Table, heap: Global, bytes: &[u8]) -> Outcome {
    match read_sheet(table, heap, bytes) {
        Ok(()) => Outcome::Holds(table.size(), arc_total(table)),
        Err(ReadFault::Refused(fault)) => Outcome::Refused(fault.number(), fault.place()),
        Err(ReadFault::Memory) => Outcome::Memory,
    }
}

#[cfg(test)]
mod tests {
    use super::*;
    use std::test::Fail;

    // Two positions, `shut` with two arcs and `rain` with one.
    const ROOF: [u8; 25] = [
        1, 2, 3, 0, 0, 1, 115, 104, 117, 116, 1, 3, 114, 97, 105, 110, 1, 1, 2, 2, 0, 0, 0, 0, 0,
    ];

    // The roof sheet with one byte changed: which byte, its new value, and what is then read.
    const CHANGED: [(usize, u8, Outcome); 24] = [
        (24, 3, Outcome::Refused(7, 3)),
        (11, 2, Outcome::Refused(7, 2)),
        (11, 0, Outcome::Refused(8, 3)),
        (0, 0, Outcome::Refused(2, 0)),
        (0, 2, Outcome::Refused(2, 0)),
        (3, 1, Outcome::Refused(2, 0)),
        (1, 16, Outcome::Refused(4, 0)),
        (1, 17, Outcome::Refused(3, 0)),
        (2, 48, Outcome::Refused(4, 0)),
        (2, 49, Outcome::Refused(3, 0)),
        (4, 1, Outcome::Holds(2, 3)),
        (4, 2, Outcome::Refused(5, 0)),
        (5, 4, Outcome::Refused(5, 0)),
        (10, 2, Outcome::Refused(5, 1)),
        (6, 0x20, Outcome::Refused(5, 0)),
        (6, 0x21, Outcome::Holds(2, 3)),
        (9, 0x7e, Outcome::Holds(2, 3)),
        (9, 0x7f, Outcome::Refused(5, 0)),
        (15, 0x7f, Outcome::Refused(5, 1)),
        (16, 7, Outcome::Holds(2, 3)),
        (16, 8, Outcome::Refused(6, 1)),
        (20, 2, Outcome::Refused(6, 2)),
        (24, 4, Outcome::Refused(6, 3)),
        (18, 0, Outcome::Refused(8, 2)),
    ];

    #[test]
    fn changed_bytes(rt: HostRuntime) {
        let mut table = Table::new(rt.alloc());
        for (at, byte, expected) in CHANGED {
            let mut sheet = ROOF;
            if at < 25 {
                sheet[at] = byte;
            }
            assert_eq!(rt; reading(&mut table, rt.alloc(), &sheet), expected);
        }
    }

    #[test]
    fn lengths(rt: HostRuntime) {
        let mut table = Table::new(rt.alloc());
        assert_eq!(rt;
            reading(&mut table, rt.alloc(), &ROOF),
            Outcome::Holds(2, 3)
        );
        assert_eq!(rt;
            reading(&mut table, rt.alloc(), &[]),
            Outcome::Refused(1, 0)
        );
        assert_eq!(rt;
            reading(&mut table, rt.alloc(), &[1, 0, 0]),
            Outcome::Refused(1, 0)
        );
        assert_eq!(rt;
            reading(&mut table, rt.alloc(), &ROOF[0..24]),
            Outcome::Refused(4, 0)
        );
        let long = [1u8; 4096];
        assert_eq!(rt;
            reading(&mut table, rt.alloc(), &long),
            Outcome::Refused(2, 0)
        );
        // the refused sheets have left the first one in the table
        assert_eq!(rt; table.size(), 2);
        assert_eq!(rt;
            reading(&mut table, rt.alloc(), &[1, 0, 0, 0]),
            Outcome::Holds(0, 0)
        );
        assert_eq!(rt; table.size(), 0);
    }

    // Sixteen positions; the first three have chains of sixteen records each, the others none.
    #[test]
    fn full_sheet(rt: HostRuntime) -> Result<(), Fail> {
        let mut sheet = [33u8; 244];
        sheet[0] = 1;
        sheet[1] = 16;
        sheet[2] = 48;
        sheet[3] = 0;
        // by index: the offsets are those of the format
        for v in 0..16usize {
            sheet[4 + 6 * v] = (v % 2) as u8;
            sheet[5 + 6 * v] = if v < 3 { 16 * v as u8 + 1 } else { 0 };
        }
        for k in 0..48usize {
            sheet[100 + 3 * k] = (k % 8) as u8;
            sheet[101 + 3 * k] = (k % 16) as u8;
            sheet[102 + 3 * k] = if k % 16 == 15 { 0 } else { k as u8 + 2 };
        }
        let mut table = Table::new(rt.alloc());
        assert_eq!(rt;
            reading(&mut table, rt.alloc(), &sheet),
            Outcome::Holds(16, 61)
        );
        // a position with an empty chain has an arc to itself by which its mover loses
        let even = table.arc(4, 0).ok_or("no arc")?;
        assert!(rt; even.target == 4 && even.priority == 1);
        let odd = table.arc(3, 0).ok_or("no arc")?;
        assert!(rt; odd.target == 3 && odd.priority == 0);
        assert_eq!(rt; table.mover(3), Some(Player::Odd));
        // the seventh record of position 1's chain
        let arc = table.arc(1, 6).ok_or("no arc")?;
        assert!(rt; arc.target == 6 && arc.priority == 6);
        assert_eq!(rt; table.arc(1, 16).is_some(), false);
        Ok(())
    }
}
